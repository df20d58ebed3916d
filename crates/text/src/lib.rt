// Text that a program prints, written piece by piece behind what is already there.
#![tactic(auto)]

ghost use Rattle.ground.specs.Lent.{lent};
ghost use Rattle.text.specs.Text.{told_text};
ghost use Rattle.text.specs.Promises.{BeginsText, ClearsText, WritesByte, WritesWord, WritesDecimal, LendsText, LendsFirst};

// Lent bytes, of which the first are text: where the text ends.
#[derive(Drop)]
pub struct Text<'a> {
    pub bytes: &'a mut [u8],
    pub end: usize,
}

impl<'a> Text<'a> {
    // No text yet.
    pub fn new(bytes: &'a mut [u8]) -> Text<'a>
        ensures { BeginsText bytes.entry.ghost_name bytes.old (told_text result) }
    {
        Text { bytes, end: 0 }
    }

    // No text again.
    pub fn clear(&mut self)
        ensures { ClearsText (told_text self.old) (told_text self.new) }
    {
        self.end = 0;
    }

    // One byte more.
    pub fn byte(&mut self, b: u8)
        ensures { WritesByte (told_text self.old) b (told_text self.new) }
    {
        if self.end < self.bytes.len() {
            self.bytes[self.end] = b;
            self.end += 1;
        }
    }

    // A word.
    pub fn word(&mut self, letters: &[u8])
        ensures { WritesWord (told_text self.old) letters.now (told_text self.new) }
    {
        for b in letters {
            self.byte(*b);
        }
    }

    // A number in decimal digits. There is no `Display`: each byte of a line is promised.
    pub fn decimal(&mut self, n: u64)
        ensures { WritesDecimal (told_text self.old) n (told_text self.new) }
    {
        let mut digits = [0u8; 20];
        let size = io::decimal(n, &mut digits);
        self.word(&digits[..size]);
    }

    // The text itself.
    pub fn written(&self) -> &[u8]
        ensures { LendsText (told_text self.now) result.now }
    {
        first(self.bytes, self.end)
    }
}

// The first of some bytes: as many as there are at most.
pub fn first(bytes: &[u8], size: usize) -> &[u8]
    ensures { LendsFirst (lent bytes.entry) size (lent result) }
{
    &bytes[..size.min(bytes.len())]
}
