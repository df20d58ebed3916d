// How outcomes are written, each piece behind a space.
use clock::reference::Reference;
use clock::stamp::Stamp;
use ground::Refusal;
use pid::Pid;
use text::Text;

// What an outcome tells. Each width of numbers has an impl of its own: one over all of `Into<u64>` could overlap with those of the structs, and none may be written by a macro.
// No `Display`: an outcome has one format (docs/EXERCISE.md), and bytes are lent for it.
pub(crate) trait Tell {
    fn tell(self, text: &mut Text<'_>);
}

impl Tell for u64 {
    fn tell(self, text: &mut Text<'_>) {
        text.byte(b' ');
        text.decimal(self);
    }
}

impl Tell for u32 {
    fn tell(self, text: &mut Text<'_>) {
        u64::from(self).tell(text);
    }
}

impl Tell for u16 {
    fn tell(self, text: &mut Text<'_>) {
        u64::from(self).tell(text);
    }
}

impl Tell for u8 {
    fn tell(self, text: &mut Text<'_>) {
        u64::from(self).tell(text);
    }
}

impl Tell for usize {
    fn tell(self, text: &mut Text<'_>) {
        (self as u64).tell(text);
    }
}

impl Tell for i64 {
    fn tell(self, text: &mut Text<'_>) {
        if self < 0 {
            word(text, b"-");
            text.decimal(self.unsigned_abs());
        } else {
            self.unsigned_abs().tell(text);
        }
    }
}

// Yes is 1 and no is 0.
impl Tell for bool {
    fn tell(self, text: &mut Text<'_>) {
        u64::from(self).tell(text);
    }
}

impl Tell for Pid {
    fn tell(self, text: &mut Text<'_>) {
        self.0.tell(text);
    }
}

impl Tell for Stamp {
    fn tell(self, text: &mut Text<'_>) {
        self.0.tell(text);
    }
}

impl Tell for Reference {
    fn tell(self, text: &mut Text<'_>) {
        self.0.tell(text);
    }
}

// What is missing is a dash.
impl<T: Tell> Tell for Option<T> {
    fn tell(self, text: &mut Text<'_>) {
        match self {
            Some(value) => value.tell(text),
            None => word(text, b"-"),
        }
    }
}

impl<T: Tell> Tell for Result<T, Refusal> {
    fn tell(self, text: &mut Text<'_>) {
        match self {
            Ok(value) => value.tell(text),
            Err(why) => why.tell(text),
        }
    }
}

impl Tell for Refusal {
    fn tell(self, text: &mut Text<'_>) {
        word(text, b"refused");
        self.number().tell(text);
    }
}

impl<T: Tell + Copy> Tell for &[T] {
    fn tell(self, text: &mut Text<'_>) {
        for value in self {
            (*value).tell(text);
        }
    }
}

// A word.
pub(crate) fn word(text: &mut Text<'_>, letters: &[u8]) {
    text.byte(b' ');
    text.word(letters);
}

// Two numbers with a colon between them.
pub(crate) fn pair(text: &mut Text<'_>, a: u64, b: u64) {
    a.tell(text);
    text.byte(b':');
    text.decimal(b);
}

// Bytes in hexadecimal digits behind an equals sign.
pub(crate) fn bytes(text: &mut Text<'_>, bytes: &[u8]) {
    word(text, b"=");
    for b in bytes {
        text.byte(digit(*b / 16));
        text.byte(digit(*b % 16));
    }
}

// The digit of a half of a byte.
fn digit(half: u8) -> u8 {
    match half {
        0..=9 => b'0' + half,
        10..=15 => b'a' - 10 + half,
        _ => b'-',
    }
}

// What a digest takes in.
pub(crate) trait Digested: Copy {
    // The digest with this behind it.
    fn behind(self, digest: u32) -> u32;
}

impl Digested for u8 {
    fn behind(self, digest: u32) -> u32 {
        ((u64::from(digest) * 65_599 + u64::from(self)) % 4_294_967_291) as u32
    }
}

// As its two bytes.
impl Digested for u16 {
    fn behind(self, digest: u32) -> u32 {
        let [high, low] = self.to_be_bytes();
        low.behind(high.behind(digest))
    }
}

// The digest of bytes or of numbers.
pub(crate) fn digest<T: Digested>(items: &[T]) -> u32 {
    items.iter().fold(1, |digest, item| item.behind(digest))
}
