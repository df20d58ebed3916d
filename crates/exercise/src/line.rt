// A line of a script as its bytes come: a word, numbers, and bytes at the end.
use crate::filled::Filled;

// What the next byte belongs to.
#[derive(Clone, Copy)]
enum Part {
    Word,
    Number,
    Bytes,
    Nothing,
}

// The most bytes of a line.
pub(crate) const MOST_BYTES: usize = 8192;

// A line so far: its word, its numbers, the digits of the number that has begun, its bytes, and the upper half of a byte whose lower half has not come.
#[derive(Drop)]
pub(crate) struct Line {
    part: Part,
    word: Filled<u8, 8>,
    numbers: Filled<u64, 7>,
    digits: Filled<u8, 20>,
    bytes: Filled<u8, MOST_BYTES>,
    high: Option<u8>,
}

// A line of the right form: its word, its numbers, and its bytes, where it has some.
#[derive(Clone, Copy)]
pub(crate) struct Form<'a> {
    pub(crate) word: &'a [u8],
    pub(crate) numbers: &'a [u64],
    pub(crate) bytes: Option<&'a [u8]>,
}

impl Line {
    // A line of which nothing has come.
    pub(crate) fn new() -> Line {
        Line {
            part: Part::Word,
            word: Filled::new(0),
            numbers: Filled::new(0),
            digits: Filled::new(0),
            bytes: Filled::new(0),
            high: None,
        }
    }

    // A new line.
    pub(crate) fn clear(&mut self) {
        self.part = Part::Word;
        self.word.clear();
        self.numbers.clear();
        self.digits.clear();
        self.bytes.clear();
        self.high = None;
    }

    // Takes a further byte, which is no line end. What has no form once is answered `bad`, whatever comes.
    pub(crate) fn take(&mut self, b: u8) {
        let taken = match self.part {
            Part::Word => self.take_letter(b),
            Part::Number => self.take_digit(b),
            Part::Bytes => self.take_half(b),
            Part::Nothing => None,
        };
        if taken.is_none() {
            self.part = Part::Nothing;
        }
    }

    // A letter of the word, or the word's end.
    fn take_letter(&mut self, b: u8) -> Option<()> {
        match b {
            b' ' if !self.word.items().is_empty() => {
                self.part = Part::Number;
                Some(())
            }
            b'a'..=b'z' => self.word.push(b),
            _ => None,
        }
    }

    // A digit of a number, the number's end, or the sign that bytes come.
    fn take_digit(&mut self, b: u8) -> Option<()> {
        match b {
            b'=' if self.digits.items().is_empty() => {
                self.part = Part::Bytes;
                Some(())
            }
            b' ' => self.end_number(),
            b'0'..=b'9' => self.digits.push(b - b'0'),
            _ => None,
        }
    }

    // The number that was being read, as the line's next.
    fn end_number(&mut self) -> Option<()> {
        self.numbers.push(number_of(self.digits.items())?)?;
        self.digits.clear();
        Some(())
    }

    // Half a byte.
    fn take_half(&mut self, b: u8) -> Option<()> {
        let half = half_of(b)?;
        match self.high {
            None => self.high = Some(half),
            Some(high) => {
                self.bytes.push(high << 4 | half)?;
                self.high = None;
            }
        }
        Some(())
    }

    // Takes the line's end.
    pub(crate) fn end(&mut self) {
        if let Part::Number = self.part {
            if self.end_number().is_none() {
                self.part = Part::Nothing;
            }
        }
    }

    // Whether nothing has come of the line.
    pub(crate) fn is_empty(&self) -> bool {
        match self.part {
            Part::Word => self.word.items().is_empty(),
            _ => false,
        }
    }

    // What an ended line says, if it has the form of a line at all.
    pub(crate) fn form(&self) -> Option<Form<'_>> {
        let bytes = match self.part {
            Part::Nothing => return None,
            Part::Bytes => Some(self.bytes.items()),
            _ => None,
        };
        if self.high.is_some() {
            return None;
        }
        Some(Form {
            word: self.word.items(),
            numbers: self.numbers.items(),
            bytes,
        })
    }
}

// The number of some digits, if there are any and it has 64 bits.
fn number_of(digits: &[u8]) -> Option<u64> {
    if digits.is_empty() {
        return None;
    }
    let mut n: u64 = 0;
    for d in digits {
        n = n.checked_mul(10)?.checked_add(u64::from(*d))?;
    }
    Some(n)
}

// A hexadecimal digit's value.
fn half_of(b: u8) -> Option<u8> {
    match b {
        b'0'..=b'9' => Some(b - b'0'),
        b'a'..=b'f' => Some(b - b'a' + 10),
        _ => None,
    }
}
