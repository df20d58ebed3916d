// Bytes: numbers of several, most significant byte first, and a byte that may be missing.
#![tactic(auto)]

ghost use Rattle.octets.specs.Promises.{ReadsTwo, ReadsThree, ReadsFive, ReadsSix, ReadsByte, GivesLesser, GoesFurther};

// The 16 bits of two bytes.
// There is a function for each size, as callers are offered them (docs/USING.md): one over the size would answer all in 64 bits, to be narrowed at each call.
pub fn number_of_two(a: u8, b: u8) -> u16
    ensures { ReadsTwo a b result }
{
    u16::from_be_bytes([a, b])
}

// The 24 bits of three bytes.
pub fn number_of_three(a: u8, b: u8, c: u8) -> u32
    ensures { ReadsThree a b c result }
{
    u32::from_be_bytes([0, a, b, c])
}

// The 40 bits of five bytes.
pub fn number_of_five(a: u8, b: u8, c: u8, d: u8, e: u8) -> u64
    ensures { ReadsFive a b c d e result }
{
    u64::from_be_bytes([0, 0, 0, a, b, c, d, e])
}

// The 48 bits of six bytes.
pub fn number_of_six(a: u8, b: u8, c: u8, d: u8, e: u8, f: u8) -> u64
    ensures { ReadsSix a b c d e f result }
{
    u64::from_be_bytes([0, 0, a, b, c, d, e, f])
}

// The byte at a place, or 0 past the end. The place is what is asked for.
pub fn byte_at(bytes: &[u8], place: usize) -> u8
    ensures { ReadsByte bytes.now place result }
{
    bytes.get(place).copied().unwrap_or(0)
}

// The lesser of two numbers. It is one of the calls that callers are offered (docs/USING.md); the code here takes `min`.
pub fn lesser(a: usize, b: usize) -> usize
    ensures { GivesLesser a b result }
{
    a.min(b)
}

// A place so many bytes further, or the end.
pub fn further(place: usize, bytes: usize, end: usize) -> usize
    ensures { GoesFurther place bytes end result }
{
    place.saturating_add(bytes).min(end)
}
