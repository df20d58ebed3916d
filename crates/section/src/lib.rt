// Sections: the table_id that one begins with, and how long it says that it is.
#![tactic(auto)]

ghost use Rattle.std.specs.Prelude.{◌≡◌, get_or, drop};
ghost use Rattle.section.specs.Promises.{SaysLength, SaysTable, SaysSize};

use octets::{byte_at, number_of_two};

// "section_length at most 4,093".
pub const LONGEST_LENGTH: usize = 4093;

// section_length, of a section's second and third byte.
pub fn length_of(second: u8, third: u8) -> usize
    ensures { SaysLength second third result }
{
    (number_of_two(second, third) % 4096) as usize
}

// The byte so many behind a place, and 0 past the end.
fn byte(bytes: &[u8], place: usize, behind: usize) -> u8
    ensures { result ≡ get_or (drop place bytes.now) behind 0 }
{
    match bytes.get(place..) {
        Some(rest) => byte_at(rest, behind),
        None => 0,
    }
}

// The table_id of the section at a place. The place is what is asked for, here and below: past the end there are zeros.
pub fn table_at(bytes: &[u8], place: usize) -> u8
    ensures { SaysTable bytes.now place result }
{
    byte(bytes, place, 0)
}

// How many bytes the section at a place has.
pub fn size_at(bytes: &[u8], place: usize) -> usize
    ensures { SaysSize bytes.now place result }
{
    3 + length_of(byte(bytes, place, 1), byte(bytes, place, 2))
}
