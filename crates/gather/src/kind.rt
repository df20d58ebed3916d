// What stands where a section should.
ghost use Rattle.std.specs.Prelude.{◌≡◌, ◌≤◌, ◌<◌, length, drop};
ghost use Rattle.gather.specs.Steps.{is_part};
ghost use Rattle.gather.specs.Kind.{kind_of, classify};

use octets::byte_at;
use section::{LONGEST_LENGTH, length_of};

// What some bytes are, by the first three and by how many they are.
#[derive(Clone, Copy)]
pub enum Kind {
    // the bytes end, or 0xFF stands where a table_id should
    Nothing,
    // bytes of a section are missing
    Part,
    // section_length is above 4,093
    Overlong,
    // 3 + section_length bytes
    Whole(usize),
}

// The kind of `size` bytes with this first byte and this section_length.
#[tactic(auto, unfolding(crate::specs::Kind::kind_of))]
pub(crate) fn kind_of(first: u8, length: usize, size: usize) -> Kind
    requires { length < 4096 }
    ensures { result ≡ kind_of first length size }
{
    if (size == 0) | (first == 255) {
        Kind::Nothing
    } else if size < 3 {
        Kind::Part
    } else if LONGEST_LENGTH < length {
        Kind::Overlong
    } else if size < 3 + length {
        Kind::Part
    } else {
        Kind::Whole(3 + length)
    }
}

pub(crate) fn is_part(kind: Kind) -> bool
    ensures { result ≡ is_part kind }
{
    matches!(kind, Kind::Part)
}

// The kind of the bytes from `at` on, as the walk has it.
pub(crate) fn kind_at(s: &[u8], at: usize) -> Kind
    requires { at ≤ length s.now }
    ensures { result ≡ classify (drop at s.now) }
{
    let size = s.len() - at;
    let length = length_of(byte_at(s, at + 1), byte_at(s, at + 2));
    kind_of(byte_at(s, at), length, size)
}
