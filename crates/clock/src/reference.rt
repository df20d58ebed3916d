// Clock references (PCR, OPCR): a base of 33 bits that counts at 90 kHz and an extension of 9 that counts the 300 parts of it.
ghost use Rattle.std.specs.Prelude.{◌≡◌, ◌<◌};
ghost use Rattle.clock.specs.Range.{reference_turn};
ghost use Rattle.clock.specs.Reference.{extension_of, reference_of, reference_field};
ghost use Rattle.clock.specs.Promises.{ReadsReference, WritesReference, TellsAhead};

use ground::Refusal;
use octets::number_of_six;

// A count of 27 MHz. A number of 300·2^33 or above can be made, and every call refuses it.
#[derive(Clone, Copy)]
pub struct Reference(pub u64);

// The turn of a clock reference, 300·2^33.
const TURN: u64 = 2_576_980_377_600;

// The extension in a field.
fn extension_of(n: u64) -> u64
    ensures { result ≡ extension_of n }
{
    n % 512
}

// The clock reference in a field.
fn value_of(n: u64) -> u64
    ensures { result ≡ reference_of n }
{
    n / 0x8000 % 0x2_0000_0000 * 300 + n % 512
}

// The clock reference in the first six bytes.
pub fn read(bytes: &[u8]) -> Result<Reference, Refusal>
    ensures { ReadsReference bytes.now result }
{
    let &[a, b, c, d, e, f, ..] = bytes else {
        return Err(Refusal::FieldTooShort);
    };
    let n = number_of_six(a, b, c, d, e, f);
    let extension = extension_of(n);
    if 299 < extension {
        return Err(Refusal::ClockExtension);
    }
    Ok(Reference(value_of(n)))
}

// The field of a clock reference below the turn, its reserved bits ones.
fn field_of(v: u64) -> u64
    requires { v < reference_turn }
    ensures { result ≡ reference_field v }
{
    v / 300 * 0x8000 + 0x7E00 + v % 300
}

// The clock reference in the first six bytes, its reserved bits ones.
pub fn write(bytes: &mut [u8], reference: Reference) -> Result<(), Refusal>
    ensures { WritesReference bytes.old reference.0 (result, bytes.new) }
{
    let v = reference.0;
    if TURN <= v {
        return Err(Refusal::ClockRange);
    }
    if bytes.len() < 6 {
        return Err(Refusal::FieldTooShort);
    }
    let n = field_of(v);
    bytes[..6].copy_from_slice(&n.to_be_bytes()[2..]);
    Ok(())
}

// How far it is forward from b to a. The turn does not divide 2^64, so a wrapped subtraction would not do.
pub fn forward(a: Reference, b: Reference) -> Result<u64, Refusal>
    ensures { TellsAhead a.0 b.0 result }
{
    let x = a.0;
    let y = b.0;
    if (TURN <= x) | (TURN <= y) {
        return Err(Refusal::ClockRange);
    }
    if y <= x {
        return Ok(x - y);
    }
    Ok(x + (TURN - y))
}
