// Stamps (PTS, DTS): 33 bits in five bytes, behind a four-bit prefix and with three marker bits.
ghost use Rattle.std.specs.Prelude.{◌≡◌, ◌≤◌, length};
ghost use Rattle.ground.specs.Number.{number_at};
ghost use Rattle.clock.specs.Stamp.{is_no_prefix, prefix_of, lacks_marker, is_unmarked, stamp_of, stamp_field};
ghost use Rattle.clock.specs.Promises.{ReadsStamp, ReadsAnyStamp, WritesStamp, TellsApart};

use ground::Refusal;
use octets::number_of_five;

// A count of 90 kHz. A number of 2^33 or above can be made, and every call refuses it.
#[derive(Clone, Copy)]
pub struct Stamp(pub u64);

// A stamp and the four bits before it.
#[derive(Clone, Copy)]
pub struct AnyStamp {
    pub prefix: u8,
    pub stamp: Stamp,
}

// The turn of a stamp, 2^33, and its half.
const TURN: u64 = 0x2_0000_0000;

const HALF: u64 = 0x1_0000_0000;

// Whether no stamp has this prefix.
fn is_no_prefix(prefix: u8) -> bool
    ensures { result ≡ is_no_prefix prefix }
{
    !((1 <= prefix) & (prefix <= 3))
}

// The four bits before the stamp in a field.
fn prefix_of(n: u64) -> u8
    ensures { result ≡ prefix_of n }
{
    (n / 0x10_0000_0000 % 16) as u8
}

// Whether a field lacks one of its three markers.
fn lacks_marker(n: u64) -> bool
    ensures { result ≡ lacks_marker n }
{
    !((n / 0x1_0000_0000 % 2 == 1) & (n / 0x1_0000 % 2 == 1) & (n % 2 == 1))
}

// Whether a field lacks this prefix or one of its three markers.
fn is_unmarked(n: u64, prefix: u8) -> bool
    ensures { result ≡ is_unmarked n prefix }
{
    (prefix_of(n) != prefix) | lacks_marker(n)
}

// The stamp in a field.
fn value_of(n: u64) -> u64
    ensures { result ≡ stamp_of n }
{
    n / 0x2_0000_0000 % 8 * 0x4000_0000 + n / 0x2_0000 % 0x8000 * 0x8000 + n / 2 % 0x8000
}

// The field that begins the bytes.
fn field_in(bytes: &[u8]) -> u64
    requires { 5 ≤ length bytes.now }
    ensures { result ≡ number_at bytes.now 0 5 }
{
    number_of_five(bytes[0], bytes[1], bytes[2], bytes[3], bytes[4])
}

// The stamp whose field begins the bytes, behind the prefix that the caller names.
pub fn read(bytes: &[u8], prefix: u8) -> Result<Stamp, Refusal>
    ensures { ReadsStamp bytes.now prefix result }
{
    if is_no_prefix(prefix) {
        return Err(Refusal::ClockRange);
    }
    if bytes.len() < 5 {
        return Err(Refusal::FieldTooShort);
    }
    let n = field_in(bytes);
    if is_unmarked(n, prefix) {
        return Err(Refusal::StampBits);
    }
    Ok(Stamp(value_of(n)))
}

// The stamp whose field begins the bytes, behind any four bits, and these bits.
pub fn read_any(bytes: &[u8]) -> Result<AnyStamp, Refusal>
    ensures { ReadsAnyStamp bytes.now result }
{
    if bytes.len() < 5 {
        return Err(Refusal::FieldTooShort);
    }
    let n = field_in(bytes);
    if lacks_marker(n) {
        return Err(Refusal::StampBits);
    }
    Ok(AnyStamp {
        prefix: prefix_of(n),
        stamp: Stamp(value_of(n)),
    })
}

// The field of a stamp behind a prefix.
fn field_of(prefix: u8, v: u64) -> u64
    ensures { result ≡ stamp_field prefix v }
{
    (prefix as u64) * 0x10_0000_0000
        + v / 0x4000_0000 % 8 * 0x2_0000_0000
        + 0x1_0000_0000
        + v / 0x8000 % 0x8000 * 0x2_0000
        + 0x1_0000
        + v % 0x8000 * 2
        + 1
}

// The stamp's field at the start of the bytes, behind the prefix that the caller names.
pub fn write(bytes: &mut [u8], prefix: u8, stamp: Stamp) -> Result<(), Refusal>
    ensures { WritesStamp bytes.old prefix stamp.0 (result, bytes.new) }
{
    let v = stamp.0;
    if is_no_prefix(prefix) {
        return Err(Refusal::ClockRange);
    }
    if TURN <= v {
        return Err(Refusal::ClockRange);
    }
    if bytes.len() < 5 {
        return Err(Refusal::FieldTooShort);
    }
    let n = field_of(prefix, v);
    bytes[..5].copy_from_slice(&n.to_be_bytes()[3..]);
    Ok(())
}

// The signed difference a − b, by the shorter way round: 2^33 divides 2^64, so the wrapped subtraction may be reduced.
pub fn difference(a: Stamp, b: Stamp) -> Result<i64, Refusal>
    ensures { TellsApart a.0 b.0 result }
{
    let x = a.0;
    let y = b.0;
    if (TURN <= x) | (TURN <= y) {
        return Err(Refusal::ClockRange);
    }
    let apart = (x + HALF).wrapping_sub(y) % TURN;
    Ok((apart as i64) - 0x1_0000_0000)
}
