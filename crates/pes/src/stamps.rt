// The stamps of a PES header: none, a PTS, or a PTS with a DTS.
ghost use Rattle.std.specs.Prelude.{◌≡◌, ◌+◌, ◌≤◌, length};
ghost use Rattle.pes.specs.Stamps.{stamps_size};
ghost use Rattle.pes.specs.Steps.{told_stamped, read_stamps};

use clock::stamp;
use clock::stamp::Stamp;
use ground::Refusal;

// Document 01 names this form: no stamp, a PTS, or a PTS with a DTS.
#[derive(Clone, Copy)]
pub enum Stamps {
    Absent,
    Pts(Stamp),
    Both { pts: Stamp, dts: Stamp },
}

// How many bytes the stamps of these flags have: the two bits as they stand in the header, since one of their four values is a refusal.
pub(crate) fn size_of(code: u8) -> u16
    ensures { (result ≡ stamps_size code) × (result ≤ 10) }
{
    match code {
        3 => 10,
        2 => 5,
        _ => 0,
    }
}

// A PTS alone.
fn read_pts(bytes: &[u8]) -> Result<Stamps, Refusal>
    requires { 14 ≤ length bytes.now }
    ensures { told_stamped result ≡ read_stamps bytes.now 2 }
{
    let pts = stamp::read(&bytes[9..], 2)?;
    Ok(Stamps::Pts(pts))
}

// A PTS with a DTS.
fn read_both(bytes: &[u8]) -> Result<Stamps, Refusal>
    requires { 19 ≤ length bytes.now }
    ensures { told_stamped result ≡ read_stamps bytes.now 3 }
{
    let pts = stamp::read(&bytes[9..], 3)?;
    let dts = stamp::read(&bytes[14..], 1)?;
    Ok(Stamps::Both { pts, dts })
}

// The stamps of these flags, which stand in the bytes.
pub(crate) fn read(bytes: &[u8], code: u8) -> Result<Stamps, Refusal>
    requires { 9 + stamps_size code ≤ length bytes.now }
    ensures { told_stamped result ≡ read_stamps bytes.now code }
{
    match code {
        3 => read_both(bytes),
        2 => read_pts(bytes),
        _ => Ok(Stamps::Absent),
    }
}
