// The adaptation field's extension: its flags byte, and the parts that are flagged.
ghost use Rattle.std.specs.Prelude.{◌≡◌, ◌+◌, ◌≤◌, ◌<◌, length, get_or};
ghost use Rattle.packet.specs.Part.{told_part};
ghost use Rattle.packet.specs.Extension.{told_window, flagged_size, rate_place, splice_place, extended_at, is_cramped};
ghost use Rattle.packet.specs.Steps.{told_spliced, read_splice, told_extended, read_extended_at, Roomy, read_extended};

use crate::PACKET_BYTES;
use crate::adaptation::{Part, bytes_from};
use clock::stamp;
use clock::stamp::Stamp;
use ground::Refusal;
use octets::{byte_at, number_of_three, number_of_two};

// The legal time window.
#[derive(Clone, Copy)]
pub struct Window {
    pub valid: bool,
    pub offset: u16,
}

// The seamless splice: its type, and the decoding stamp of the next access unit.
#[derive(Clone, Copy)]
pub struct Splice {
    pub splice_type: u8,
    pub stamp: Stamp,
}

// What the extension says.
#[derive(Clone, Copy)]
pub(crate) struct Extension {
    pub window: Option<Window>,
    pub rate: Option<u32>,
    pub splice: Option<Splice>,
}

// How many bytes the parts take that a flags byte flags.
fn parts_size(flags: u8) -> usize
    ensures { 1 + result ≡ flagged_size flags }
{
    2 * usize::from(flags / 128 % 2)
        + 3 * usize::from(flags / 64 % 2)
        + 5 * usize::from(flags / 32 % 2)
}

// An extension that ends in the packet with all its parts: where its flags byte stands, and that byte.
#[derive(Clone, Copy)]
struct Flagged<'a> {
    bytes: &'a [u8; PACKET_BYTES],
    start: usize,
    flags: u8,
    ghost long: { length bytes.now ≡ 188 },
    ghost inside: { start + flagged_size flags ≤ 188 },
}

impl Flagged<'_> {
    // Where the rate begins.
    fn rate_place(self) -> usize
        ensures { result ≡ rate_place self.entry.start self.entry.flags }
    {
        self.start + 1 + 2 * usize::from(self.flags / 128 % 2)
    }

    // Where the splice begins.
    fn splice_place(self) -> usize
        ensures { result ≡ splice_place self.entry.start self.entry.flags }
    {
        self.rate_place() + 3 * usize::from(self.flags / 64 % 2)
    }

    fn window(self) -> Option<Window>
        ensures { told_window result ≡ (extended_at self.entry.bytes.now self.entry.start self.entry.flags).window }
    {
        if self.flags / 128 % 2 != 1 {
            return None;
        }
        let n = number_of_two(self.bytes[self.start + 1], self.bytes[self.start + 2]);
        Some(Window {
            valid: n / 0x8000 % 2 == 1,
            offset: n % 0x8000,
        })
    }

    fn rate(self) -> Option<u32>
        ensures { result ≡ (extended_at self.entry.bytes.now self.entry.start self.entry.flags).rate }
    {
        if self.flags / 64 % 2 != 1 {
            return None;
        }
        let place = self.rate_place();
        let n = number_of_three(
            self.bytes[place],
            self.bytes[place + 1],
            self.bytes[place + 2],
        );
        Some(n % 0x40_0000)
    }

    // The splice, or the refusal of that.
    fn splice(self) -> Result<Option<Splice>, Refusal>
        ensures { told_spliced result ≡ read_splice self.entry.bytes.now self.entry.start self.entry.flags }
    {
        if self.flags / 32 % 2 != 1 {
            return Ok(None);
        }
        let read = stamp::read_any(bytes_from(self.bytes, self.splice_place()))?;
        Ok(Some(Splice {
            splice_type: read.prefix,
            stamp: read.stamp,
        }))
    }
}

// What the extension whose flags byte stands at `start` says, or the refusal of its splice.
fn read_at(bytes: &[u8; PACKET_BYTES], start: usize) -> Result<Extension, Refusal>
    requires { start + flagged_size (get_or bytes.now start 0) ≤ 188 }
    ensures { told_extended result ≡ read_extended_at bytes.now start }
{
    let flagged = Flagged {
        bytes,
        start,
        flags: bytes[start],
    };
    Ok(Extension {
        window: flagged.window(),
        rate: flagged.rate(),
        splice: flagged.splice()?,
    })
}

// Whether an extension has fewer bytes than its flags byte and the parts that this flags.
pub(crate) fn is_cramped(bytes: &[u8; PACKET_BYTES], part: Option<Part>) -> bool
    ensures { result ≡ is_cramped bytes.now (told_part part) }
{
    match part {
        None => false,
        Some(part) => (part.size as usize) < 1 + parts_size(byte_at(bytes, part.start)),
    }
}

// What an extension says that may be missing, or the refusal of its splice.
pub(crate) fn read(bytes: &[u8; PACKET_BYTES], part: Option<Part>) -> Result<Extension, Refusal>
    requires { Roomy bytes.now (told_part part) }
    ensures { told_extended result ≡ read_extended bytes.now (told_part part) }
{
    match part {
        None => Ok(Extension {
            window: None,
            rate: None,
            splice: None,
        }),
        Some(part) => read_at(bytes, part.start),
    }
}
