// The adaptation field: its length, its flags, and the fields that are flagged.
ghost use Rattle.std.specs.Prelude.{◌≡◌, ◌+◌, ◌≤◌, ◌<◌, get_or, drop};
ghost use Rattle.packet.specs.Part.{told_part, part_at, part_size};
ghost use Rattle.packet.specs.Adaptation.{told_field, is_wrong_length, opcr_place, countdown_place, private_place, countdown_at, signed_of};
ghost use Rattle.packet.specs.Steps.{told_fields, told_clocked, Parted, Roomy, read_clock, bare_field, read_fitting, read_flagged, read_field};

use crate::extension::{Splice, Window};
use crate::{PACKET_BYTES, extension};
use clock::reference;
use clock::reference::Reference;
use ground::Refusal;
use octets::byte_at;

// Private data or the extension, after its length byte: where it begins in the packet, and its size.
#[derive(Clone, Copy)]
pub struct Part {
    pub start: usize,
    pub size: u8,
}

// What the field says; its length is missing where the control says that there is no field. Where there is no flags byte no indicator is set.
#[derive(Clone, Copy)]
pub struct Adaptation {
    pub length: Option<u8>,
    pub discontinuity: bool,
    pub random_access: bool,
    pub stream_priority: bool,
    pub pcr: Option<Reference>,
    pub opcr: Option<Reference>,
    pub countdown: Option<i8>,
    pub private_data: Option<Part>,
    pub extension: Option<Part>,
    pub window: Option<Window>,
    pub rate: Option<u32>,
    pub splice: Option<Splice>,
}

// Whether no field of this control has this length.
fn is_wrong_length(control: u8, size: u8) -> bool
    ensures { result ≡ is_wrong_length control size }
{
    ((control == 2) & (size != 183)) | ((control == 3) & (182 < size))
}

// Where the OPCR begins.
fn opcr_place(flags: u8) -> usize
    ensures { result ≡ opcr_place flags }
{
    6 + 6 * ((flags / 16 % 2) as usize)
}

// Where the countdown begins.
fn countdown_place(flags: u8) -> usize
    ensures { result ≡ countdown_place flags }
{
    opcr_place(flags) + 6 * ((flags / 8 % 2) as usize)
}

// Where the private data's length byte stands.
fn private_place(flags: u8) -> usize
    ensures { result ≡ private_place flags }
{
    countdown_place(flags) + ((flags / 4 % 2) as usize)
}

// The part whose length byte stands at a place. A place and its flag belong to one field each, here and below.
fn part_at(bytes: &[u8; PACKET_BYTES], place: usize, flagged: bool) -> Option<Part>
    requires { place < 65536 }
    ensures { told_part result ≡ part_at bytes.now place flagged }
{
    if !flagged {
        return None;
    }
    Some(Part {
        start: place + 1,
        size: byte_at(bytes, place),
    })
}

// How many bytes a part takes with its length byte.
fn taken_by(part: Option<Part>) -> usize
    ensures { (result ≡ part_size (told_part part)) × (result ≤ 256) }
{
    match part {
        None => 0,
        Some(part) => 1 + (part.size as usize),
    }
}

// A byte as a signed number.
fn signed_of(b: u8) -> i8
    ensures { result ≡ signed_of b }
{
    b.cast_signed()
}

// The packet's bytes from a place on.
pub(crate) fn bytes_from(bytes: &[u8; PACKET_BYTES], place: usize) -> &[u8]
    requires { place ≤ 188 }
    ensures { result.now ≡ drop place bytes.now }
{
    &bytes[place..]
}

// The clock reference at a place.
fn clock_at(
    bytes: &[u8; PACKET_BYTES],
    place: usize,
    flagged: bool,
) -> Result<Option<Reference>, Refusal>
    requires { place + 6 ≤ 188 }
    ensures { told_clocked result ≡ read_clock bytes.now place flagged }
{
    if !flagged {
        return Ok(None);
    }
    Ok(Some(reference::read(bytes_from(bytes, place))?))
}

// The splice countdown at a place.
fn countdown_at(bytes: &[u8; PACKET_BYTES], place: usize, flagged: bool) -> Option<i8>
    requires { place + 1 ≤ 188 }
    ensures { result ≡ countdown_at bytes.now place flagged }
{
    flagged.then_some(signed_of(bytes[place]))
}

// A field without flags.
fn bare(size: Option<u8>) -> Adaptation
    ensures { told_field result ≡ bare_field size }
{
    Adaptation {
        length: size,
        discontinuity: false,
        random_access: false,
        stream_priority: false,
        pcr: None,
        opcr: None,
        countdown: None,
        private_data: None,
        extension: None,
        window: None,
        rate: None,
        splice: None,
    }
}

// Private data and extension, and where the flagged fields end.
#[derive(Clone, Copy)]
struct Parts {
    own: Option<Part>,
    extension: Option<Part>,
    end: usize,
}

// The parts that are flagged; a length byte outside the packet counts as 0, and the end then lies outside too.
fn parts_of(bytes: &[u8; PACKET_BYTES], flags: u8) -> Parts
    ensures { Parted bytes.now flags result }
{
    let own_start = private_place(flags);
    let own = part_at(bytes, own_start, flags / 2 % 2 == 1);
    let extension_start = own_start + taken_by(own);
    let extension = part_at(bytes, extension_start, flags % 2 == 1);
    Parts {
        own,
        extension,
        end: extension_start + taken_by(extension),
    }
}

// The field whose flagged fields fit, or the first refusal that applies to their values.
// What the extension says stands among the field's own, as callers read it.
fn fitting(
    bytes: &[u8; PACKET_BYTES],
    size: u8,
    flags: u8,
    parts: Parts,
) -> Result<Adaptation, Refusal>
    requires { Parted bytes.now flags parts × Roomy bytes.now (told_part parts.extension) }
    ensures { told_fields result ≡ read_fitting bytes.now (Some size) flags }
{
    let pcr = clock_at(bytes, 6, flags / 16 % 2 == 1)?;
    let opcr = clock_at(bytes, opcr_place(flags), flags / 8 % 2 == 1)?;
    let inner = extension::read(bytes, parts.extension)?;
    Ok(Adaptation {
        length: Some(size),
        discontinuity: flags / 128 % 2 == 1,
        random_access: flags / 64 % 2 == 1,
        stream_priority: flags / 32 % 2 == 1,
        pcr,
        opcr,
        countdown: countdown_at(bytes, countdown_place(flags), flags / 4 % 2 == 1),
        private_data: parts.own,
        extension: parts.extension,
        window: inner.window,
        rate: inner.rate,
        splice: inner.splice,
    })
}

// The field whose flags byte is there, or the first refusal that applies to it.
fn flagged(bytes: &[u8; PACKET_BYTES], size: u8, flags: u8) -> Result<Adaptation, Refusal>
    requires { (get_or bytes.now 4 0 ≡ size) × (size ≤ 183) }
    ensures { told_fields result ≡ read_flagged bytes.now (Some size) flags }
{
    let parts = parts_of(bytes, flags);
    if 5 + (size as usize) < parts.end {
        return Err(Refusal::AdaptationLength);
    }
    if extension::is_cramped(bytes, parts.extension) {
        return Err(Refusal::AdaptationLength);
    }
    fitting(bytes, size, flags, parts)
}

// The adaptation field of a packet with this control, or the first refusal that applies to it.
pub(crate) fn read(bytes: &[u8; PACKET_BYTES], control: u8) -> Result<Adaptation, Refusal>
    requires { control < 4 }
    ensures { told_fields result ≡ read_field control bytes.now }
{
    if control < 2 {
        return Ok(bare(None));
    }
    let size = bytes[4];
    if is_wrong_length(control, size) {
        return Err(Refusal::AdaptationLength);
    }
    if size == 0 {
        return Ok(bare(Some(0)));
    }
    flagged(bytes, size, bytes[5])
}
