// PES headers: what stands before the data of a PES packet.
#![tactic(auto)]

ghost use Rattle.std.specs.Prelude.{◌≡◌, ◌≤◌, get_or};
ghost use Rattle.ground.specs.Number.{number_at};
ghost use Rattle.pes.specs.Header.{told_reading, fields_size, passes_length};
ghost use Rattle.pes.specs.Promises.{ReadsHeader};
ghost use Rattle.pes.specs.Steps.{read_optional, read_after_start};

use crate::stamps::Stamps;
use ground::Refusal;
use octets::{number_of_three, number_of_two};

pub mod stamps;
mod stream;

// What the header of an id with an optional header says: both lengths, the stamps, and which other fields are flagged.
#[derive(Clone, Copy)]
pub struct Header {
    pub stream_id: u8,
    pub packet_length: u16,
    pub header_length: u8,
    pub stamps: Stamps,
    pub escr: bool,
    pub rate: bool,
    pub trick: bool,
    pub copy: bool,
    pub crc: bool,
    pub extension: bool,
}

// An id without optional header has nothing but its packet length.
#[derive(Clone, Copy)]
pub enum Reading {
    Full(Header),
    Bare { stream_id: u8, packet_length: u16 },
}

// How many bytes the flagged fields have at least.
fn fields_size(flags: u8) -> u16
    ensures { (result ≡ fields_size flags) × (result ≤ 24) }
{
    stamps::size_of(flags / 64 % 4)
        + 6 * ((flags / 32 % 2) as u16)
        + 3 * ((flags / 16 % 2) as u16)
        + ((flags / 8 % 2) as u16)
        + ((flags / 4 % 2) as u16)
        + 2 * ((flags / 2 % 2) as u16)
        + ((flags % 2) as u16)
}

// Whether the header's fields do not fit its length, or the header not the packet's.
fn is_over(size: u16, fields: u16, header: u8) -> bool
    ensures { result ≡ passes_length size fields header }
{
    ((header as u16) < fields) | ((size != 0) & (size < 3 + (header as u16)))
}

// The optional header, or the first refusal that applies to it.
fn optional(bytes: &[u8], id: u8, size: u16) -> Result<Reading, Refusal>
    requires { (get_or bytes.now 3 0 ≡ id) × (number_at bytes.now 4 2 ≡ size) }
    ensures { told_reading result ≡ read_optional bytes.now }
{
    if bytes.len() < 9 {
        return Err(Refusal::PesTooShort);
    }
    if bytes[6] / 64 % 4 != 2 {
        return Err(Refusal::PesFixedBits);
    }
    let flags = bytes[7];
    let code = flags / 64 % 4;
    if code == 1 {
        return Err(Refusal::PesStampFlags);
    }
    let header = bytes[8];
    if is_over(size, fields_size(flags), header) {
        return Err(Refusal::PesHeaderLength);
    }
    if bytes.len() < 9 + (header as usize) {
        return Err(Refusal::PesTooShort);
    }
    let stamps = stamps::read(bytes, code)?;
    Ok(Reading::Full(Header {
        stream_id: id,
        packet_length: size,
        header_length: header,
        stamps,
        escr: flags / 32 % 2 == 1,
        rate: flags / 16 % 2 == 1,
        trick: flags / 8 % 2 == 1,
        copy: flags / 4 % 2 == 1,
        crc: flags / 2 % 2 == 1,
        extension: flags % 2 == 1,
    }))
}

// What the first six bytes say of an id without optional header, or what the optional header says.
fn after_start(bytes: &[u8], id: u8, size: u16) -> Result<Reading, Refusal>
    requires { (get_or bytes.now 3 0 ≡ id) × (number_at bytes.now 4 2 ≡ size) }
    ensures { told_reading result ≡ read_after_start bytes.now }
{
    if stream::is_bare(id) {
        return Ok(Reading::Bare {
            stream_id: id,
            packet_length: size,
        });
    }
    optional(bytes, id, size)
}

// What a PES header says, or the first refusal that applies to it.
pub fn read(bytes: &[u8]) -> Result<Reading, Refusal>
    ensures { ReadsHeader bytes.now result }
{
    let &[first, second, third, id, high, low, ..] = bytes else {
        return Err(Refusal::PesTooShort);
    };
    if number_of_three(first, second, third) != 1 {
        return Err(Refusal::PesStart);
    }
    if id < 0xBC {
        return Err(Refusal::PesStreamId);
    }
    if stream::is_dsmcc(id) {
        return Err(Refusal::PesDsmcc);
    }
    let size = number_of_two(high, low);
    if stream::is_endless(id, size) {
        return Err(Refusal::PesWithoutLength);
    }
    after_start(bytes, id, size)
}
