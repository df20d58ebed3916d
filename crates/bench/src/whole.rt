// CRC_32 of bytes, and a PAT and a PMT read whole: by the calls by index here, in one call beside.
ghost use Rattle.std.specs.Prelude.{◌≡◌, ◌+◌, ◌<◌, ◌≤◌, length};

use crate::made::all;
use crate::scenario::What;
use crate::{at_once, made};
use ground::Refusal;
use tables::{PatHeader, Place, PmtHeader, Program, Stream};

// The longest PAT or PMT, and behind it a byte that is written after each call: without it the compiler would take one CRC_32 for all calls.
pub(crate) type Room = [u8; 1025];

// The PAT's size: 253 entries.
pub(crate) const PAT_BYTES: usize = 1024;

// The PMT's size: 2 descriptors of the program, and 10 entries with 3 descriptors each.
pub(crate) const PMT_BYTES: usize = 258;

// A sum with a further answer, which is also noted behind the section.
// Room and sum go with every function here and nothing holds of them together.
pub(crate) fn noted(room: &mut Room, sum: u64, answer: u64) -> u64 {
    let next = sum.wrapping_add(answer);
    room[1024] = next.to_le_bytes()[0];
    next
}

// The first 8 bytes of a section of this size. The size is a constant of each caller.
fn head(room: &mut Room, table: u8, size: usize)
    requires { (3 ≤ size) × (size ≤ 1024) }
{
    let length = size - 3;
    room[0] = table;
    room[1] = 0xB0 + (length / 256) as u8;
    room[2] = (length % 256) as u8;
    room[5] = 0xC1;
    room[6] = 0;
    room[7] = 0;
}

// CRC_32 in the last four bytes of a section of this size. The size is a constant of each caller.
fn seal(room: &mut Room, size: usize)
    requires { (4 ≤ size) × (size ≤ 1024) }
{
    let at = size - 4;
    let residue = crc::residue(&room[..at]);
    room[at..size].copy_from_slice(&residue.to_be_bytes());
}

// A PAT with made entries.
fn make_pat(room: &mut Room) {
    head(room, 0, PAT_BYTES);
    seal(room, PAT_BYTES);
}

// A descriptor of 6 bytes.
fn descriptor(room: &mut Room, at: usize)
    requires { at + 6 ≤ 1024 }
{
    room[at + 1] = 4;
}

// An entry with three descriptors.
fn stream(room: &mut Room, at: usize)
    requires { at + 23 ≤ 1024 }
{
    room[at + 3] = 0xF0;
    room[at + 4] = 18;
    descriptor(room, at + 5);
    descriptor(room, at + 11);
    descriptor(room, at + 17);
}

// The ten entries.
fn streams(room: &mut Room) {
    for i in 0..10 {
        stream(room, 24 + 23 * i);
    }
}

// A PMT with made bytes in its entries and descriptors.
fn make_pmt(room: &mut Room) {
    head(room, 2, PMT_BYTES);
    room[10] = 0xF0;
    room[11] = 12;
    descriptor(room, 12);
    descriptor(room, 18);
    streams(room);
    seal(room, PMT_BYTES);
}

// What an entry of a PAT adds to the sum.
fn of_program(entry: Result<Program, Refusal>) -> u64 {
    entry.map_or(0, |program| {
        u64::from(program.number) + u64::from(program.pid.0)
    })
}

// What a PAT's header adds to the sum.
pub(crate) fn of_pat(header: Result<PatHeader, Refusal>) -> u64 {
    header.map_or(0, |header| header.entries as u64)
}

// A PAT's header and all its entries.
fn read_pat(room: &mut Room, sum: u64) -> u64 {
    let header = tables::pat_header(&room[..PAT_BYTES]);
    let mut now = noted(room, sum, of_pat(header));
    for i in 0..253 {
        let entry = tables::pat_entry(&room[..PAT_BYTES], i);
        now = noted(room, now, of_program(entry));
    }
    now
}

// What an entry of a PMT adds to the sum.
fn of_stream(entry: Result<Stream, Refusal>) -> u64 {
    entry.map_or(0, |stream| {
        u64::from(stream.stream_type) + u64::from(stream.pid.0)
    })
}

// What a descriptor adds to the sum.
fn of_descriptor(descriptor: Result<Place, Refusal>) -> u64 {
    descriptor.map_or(0, |place| u64::from(place.tag))
}

// What a PMT's header adds to the sum.
fn of_pmt(header: Result<PmtHeader, Refusal>) -> u64 {
    header.map_or(0, |header| u64::from(header.pcr_pid.0))
}

// The sum with a descriptor that was read, of the program or of an entry.
fn with_descriptor(found: Result<Place, Refusal>, room: &mut Room, sum: u64) -> u64 {
    noted(room, sum, of_descriptor(found))
}

// An entry and its three descriptors.
fn read_stream(room: &mut Room, index: u16, sum: u64) -> u64 {
    let entry = tables::pmt_entry(&room[..PMT_BYTES], index);
    let mut now = noted(room, sum, of_stream(entry));
    for i in 0..3 {
        let found = tables::entry_descriptor(&room[..PMT_BYTES], index, i);
        now = with_descriptor(found, room, now);
    }
    now
}

// A PMT's header, the program's descriptors, and all entries with their descriptors.
fn read_pmt(room: &mut Room, sum: u64) -> u64 {
    let header = tables::pmt_header(&room[..PMT_BYTES]);
    let mut now = noted(room, sum, of_pmt(header));
    now = with_descriptor(tables::program_descriptor(&room[..PMT_BYTES], 0), room, now);
    now = with_descriptor(tables::program_descriptor(&room[..PMT_BYTES], 1), room, now);
    for i in 0..10 {
        now = read_stream(room, i, now);
    }
    now
}

// A round: the PAT or the PMT read whole, by index or in one call, or CRC_32 of 1,024 bytes.
fn round(what: What, room: &mut Room, sum: u64) -> u64 {
    match what {
        What::Pat => read_pat(room, sum),
        What::Pmt => read_pmt(room, sum),
        What::PatAtOnce => at_once::read_pat(room, sum),
        What::PmtAtOnce => at_once::read_pmt(room, sum),
        What::Packets | What::Crc => {
            let residue = crc::residue(&room[..PAT_BYTES]);
            noted(room, sum, u64::from(residue))
        }
    }
}

// So many rounds over a section that is made once, and the sum of the answers.
pub(crate) fn read(what: What, rounds: u8) -> u64 {
    let mut room: Room = all(0);
    made::fill(&mut room, 1);
    match what {
        What::Pat | What::PatAtOnce => make_pat(&mut room),
        What::Pmt | What::PmtAtOnce => make_pmt(&mut room),
        What::Packets | What::Crc => {}
    }
    let mut sum = 0;
    for _ in 0..rounds {
        sum = round(what, &mut room, sum);
    }
    sum
}
