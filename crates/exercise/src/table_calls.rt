// The lines about sections of tables.
use crate::buffers::first_of;
use crate::line::Form;
use crate::outcome::{Tell, digest, word};
use ground::Refusal;
use tables::{Head, PatHeader, Place, PmtHeader, PmtListed, Program, Stream};
use text::Text;

// What is lent to calls that write a whole table: each place holds a mark.
const MARKED: [u16; 256] = [43_690; 256];

const MARKED_BYTES: [u8; 256] = [170; 256];

// The outcome of a line; none of one that is not known, or of which a number is out of its range.
pub(crate) fn answer(form: Form<'_>, text: &mut Text<'_>) -> Option<()> {
    match (form.word, form.numbers, form.bytes) {
        (b"crc", &[], Some(bytes)) => crc(bytes, text),
        (b"pat", &[], Some(bytes)) => {
            text.word(b"pat");
            tables::pat_header(bytes).tell(text);
        }
        (b"programs", &[programs, pids], Some(bytes)) => {
            programs_of(bytes, [programs, pids], text)?;
        }
        (b"patitem", &[index], Some(bytes)) => {
            let index = u16::try_from(index).ok()?;
            text.word(b"patitem");
            tables::pat_entry(bytes, index).tell(text);
        }
        _ => answer_on_pmt(form, text)?,
    }
    Some(())
}

// The lines about PMTs and their descriptors.
fn answer_on_pmt(form: Form<'_>, text: &mut Text<'_>) -> Option<()> {
    match (form.word, form.numbers, form.bytes) {
        (b"pmt", &[], Some(bytes)) => {
            text.word(b"pmt");
            tables::pmt_header(bytes).tell(text);
        }
        (b"streams", &[types, pids, starts, sizes], Some(bytes)) => {
            streams_of(bytes, [types, pids, starts, sizes], text)?;
        }
        (b"pmtitem", &[index], Some(bytes)) => {
            let index = u16::try_from(index).ok()?;
            text.word(b"pmtitem");
            tables::pmt_entry(bytes, index).tell(text);
        }
        (b"outer", &[index], Some(bytes)) => {
            let index = u16::try_from(index).ok()?;
            let part = tables::program_descriptor_bytes(bytes, index);
            text.word(b"outer");
            descriptor(tables::program_descriptor(bytes, index), part, text);
        }
        (b"inner", &[entry, index], Some(bytes)) => {
            let entry = u16::try_from(entry).ok()?;
            let index = u16::try_from(index).ok()?;
            let part = tables::entry_descriptor_bytes(bytes, entry, index);
            text.word(b"inner");
            descriptor(tables::entry_descriptor(bytes, entry, index), part, text);
        }
        (b"loop", &[place], Some(bytes)) => {
            text.word(b"loop");
            tables::next_descriptor(bytes, place as usize).tell(text);
        }
        _ => return None,
    }
    Some(())
}

// Whether CRC_32 is right.
fn crc(bytes: &[u8], text: &mut Text<'_>) {
    text.word(b"crc");
    if crc::residue(bytes) == 0 {
        word(text, b"right");
    } else {
        word(text, b"wrong");
    }
}

// All entries of a PAT, written to the first places of two lists, of which there are so many.
fn programs_of(bytes: &[u8], places: [u64; 2], text: &mut Text<'_>) -> Option<()> {
    if places.iter().any(|n| 256 < *n) {
        return None;
    }
    let mut programs = MARKED;
    let mut pids = MARKED;
    let answer = tables::pat_entries(
        bytes,
        first_of(&mut programs, places[0]),
        first_of(&mut pids, places[1]),
    );
    text.word(b"programs");
    answer.tell(text);
    word(text, b"lists");
    digest(&programs).tell(text);
    digest(&pids).tell(text);
    Some(())
}

// All entries of a PMT, written to the first places of four lists, of which there are so many.
fn streams_of(bytes: &[u8], places: [u64; 4], text: &mut Text<'_>) -> Option<()> {
    if places.iter().any(|n| 256 < *n) {
        return None;
    }
    let mut types = MARKED_BYTES;
    let mut pids = MARKED;
    let mut starts = MARKED;
    let mut sizes = MARKED;
    let answer = tables::pmt_entries(
        bytes,
        first_of(&mut types, places[0]),
        first_of(&mut pids, places[1]),
        first_of(&mut starts, places[2]),
        first_of(&mut sizes, places[3]),
    );
    text.word(b"streams");
    answer.tell(text);
    word(text, b"lists");
    digest(&types).tell(text);
    digest(&pids).tell(text);
    digest(&starts).tell(text);
    digest(&sizes).tell(text);
    Some(())
}

// A descriptor, and the digest of its bytes.
fn descriptor(found: Result<Place, Refusal>, part: &[u8], text: &mut Text<'_>) {
    found.tell(text);
    if found.is_ok() {
        digest(part).tell(text);
    }
}

// What a PAT and a PMT have in common.
impl Tell for Head {
    fn tell(self, text: &mut Text<'_>) {
        self.id.tell(text);
        self.version.tell(text);
        self.current.tell(text);
        self.number.tell(text);
        self.last.tell(text);
    }
}

impl Tell for PatHeader {
    fn tell(self, text: &mut Text<'_>) {
        self.head.tell(text);
        self.entries.tell(text);
    }
}

impl Tell for Program {
    fn tell(self, text: &mut Text<'_>) {
        self.number.tell(text);
        self.pid.tell(text);
    }
}

impl Tell for PmtHeader {
    fn tell(self, text: &mut Text<'_>) {
        self.head.tell(text);
        self.pcr_pid.tell(text);
        self.descriptors.tell(text);
        self.entries.tell(text);
    }
}

impl Tell for PmtListed {
    fn tell(self, text: &mut Text<'_>) {
        self.head.tell(text);
        self.pcr_pid.tell(text);
        self.start.tell(text);
        self.size.tell(text);
        self.entries.tell(text);
    }
}

impl Tell for Stream {
    fn tell(self, text: &mut Text<'_>) {
        self.stream_type.tell(text);
        self.pid.tell(text);
        self.descriptors.tell(text);
    }
}

impl Tell for Place {
    fn tell(self, text: &mut Text<'_>) {
        self.tag.tell(text);
        self.start.tell(text);
        self.size.tell(text);
    }
}
