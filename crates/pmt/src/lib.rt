// The program map table: the header, the entries and the descriptors of a lent section, or its refusal.
#![tactic(auto)]

ghost use Rattle.std.specs.Prelude.{◌≡◌, ◌+◌, ◌%◌, ◌≤◌, length};
ghost use Rattle.ground.specs.Answer.{given};
ghost use Rattle.ground.specs.Lent.{lent, part};
ghost use Rattle.loops.specs.Promises.{Surveys};
ghost use Rattle.loops.specs.Walk.{found_by, walk_of};
ghost use Rattle.psi.specs.Answers.{told_head};
ghost use Rattle.psi.specs.Section.{heading_of, word_of};
ghost use Rattle.pmt.specs.Answers.{heading_by, listing_by, stream_by, place_by, told_pmt_entry, told_pmt_descriptor};
ghost use Rattle.pmt.specs.Listed.{lists, written_to};
ghost use Rattle.pmt.specs.Pmt.{pmt_entry_of, descriptor_in, descriptor_start, descriptor_size, part_of};
ghost use Rattle.pmt.specs.Promises.{
  ReadsPmtHeader,
  ReadsPmtEntry,
  FindsProgramDescriptor,
  FindsEntryDescriptor,
  GivesProgramDescriptorBytes,
  GivesEntryDescriptorBytes,
  FindsNextDescriptor,
  ListsPmtEntries,
};
ghost use Rattle.pmt.specs.Steps.{pmt_heading_at, pmt_listing_at, stream_at, descriptor_place_at};

use ground::Refusal;
use loops::{Surveyed, Walked};
use octets::number_of_two;
use pid::Pid;
use psi::{Head, head_of};

// A PMT has no more entries.
pub const MOST_STREAMS: usize = 201;

// An entry: an elementary stream's type, its PID and how many descriptors it has.
#[derive(Clone, Copy)]
pub struct Stream {
    pub stream_type: u8,
    pub pid: Pid,
    pub descriptors: usize,
}

// A descriptor's tag, and where in the section its bytes start and how many there are.
#[derive(Clone, Copy)]
pub struct Place {
    pub tag: u8,
    pub start: usize,
    pub size: usize,
}

// What a PMT says before its entries, and how many descriptors of its own and entries there are.
#[derive(Clone, Copy)]
pub struct PmtHeader {
    pub head: Head,
    pub pcr_pid: Pid,
    pub descriptors: usize,
    pub entries: usize,
}

// All of a PMT but its lists: the program's own descriptors are the `size` bytes from the place `start` on.
#[derive(Clone, Copy)]
pub struct PmtListed {
    pub head: Head,
    pub pcr_pid: Pid,
    pub start: usize,
    pub size: usize,
    pub entries: usize,
}

// The PID at the end of two bytes.
fn pid_of(high: u8, low: u8) -> Pid
    ensures { result.0 ≡ word_of high low % 8192 }
{
    Pid(number_of_two(high, low) % 8192)
}

// A section that was judged and is a PMT.
#[derive(Clone, Copy)]
struct Pmt<'a> {
    section: &'a [u8],
    ghost long: { 16 ≤ length section.now },
}

impl Pmt<'_> {
    fn head(self) -> Head
        ensures { told_head result ≡ heading_of self.entry.section.now }
    {
        let s = self.section;
        head_of([s[3], s[4], s[5], s[6], s[7]])
    }

    // The header, with so many descriptors of the program's own and so many entries.
    fn header(self, descriptors: usize, entries: usize) -> PmtHeader
        ensures { heading_by result ≡ pmt_heading_at self.entry.section.now descriptors entries }
    {
        PmtHeader {
            head: self.head(),
            pcr_pid: pid_of(self.section[8], self.section[9]),
            descriptors,
            entries,
        }
    }

    // The answer of a whole reading, with so many entries.
    fn listing(self, entries: usize) -> PmtListed
        ensures { listing_by result ≡ pmt_listing_at self.entry.section.now entries }
    {
        PmtListed {
            head: self.head(),
            pcr_pid: pid_of(self.section[8], self.section[9]),
            start: 12,
            size: usize::from(number_of_two(self.section[10], self.section[11]) % 4096),
            entries,
        }
    }
}

// The header of a section asked for as a PMT.
pub fn pmt_header(section: &[u8]) -> Result<PmtHeader, Refusal>
    ensures { ReadsPmtHeader section.now result }
{
    let walked = loops::walk(section, 0, 0)?;
    Ok(Pmt { section }.header(walked.descriptors, walked.entries))
}

// The entry that stands at a place and has so many descriptors.
fn entry_at(section: &[u8], place: usize, descriptors: usize) -> Stream
    requires { place + 5 ≤ length section.now }
    ensures { stream_by result ≡ stream_at section.now place descriptors }
{
    Stream {
        stream_type: section[place],
        pid: pid_of(section[place + 1], section[place + 2]),
        descriptors,
    }
}

// The entry with an index of a PMT that was walked whole.
fn found_entry(section: &[u8], i: usize, walked: Walked) -> Result<Stream, Refusal>
    requires { walk_of section.now (i + 1) 0 ≡ given (found_by walked) }
    ensures { told_pmt_entry result ≡ pmt_entry_of section.now i }
{
    if walked.entries <= i {
        return Err(Refusal::NoSuchEntry);
    }
    Ok(entry_at(section, walked.place, walked.descriptors))
}

// The entry with an index of a section asked for as a PMT.
pub fn pmt_entry(section: &[u8], index: u16) -> Result<Stream, Refusal>
    ensures { ReadsPmtEntry section.now index result }
{
    let i = usize::from(index);
    found_entry(section, i, loops::walk(section, i + 1, 0)?)
}

// The descriptor that stands at a place, which the walk found.
fn descriptor_at(section: &[u8], place: usize) -> Place
    requires { place + 2 ≤ length section.now }
    ensures { place_by result ≡ descriptor_place_at section.now place }
{
    Place {
        tag: section[place],
        start: place + 2,
        size: usize::from(section[place + 1]),
    }
}

// The descriptor with an index of the descriptor loop with a number, of a PMT that was walked whole.
fn found_descriptor(
    section: &[u8],
    number: usize,
    i: usize,
    walked: Walked,
) -> Result<Place, Refusal>
    requires { walk_of section.now number (i + 1) ≡ given (found_by walked) }
    ensures { told_pmt_descriptor result ≡ descriptor_in section.now number i }
{
    if walked.entries < number {
        return Err(Refusal::NoSuchEntry);
    }
    if walked.descriptors <= i {
        return Err(Refusal::NoSuchEntry);
    }
    Ok(descriptor_at(section, walked.place))
}

// The descriptor with an index of the descriptor loop with a number.
fn descriptor_in(section: &[u8], number: usize, index: u16) -> Result<Place, Refusal>
    ensures { told_pmt_descriptor result ≡ descriptor_in section.now number index }
{
    let i = usize::from(index);
    found_descriptor(section, number, i, loops::walk(section, number, i + 1)?)
}

// The program's descriptor with an index.
pub fn program_descriptor(section: &[u8], index: u16) -> Result<Place, Refusal>
    ensures { FindsProgramDescriptor section.now index result }
{
    descriptor_in(section, 0, index)
}

// The descriptor with an index of the entry with an index.
pub fn entry_descriptor(section: &[u8], entry: u16, index: u16) -> Result<Place, Refusal>
    ensures { FindsEntryDescriptor section.now entry index result }
{
    descriptor_in(section, usize::from(entry) + 1, index)
}

// The part of the section from a place on, of a size.
fn piece(section: &[u8], start: usize, size: usize) -> &[u8]
    requires { start + size ≤ length section.now }
    ensures { lent result ≡ part (lent section.entry) start size }
{
    let end = start + size;
    &section[start..end]
}

// The part of the section that holds a descriptor's bytes; for a refusal the empty part at its end.
fn bytes_of(section: &[u8], d: Result<Place, Refusal>) -> &[u8]
    requires { descriptor_start section.now (told_pmt_descriptor d) + descriptor_size (told_pmt_descriptor d) ≤ length section.now }
    ensures { lent result ≡ part_of (lent section.entry) (told_pmt_descriptor d) }
{
    match d {
        Ok(p) => piece(section, p.start, p.size),
        Err(_) => piece(section, section.len(), 0),
    }
}

// The part of the section that holds the bytes of the program's descriptor with an index; for a refusal the empty part at its end.
// It is no `Result`: a call that can't fail still can't (`GivesProgramDescriptorBytes`).
pub fn program_descriptor_bytes(section: &[u8], index: u16) -> &[u8]
    ensures { GivesProgramDescriptorBytes (lent section.entry) index (lent result) }
{
    bytes_of(section, program_descriptor(section, index))
}

// The part of the section that holds the bytes of the descriptor with an index of the entry with an index; for a refusal the empty part at its end.
// It is no `Result`, as the call before it (`GivesEntryDescriptorBytes`).
pub fn entry_descriptor_bytes(section: &[u8], entry: u16, index: u16) -> &[u8]
    ensures { GivesEntryDescriptorBytes (lent section.entry) entry index (lent result) }
{
    bytes_of(section, entry_descriptor(section, entry, index))
}

// The descriptor that stands at a place of a lent part, as of a descriptor loop; the next one stands where its bytes end.
pub fn next_descriptor(part: &[u8], at: usize) -> Result<Place, Refusal>
    ensures { FindsNextDescriptor part.now at result }
{
    if part.len() <= at {
        return Err(Refusal::NoSuchEntry);
    }
    let left = part.len() - at;
    if left < 2 || left - 2 < usize::from(part[at + 1]) {
        return Err(Refusal::InnerLength);
    }
    Ok(descriptor_at(part, at))
}

// Writes the entries of a PMT that was surveyed to the start of the lists.
fn list_streams(
    section: &[u8],
    survey: &Surveyed,
    types: &mut [u8],
    pids: &mut [u16],
    starts: &mut [u16],
    sizes: &mut [u16],
)
    requires found { Surveys section.now (Ok survey.now) }
    requires few { survey.now.walked.entries ≤ 201 }
    requires short { length section.now ≤ 1024 }
    requires room { (201 ≤ length types.old)
        × (201 ≤ length pids.old)
        × (201 ≤ length starts.old)
        × (201 ≤ length sizes.old) }
    ensures { lists types.new pids.new starts.new sizes.new
        ≡ written_to (lists types.old pids.old starts.old sizes.old) section.now }
{
    let n = survey.walked.entries;
    for i in 0..n {
        let place = usize::from(survey.places[i + 1]);
        types[i] = section[place];
        pids[i] = number_of_two(section[place + 1], section[place + 2]) % 8192;
        starts[i] = (place + 5) as u16;
        sizes[i] = number_of_two(section[place + 3], section[place + 4]) % 4096;
    }
}

// The header of a section asked for as a PMT, and all its entries, written to the start of four lists of at least 201 places.
// Of entry i there are its stream_type, its PID, and where in the section its descriptors start and how many bytes they have.
// The lists stay apart: the program `exercise` lends each a size of its own and prints each one's digest, and what it prints may not change.
pub fn pmt_entries(
    section: &[u8],
    types: &mut [u8],
    pids: &mut [u16],
    starts: &mut [u16],
    sizes: &mut [u16],
) -> Result<PmtListed, Refusal>
    ensures { ListsPmtEntries section.now
        (lists types.old pids.old starts.old sizes.old)
        (result, lists types.new pids.new starts.new sizes.new) }
{
    let least = types
        .len()
        .min(pids.len())
        .min(starts.len())
        .min(sizes.len());
    if least < MOST_STREAMS {
        return Err(Refusal::BufferSize);
    }
    let survey = loops::survey(section)?;
    list_streams(section, &survey, types, pids, starts, sizes);
    Ok(Pmt { section }.listing(survey.walked.entries))
}
