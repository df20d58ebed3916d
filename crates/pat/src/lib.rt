// The program association table: the header and the entries of a lent section, or its refusal.
#![tactic(auto)]

ghost use Rattle.std.specs.Prelude.{◌≡◌, ◌≤◌, length, IfOk};
ghost use Rattle.psi.specs.Refusals.{verdict_of};
ghost use Rattle.psi.specs.Answers.{told_judged};
ghost use Rattle.ground.specs.Told.{told};
ghost use Rattle.ground.specs.Write.{put};
ghost use Rattle.pat.specs.Answers.{heading_by, association_by, told_pat_entry};
ghost use Rattle.pat.specs.Pat.{pat_of, pat_own, pat_refusals, pat_heading_of, association_of};
ghost use Rattle.pat.specs.Listed.{programs_of, pids_of};
ghost use Rattle.pat.specs.Promises.{ReadsPatHeader, ReadsPatEntry, ListsPatEntries};
ghost use Rattle.pat.specs.Steps.{pat_entry_in};

use ground::Refusal;
use octets::number_of_two;
use pid::Pid;
use psi::{Head, head_of};

// A PAT has no more entries.
pub const MOST_PROGRAMS: usize = 253;

// An entry: a program and its PID.
#[derive(Clone, Copy)]
pub struct Program {
    pub number: u16,
    pub pid: Pid,
}

// What a PAT says before its entries, and how many there are.
#[derive(Clone, Copy)]
pub struct PatHeader {
    pub head: Head,
    pub entries: usize,
}

// A section that was judged and is a PAT.
#[derive(Clone, Copy)]
struct Pat<'a> {
    section: &'a [u8],
    ghost long: { 12 ≤ length section.now },
    ghost short: { length section.now ≤ 1024 },
}

// An entry by its four bytes.
fn program_of(four: [u8; 4]) -> Program
    ensures { association_by result ≡ association_of four }
{
    let [first, second, third, fourth] = four;
    Program {
        number: number_of_two(first, second),
        pid: Pid(number_of_two(third, fourth) % 8192),
    }
}

// Judges a section that has room for CRC_32 behind its header by what is a PAT's own.
fn judge_own(s: &[u8]) -> Result<(), Refusal>
    requires { 12 ≤ length s.now }
    ensures { told_judged result ≡ verdict_of (pat_own s.now) }
{
    if s[7] < s[6] {
        Err(Refusal::SectionNumber)
    } else if (s.len() - 12) % 4 != 0 {
        Err(Refusal::InnerLength)
    } else {
        Ok(())
    }
}

impl<'a> Pat<'a> {
    // The section, where it is a PAT.
    fn judged(section: &'a [u8]) -> Result<Self, Refusal>
        ensures verdict { told (λ p. tt) result ≡ verdict_of (pat_refusals section.now) }
        ensures same { IfOk result (λ p. p.section.now ≡ section.now) }
    {
        psi::judge(section, 0, 9)?;
        judge_own(section)?;
        Ok(Pat { section })
    }

    // The four bytes of each entry.
    fn fours(self) -> &'a [[u8; 4]]
        ensures items { result.now ≡ (pat_of self.entry.section.now).items }
        ensures few { length result.now ≤ 253 }
    {
        let body = &self.section[8..self.section.len() - 4];
        body.as_chunks().0
    }

    fn header(self) -> PatHeader
        ensures { heading_by result ≡ pat_heading_of self.entry.section.now }
    {
        let s = self.section;
        PatHeader {
            head: head_of([s[3], s[4], s[5], s[6], s[7]]),
            entries: self.fours().len(),
        }
    }

    // The entry with an index.
    fn entry(self, index: usize) -> Result<Program, Refusal>
        ensures { told_pat_entry result ≡ pat_entry_in self.entry.section.now index }
    {
        let four = self.fours().get(index).ok_or(Refusal::NoSuchEntry)?;
        Ok(program_of(*four))
    }

    // Writes the entries to the start of both lists.
    fn list(self, programs: &mut [u16], pids: &mut [u16])
        requires { (253 ≤ length programs.old) × (253 ≤ length pids.old) }
        ensures { (programs.new ≡ put programs.old 0 (programs_of self.entry.section.now))
            × (pids.new ≡ put pids.old 0 (pids_of self.entry.section.now)) }
    {
        for (i, four) in self.fours().iter().enumerate() {
            let program = program_of(*four);
            programs[i] = program.number;
            pids[i] = program.pid.0;
        }
    }
}

// The header of a section asked for as a PAT.
pub fn pat_header(section: &[u8]) -> Result<PatHeader, Refusal>
    ensures { ReadsPatHeader section.now result }
{
    Ok(Pat::judged(section)?.header())
}

// The entry with an index of a section asked for as a PAT.
pub fn pat_entry(section: &[u8], index: u16) -> Result<Program, Refusal>
    ensures { ReadsPatEntry section.now index result }
{
    Pat::judged(section)?.entry(usize::from(index))
}

// The header of a section asked for as a PAT, and all its entries, written to the start of two lists of at least 253 places.
// The lists stay apart: the program `exercise` lends each a size of its own and prints each one's digest, and what it prints may not change.
pub fn pat_entries(
    section: &[u8],
    programs: &mut [u16],
    pids: &mut [u16],
) -> Result<PatHeader, Refusal>
    ensures { ListsPatEntries section.now programs.old pids.old (result, programs.new, pids.new) }
{
    if programs.len().min(pids.len()) < MOST_PROGRAMS {
        return Err(Refusal::BufferSize);
    }
    let pat = Pat::judged(section)?;
    pat.list(programs, pids);
    Ok(pat.header())
}
