// The loops of a program map table: the program's descriptors, and the entries, each followed by its own. One walk judges them and finds an item.
#![tactic(auto)]

mod walkers;

ghost use Rattle.std.specs.Prelude.{◌≡◌, ◌++◌, ◌≤◌, length};
ghost use Rattle.psi.specs.Answers.{told_judged};
ghost use Rattle.psi.specs.Refusals.{shared, verdict_of};
ghost use Rattle.loops.specs.Body.{pmt_own};
ghost use Rattle.loops.specs.Promises.{Walks, Surveys};
ghost use Rattle.loops.specs.Steps.{nothing, begun_for, told_run, run_of};
ghost use Rattle.loops.specs.Walk.{unnoted};

use crate::walkers::Search;
use ground::Refusal;
use octets::number_of_two;

// How many descriptor loops a PMT can have: the program's, and one of each of 201 entries.
const LOOPS: usize = 202;

// The place of each entry by the number of its loop: the program's loop has number 0, that of entry i has i + 1. How many count is told beside them: there is no heap.
pub type Places = [u16; LOOPS];

// What walking over a section found: how many entries there are; of the loop asked for, how many descriptors it has and the place of the item asked for.
#[derive(Clone, Copy)]
pub struct Walked {
    pub entries: usize,
    pub descriptors: usize,
    pub place: usize,
}

// What walking over a section found, and where each entry stands.
#[derive(Clone, Copy)]
pub struct Surveyed {
    pub walked: Walked,
    pub places: Places,
}

// Judges a section that has room for CRC_32 behind its header by what is a PMT's own, but for its loops.
fn judge_own(s: &[u8]) -> Result<(), Refusal>
    requires { 16 ≤ length s.now }
    ensures { told_judged result ≡ verdict_of (pmt_own s.now) }
{
    let w = number_of_two(s[10], s[11]);
    if s[6] != 0 || s[7] != 0 {
        Err(Refusal::SectionNumber)
    } else if w / 1024 % 4 != 0 || s.len() - 16 < usize::from(w % 4096) {
        Err(Refusal::InnerLength)
    } else {
        Ok(())
    }
}

// Judges a section asked for as a PMT by all but its loops.
fn judge(s: &[u8]) -> Result<(), Refusal>
    ensures { told_judged result ≡ verdict_of (shared 2 13 s.now ++ pmt_own s.now) }
{
    psi::judge(s, 2, 13)?;
    judge_own(s)
}

// No place noted.
fn unnoted() -> Places
    ensures { result ≡ unnoted }
{
    [0; LOOPS]
}

// A search that has found nothing yet.
fn begun(asked: usize, item: usize) -> Search
    ensures { result ≡ begun_for asked item }
{
    Search {
        asked,
        item,
        found: Surveyed {
            walked: Walked {
                entries: 0,
                descriptors: 0,
                place: 0,
            },
            places: unnoted(),
        },
    }
}

// Judges a section asked for as a PMT, and searches it.
fn run(section: &[u8], search: &mut Search) -> Result<(), Refusal>
    requires { search.old.found ≡ nothing }
    ensures { told_run result search.new.found ≡ run_of search.old.asked search.old.item section.now unnoted }
{
    judge(section)?;
    let n = usize::from(number_of_two(section[10], section[11]) % 4096);
    if search.descriptors(&section[..section.len() - 4], 12, 12 + n, 0) {
        Ok(())
    } else {
        Err(Refusal::InnerLength)
    }
}

// Judges a section asked for as a PMT, and finds an item of the loop `asked` for: item 0 is the entry, item i + 1 its descriptor i.
// The item is one number, as its definition has it (`place_of`): an Option would say it no plainer.
pub fn walk(section: &[u8], asked: usize, item: usize) -> Result<Walked, Refusal>
    ensures { Walks section.now asked item result }
{
    let mut search = begun(asked, item);
    run(section, &mut search)?;
    Ok(search.found.walked)
}

// Judges a section asked for as a PMT, and finds all its entries.
pub fn survey(section: &[u8]) -> Result<Surveyed, Refusal>
    ensures { Surveys section.now result }
{
    let mut search = begun(0, 0);
    run(section, &mut search)?;
    Ok(search.found)
}
