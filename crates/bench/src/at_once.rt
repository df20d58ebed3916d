// A PAT and a PMT, each read by one call; the PMT's descriptor loops are walked from place to place.
use crate::made::all;
use crate::whole::{PAT_BYTES, PMT_BYTES, Room, noted, of_pat};
use tables::{MOST_PROGRAMS, MOST_STREAMS};

// A number for each entry of a PAT, and for each of a PMT.
type Programs = [u16; MOST_PROGRAMS];

type Numbers = [u16; MOST_STREAMS];

type Types = [u8; MOST_STREAMS];

// A sum with two further numbers.
fn added(sum: u64, first: u64, second: u64) -> u64 {
    sum.wrapping_add(first).wrapping_add(second)
}

// Where a part ends.
fn end_of(start: u16, size: u16) -> usize {
    usize::from(start) + usize::from(size)
}

// What the programs and PIDs of all entries add to the sum.
fn of_programs(programs: Programs, pids: Programs, sum: u64) -> u64 {
    let mut now = sum;
    for (program, pid) in programs.iter().zip(&pids) {
        now = added(now, u64::from(*program), u64::from(*pid));
    }
    now
}

// A PAT's header and all its entries.
pub(crate) fn read_pat(room: &mut Room, sum: u64) -> u64 {
    let mut programs: Programs = all(0);
    let mut pids: Programs = all(0);
    let header = tables::pat_entries(text::first(room, PAT_BYTES), &mut programs, &mut pids);
    let now = of_programs(programs, pids, sum);
    noted(room, now, of_pat(header))
}

// What the descriptors of a loop add to the sum, which goes from a place to the end of the bytes.
fn of_loop(bytes: &[u8], from: usize, sum: u64) -> u64 {
    let mut now = sum;
    let mut at = from;
    // the next descriptor stands where this one's bytes end
    while let Ok(place) = tables::next_descriptor(bytes, at) {
        now = now.wrapping_add(u64::from(place.tag));
        at = place.start + place.size;
    }
    now
}

// The lists of a PMT's entries. A list for each, as the call fills them.
#[derive(Drop)]
struct Lists {
    types: Types,
    pids: Numbers,
    starts: Numbers,
    sizes: Numbers,
}

// What the first entries of the lists add to the sum, with their descriptors.
fn of_streams(section: &[u8], n: usize, lists: &Lists, sum: u64) -> u64 {
    let mut now = sum;
    let streams = lists.types.iter().zip(&lists.pids);
    let loops = lists.starts.iter().zip(&lists.sizes);
    for ((stream_type, pid), (start, size)) in streams.zip(loops).take(n) {
        now = added(now, u64::from(*stream_type), u64::from(*pid));
        let part = text::first(section, end_of(*start, *size));
        now = of_loop(part, usize::from(*start), now);
    }
    now
}

// A PMT's header, its entries, and all descriptors.
fn of_pmt(section: &[u8], sum: u64) -> u64 {
    let mut lists = Lists {
        types: all(0),
        pids: all(0),
        starts: all(0),
        sizes: all(0),
    };
    let answer = tables::pmt_entries(
        section,
        &mut lists.types,
        &mut lists.pids,
        &mut lists.starts,
        &mut lists.sizes,
    );
    match answer {
        Err(_) => sum,
        Ok(pmt) => {
            let now = sum.wrapping_add(u64::from(pmt.pcr_pid.0));
            let part = text::first(section, pmt.start + pmt.size);
            of_streams(section, pmt.entries, &lists, of_loop(part, pmt.start, now))
        }
    }
}

// The same, with the sum noted behind the section.
pub(crate) fn read_pmt(room: &mut Room, sum: u64) -> u64 {
    let now = of_pmt(text::first(room, PMT_BYTES), sum);
    noted(room, now, 0)
}
