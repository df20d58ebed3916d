// Lists what the packets of standard input bring to a filter on PID 0.
#![tactic(auto)]

ghost use Rattle.std.specs.Prelude.{◌≤◌, ◌<◌, ◌≡◌, length};
ghost use Rattle.ground.specs.House.{packet_bytes};
ghost use Rattle.pieces.specs.Piece.{told_held, told_read};
ghost use Rattle.pieces.specs.Turns.{Fits, between_of, turn_in};
ghost use Rattle.listing.specs.Listing.{ReadsBehind, IsBegun, TakesTurn, ListsInput};

use pieces::{Brought, Piece, Work};
use std::io;
use std::io::{Read, Write};
use text::Text;

// Says on standard error what failed, and why.
// It stands in each program, and `write` in two of them: a library's public call has a promise with one outcome (tools/promised), and none says what a file or a terminal does.
fn fail(rt: HostRuntime, what: &str, error: io::Error) {
    let _ = eprintln!(rt; "{what}: {error}");
}

// Writes the text; whether that was done.
// It is no `Result`, here and below: what fails is said at once, and the contracts tell by a truth value whether the run goes on (`ListsInput`).
fn write(rt: HostRuntime, text: &Text<'_>) -> bool {
    match rt.stdout().write_all(text.written()) {
        Ok(()) => true,
        Err(error) => {
            fail(rt, "standard output", error);
            false
        }
    }
}

// Reads on behind the bytes that are there.
fn read_on(rt: HostRuntime, piece: &mut [u8], kept: usize) -> Brought
    requires { kept ≤ length piece.old }
    ensures { ReadsBehind kept piece.old result piece.new }
{
    match rt.stdin().read(&mut piece[kept..]) {
        Ok(0) => Brought::End,
        Ok(count) => Brought::Bytes(count),
        Err(error) => {
            fail(rt, "standard input", error);
            Brought::Failure
        }
    }
}

// A read, what it brings listed, and the lines written; whether to read on.
fn read_and_list(
    rt: HostRuntime,
    piece: &mut Piece<'_>,
    work: &mut Work<'_>,
    text: &mut Text<'_>,
) -> bool
    requires fits { Fits piece.old.bytes.now text.old.bytes.now }
    requires rest_short { piece.old.kept < packet_bytes }
    ensures still_fits { Fits piece.new.bytes.now text.new.bytes.now }
    ensures rest_stays_short { piece.new.kept < packet_bytes }
    ensures takes_turn { TakesTurn (between_of (told_held piece.old work.old))
        (turn_in (told_read piece.new work.new text.new result)) }
{
    let brought = read_on(rt, piece.bytes, piece.kept);
    let is_on = piece.list_read(brought, work, text);
    let is_written = write(rt, text);
    is_on & is_written
}

// The whole input listed, from a fresh state with a filter on PID 0; whether it goes on.
// A proved loop has to end, and nothing says that an input does, so it takes a number of turns that no run uses up.
fn list_all(
    rt: HostRuntime,
    piece: &mut Piece<'_>,
    work: &mut Work<'_>,
    text: &mut Text<'_>,
) -> bool
    requires fits { Fits piece.old.bytes.now text.old.bytes.now }
    requires begun { IsBegun (told_held piece.old work.old) }
    ensures { ListsInput (between_of (told_held piece.old work.old))
        (between_of (told_held piece.new work.new)) result }
{
    for _ in 0..u64::MAX {
        if !read_and_list(rt, piece, work, text) {
            return false;
        }
    }
    true
}

// Zeros; only how many is promised, so that no proof spells them out. It stands in each program: no library here is about arrays.
fn zeros<const N: usize>() -> [u8; N]
    ensures { N ≡ length result }
{
    [0; N]
}

fn main(rt: HostRuntime) {
    // a piece of 64 packets, and room for their lines
    let mut bytes = zeros::<12032>();
    let mut room = zeros::<376832>();
    let mut store = [0u8; driver::STORE_BYTES];
    let mut out = [0u8; gather::LEAST_OUTPUT];
    let mut sets = [0u32; driver::LEAST_LIST];
    let mut text = Text::new(&mut room);
    lines::header(&mut text);
    if write(rt, &text) {
        let begun = pieces::begin();
        let mut work = Work {
            progress: begun.progress,
            store: &mut store,
            out: &mut out,
            sets: &mut sets,
        };
        let mut piece = Piece {
            bytes: &mut bytes,
            kept: begun.kept,
        };
        list_all(rt, &mut piece, &mut work, &mut text);
    }
}
