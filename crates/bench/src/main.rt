// Calls the driver, CRC_32 and the tables on bytes that it makes itself, so that what a call costs can be counted: docs/COST.md has the scenarios.
#![tactic(auto)]

mod at_once;
mod filters;
mod made;
mod packets;
mod scenario;
mod stream;
mod whole;

use crate::made::all;
use crate::scenario::{Letters, Scenario, What};
use std::io;
use std::io::{Read, Write};
use text::Text;

// A word and a number in the text.
fn told(text: &mut Text<'_>, word: &[u8], n: u64) {
    text.word(word);
    text.decimal(n);
}

// The packets of a scenario handed in, and what they brought in all.
fn tell_packets(scenario: Scenario, text: &mut Text<'_>) {
    let sums = packets::handed_in(scenario);
    told(text, b"packets ", sums.packets);
    told(text, b" sections ", sums.sections);
    told(text, b" bytes ", sums.bytes);
    told(text, b" sets ", sums.sets);
    told(text, b" begun ", sums.begun);
    text.byte(b'\n');
}

// The rounds of a scenario without packets, and the sum of the answers.
fn tell_whole(scenario: Scenario, text: &mut Text<'_>) {
    told(text, b"rounds ", u64::from(scenario.rounds));
    told(text, b" sum ", whole::read(scenario.what, scenario.rounds));
    text.byte(b'\n');
}

// Says on standard error what failed, and why.
// It stands in each program: a library's public call has a promise with one outcome (tools/promised), and none says what a file or a terminal does.
fn fail(rt: HostRuntime, what: &str, error: io::Error) {
    let _ = eprintln!(rt; "{what}: {error}");
}

// Runs a scenario, and writes its line.
fn run(rt: HostRuntime, scenario: Scenario) {
    let mut room: [u8; 128] = all(0);
    let mut text = Text::new(&mut room);
    match scenario.what {
        What::Packets => tell_packets(scenario, &mut text),
        _ => tell_whole(scenario, &mut text),
    }
    match rt.stdout().write_all(text.written()) {
        Ok(()) => {}
        Err(error) => fail(rt, "standard output", error),
    }
}

fn main(rt: HostRuntime) {
    let mut letters: Letters = all(0);
    // five letters without a line end are a scenario too
    let _ = rt.stdin().read_exact(&mut letters);
    match scenario::of(letters) {
        Some(scenario) => run(rt, scenario),
        None => {
            let _ = rt.stderr().write_all(
                b"usage: bench, and five letters on standard input: one of p c a b m n, of 0 1 2, of 1 3, of n a w, and a digit\n",
            );
        }
    }
}
