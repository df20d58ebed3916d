// The filters of a scenario: one on one PID, or 32 on 8 PIDs.
use crate::scenario::Numbers;
use crate::stream::{FIRST_PID, TABLE};
use driver::{Choice, State};
use pid::Pid;

// A filter opened on a PID and closed again: its number is used up.
fn use_one(state: State, pid: Pid) -> State {
    let opened = driver::open(state, pid, Choice::All);
    match opened.answer {
        Ok(filter) => driver::close(opened.state, filter.number).state,
        Err(_) => opened.state,
    }
}

// How many numbers are used up before the next filter.
fn between(numbers: Numbers, i: u16) -> u16 {
    match numbers {
        Numbers::Next => 0,
        Numbers::Any => (i % 32 * 89 + 7) % 251,
        Numbers::Wide => 255,
    }
}

// What a filter lets through: the first on each PID all, the second the sections of the stream, the others none of them.
fn choice_of(i: u16) -> Choice {
    match i {
        0..=7 => Choice::All,
        8..=15 => Choice::One(TABLE),
        _ => Choice::One(0),
    }
}

// A filter more, on the next of 8 PIDs.
fn with_next(state: State, i: u16, numbers: Numbers) -> State {
    let mut state = driver::open(state, Pid(FIRST_PID + i % 8), choice_of(i)).state;
    if i < 31 {
        for _ in 0..between(numbers, i) {
            state = use_one(state, Pid(FIRST_PID));
        }
    }
    state
}

// A state with the filters open.
pub(crate) fn opened(is_many: bool, numbers: Numbers) -> State {
    let count = if is_many { 32 } else { 1 };
    (0..count).fold(driver::fresh(), |state, i| with_next(state, i, numbers))
}
