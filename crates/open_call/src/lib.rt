// Open: a filter with its choice takes the lowest free place, and its PID's area or the lowest free one.
#![tactic(auto)]

ghost use Rattle.std.specs.Prelude.{◌≡◌, ◌<◌, get_or};
ghost use Rattle.state.specs.State.{free_area};
ghost use Rattle.state.specs.Choice.{code_of};
ghost use Rattle.state.specs.Steps.{settled};
ghost use Rattle.open_call.specs.Open.{told_opened, open_of, with_user, with_filter};
ghost use Rattle.open_call.specs.Steps.{area_found};
ghost use Rattle.open_call.specs.Promises.{OpensFilter};

use ground::Refusal;
use pid::Pid;
use sound::is_sound;
use state::{
    AREAS, After, Area, Choice, Filter, LAST_CHOICE, LAST_FILTER_PID, LAST_NUMBER, State, area_of,
    free_area, free_place,
};

// What an open answers: the filter's number and its place.
#[derive(Clone, Copy)]
pub struct Opening {
    pub number: u16,
    pub place: u8,
}

pub type Opened = After<Result<Opening, Refusal>>;

// A filter on a PID with a choice: its number and place, or the first refusal that applies.
pub fn open(state: State, pid: Pid, choice: Choice) -> Opened
    ensures { OpensFilter state pid.0 choice result }
{
    match granted(state, pid, choice) {
        Ok(done) => After {
            state: done.state,
            answer: Ok(done.answer),
        },
        Err(why) => After {
            state,
            answer: Err(why),
        },
    }
}

// The state with the filter, or the first refusal that applies.
// `open` gives the state back with a refusal, as `close` does: one function for both would be public, with a claim over every type that a call may answer.
fn granted(state: State, pid: Pid, choice: Choice) -> Result<After<Opening>, Refusal>
    ensures { told_opened (settled state result) ≡ open_of state pid.0 choice }
{
    if !is_sound(state) {
        return Err(Refusal::UnsoundState);
    }
    if LAST_FILTER_PID < pid.0 {
        return Err(Refusal::PidRange);
    }
    let code = code_of(choice);
    if LAST_CHOICE < code {
        return Err(Refusal::NoTable);
    }
    if LAST_NUMBER < state.next {
        return Err(Refusal::NumbersUsedUp);
    }
    let place = free_place(state.filters).ok_or(Refusal::NoFreePlace)?;
    let area = area_for(state.areas, pid).ok_or(Refusal::NoFreeArea)?;
    Ok(After {
        state: with_filter(state, pid, code, area, place),
        answer: Opening {
            number: state.next as u16,
            place: place as u8,
        },
    })
}

// A choice as its number in the state. There is no `From`, since the number has a meaning there alone.
fn code_of(choice: Choice) -> u16
    ensures { result ≡ code_of choice }
{
    match choice {
        Choice::All => 0,
        Choice::One(table) => u16::from(table) + 1,
    }
}

// The PID's area, or the lowest free one.
fn area_for(areas: [Area; AREAS], pid: Pid) -> Option<usize>
    ensures { result ≡ area_found pid.0 areas }
{
    area_of(areas, pid).or(free_area(areas))
}

// The area with one user more.
fn with_user(area: Area, pid: Pid) -> Area
    requires { area.users < 255 }
    ensures { result ≡ with_user pid.0 area }
{
    Area {
        pid,
        users: area.users + 1,
        ..area
    }
}

// The state with a filter of this choice at this place on this area.
fn with_filter(state: State, pid: Pid, code: u16, area: usize, place: usize) -> State
    requires { (area < 8) × (place < 32) × (state.next < 65536) × ((get_or state.areas area free_area).users < 255) }
    ensures { result ≡ with_filter state pid.0 code area place }
{
    let mut areas = state.areas;
    let mut filters = state.filters;
    let mut choices = state.choices;
    let own = areas[area];
    areas[area] = with_user(own, pid);
    filters[place] = Filter {
        number: state.next as u16,
        area: area as u8,
    };
    choices[place] = code;
    // list by list: the compiler copies each without a call
    State {
        areas,
        filters,
        choices,
        next: state.next + 1,
    }
}
