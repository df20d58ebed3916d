// Close: a filter leaves its place, and the last one on an area frees it.
#![tactic(auto)]

ghost use Rattle.std.specs.Prelude.{◌≡◌, ◌<◌, get_or};
ghost use Rattle.state.specs.State.{free_area};
ghost use Rattle.close_call.specs.Close.{told_closed, close_of, area_at, without_user, without_filter};
ghost use Rattle.close_call.specs.Steps.{closed_by};
ghost use Rattle.close_call.specs.Promises.{ClosesFilter};

use ground::Refusal;
use sound::is_sound;
use state::{After, Area, Filter, State, place_of};

pub type Closed = After<Result<(), Refusal>>;

// The filter of a number closed, or the first refusal that applies. Why `open`, which ends alike, has no function in common with it is said there.
pub fn close(state: State, number: u16) -> Closed
    ensures { ClosesFilter state number result }
{
    match granted(state, number) {
        Ok(after) => After {
            state: after,
            answer: Ok(()),
        },
        Err(why) => After {
            state,
            answer: Err(why),
        },
    }
}

// The state without the filter, or the first refusal that applies.
fn granted(state: State, number: u16) -> Result<State, Refusal>
    ensures { told_closed (closed_by state result) ≡ close_of state number }
{
    if !is_sound(state) {
        return Err(Refusal::UnsoundState);
    }
    let place = place_of(state.filters, number).ok_or(Refusal::NotOpen)?;
    Ok(without_filter(state, place))
}

// The area with one user less; the last one frees it.
fn without_user(area: Area) -> Area
    requires { 0 < area.users }
    ensures { result ≡ without_user area }
{
    if area.users == 1 {
        Area::FREE
    } else {
        Area {
            users: area.users - 1,
            ..area
        }
    }
}

// The state without the filter at this place.
fn without_filter(state: State, place: usize) -> State
    requires { (place < 32) × (area_at state place < 8) × (0 < (get_or state.areas (area_at state place) free_area).users) }
    ensures { result ≡ without_filter state place }
{
    let mut areas = state.areas;
    let mut filters = state.filters;
    let mut choices = state.choices;
    let filter = filters[place];
    let area = usize::from(filter.area);
    let own = areas[area];
    areas[area] = without_user(own);
    filters[place] = Filter::FREE;
    choices[place] = 0;
    // list by list: the compiler copies each without a call
    State {
        areas,
        filters,
        choices,
        next: state.next,
    }
}
