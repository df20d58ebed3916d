// Whether a state is sound, each clause of "Sound means": one pass over the filter places, which counts those on each area, one over their choices, and one over the areas, which holds their users to what was counted.
#![tactic(auto)]

ghost use Rattle.std.specs.Prelude.{◌≡◌, true, ◌&&◌, map, ℕ, ◌≤◌, ◌<◌, get_or, replicate};
ghost use Rattle.ground.specs.Walk.{all, apart};
ghost use Rattle.state.specs.State.{is_open, free_area, free_filter};
ghost use Rattle.state.specs.Choice.{placed};
ghost use Rattle.sound.specs.Sound.{sound_area, same_pid, same_number, sound_next, sound_place};
ghost use Rattle.sound.specs.Promises.{TellsSoundState};
ghost use Rattle.sound.specs.Steps.{known, highest_choice, is_new, fits_place, counted_in, met_in, is_met, Counts, is_free_area, agree};

use state::{AREAS, Area, Filter, LAST_CHOICE, LAST_FILTER_PID, PLACES, State};

// What no PID is: it stands where an area is free. Eight numbers of 16 bits are compared at once, and eight of `Option<u16>` are not.
const NO_PID: u16 = 0xFFFF;

// Whether the next number to give is one.
fn next_is_sound(next: u32) -> bool
    ensures { result ≡ sound_next next }
{
    (1 <= next) & (next <= 65536)
}

// Whether a free area's record is all zero, and a used one's PID and marks are in range.
fn area_is_sound(area: &Area) -> bool
    ensures { result ≡ sound_area area.now }
{
    if area.users != 0 {
        (area.pid.0 <= LAST_FILTER_PID) & gather::sound(area.marks)
    } else {
        *area == Area::FREE
    }
}

// Whether a number is none of these: all are looked at, so that the compiler can compare many at once.
fn is_new(own: u16, others: &[u16]) -> bool
    ensures { result ≡ is_new own others.now }
{
    let mut met = false;
    for other in others {
        met |= *other == own;
    }
    !met
}

// Whether a place is in range by itself.
fn fits_place(filter: Filter, next: u32) -> bool
    ensures { result ≡ fits_place next filter }
{
    if filter.number != 0 {
        (u32::from(filter.number) < next) & (filter.area < 8)
    } else {
        filter.area == 0
    }
}

// An open filter counted at its area and met in its class; whether its class was met before. That it was met is a number, as the definition has it (`met_in`).
fn tally(filter: Filter, counts: &mut [u8; 8], met: &mut [u8; 256]) -> bool
    requires { (is_open filter ≡ true → filter.area < 8) × ((k : ℕ) → k < 8 → get_or counts.old k 0 < 255) }
    ensures { (result ≡ is_met met.old filter)
        × (counts.new ≡ counted_in counts.old filter)
        × (met.new ≡ met_in met.old filter) }
{
    if filter.number == 0 {
        return false;
    }
    counts[usize::from(filter.area)] += 1;
    let class = usize::from(filter.number % 256);
    let before = met[class];
    met[class] = 1;
    before != 0
}

// How many places there are up to the last that is not all zero: those behind it need no pass.
// By index and with `|`, so that a record is tested at once: with `rposition` and `!= Filter::FREE` here and `!= Area::FREE` for the areas, a test of soundness with one filter took 495 instructions, and with this 291.
fn end_of_places(filters: [Filter; PLACES]) -> usize
    ensures { (result ≤ 32) × ((k : ℕ) → k < 32 → result ≤ k → get_or filters k free_filter ≡ free_filter) }
{
    for i in (0..PLACES).rev() {
        let filter = filters[i];
        if (filter.number != 0) | (filter.area != 0) {
            return i + 1;
        }
    }
    0
}

// The highest choice of a filter with this number: all alone where there is none.
fn highest_choice(number: u16) -> u16
    ensures { result ≡ highest_choice number }
{
    if number == 0 { 0 } else { LAST_CHOICE }
}

// Whether the choices of filters with these numbers are sound: all are looked at, so that the compiler can test many at once.
fn choices_fit(numbers: [u16; PLACES], choices: [u16; PLACES]) -> bool
    ensures { result ≡ all sound_place (placed (map known numbers) choices) }
{
    let mut fits = true;
    for (number, choice) in numbers.iter().zip(&choices) {
        fits &= *choice <= highest_choice(*number);
    }
    fits
}

// Whether the places are in range, no number is open twice and the choices are sound, and how many filters stand on each area: one pass, in which only a filter whose class was met before is compared with those before it.
fn places_are_sound(
    filters: [Filter; PLACES],
    choices: [u16; PLACES],
    next: u32,
    counts: &mut [u8; AREAS],
) -> bool
    requires { counts.old ≡ replicate 8 0 }
    ensures { (result ≡ (all (fits_place next) filters && apart same_number filters && all sound_place (placed filters choices))) × (result ≡ true → Counts filters counts.new) }
{
    let end = end_of_places(filters);
    let mut met = [0u8; 256];
    let mut numbers = [0u16; PLACES];
    for i in 0..end {
        let filter = filters[i];
        if !fits_place(filter, next) {
            return false;
        }
        if tally(filter, counts, &mut met) && !is_new(filter.number, &numbers) {
            return false;
        }
        numbers[i] = filter.number;
    }
    choices_fit(numbers, choices)
}

// How many areas there are up to the last that is not all zero, or on which a filter was counted: those behind it need no pass. With `|` between the numbers all eight bytes of a record are tested at once, and so is the count; `!= Area::FREE` tests one after the other.
fn end_of_areas(areas: [Area; AREAS], counts: [u8; AREAS]) -> usize
    ensures { (result ≤ 8) × ((k : ℕ) → k < 8 → result ≤ k → (is_free_area (get_or areas k free_area) ≡ true) × (get_or counts k 0 ≡ 0)) }
{
    for i in (0..AREAS).rev() {
        let area = areas[i];
        let marks = area.marks;
        if (counts[i] != 0)
            | (area.users != 0)
            | (area.pid.0 != 0)
            | (marks.held_low != 0)
            | (marks.held_high != 0)
            | (marks.seen != 0)
            | (marks.counter != 0)
            | (marks.repeated != 0)
        {
            return i + 1;
        }
    }
    0
}

// Whether every area's record is sound by itself, has as many users as counted, and no PID has two areas: one pass, in which a used area's PID is compared with those before it. A record is lent, which costs less than a copy of it.
fn areas_are_sound(areas: [Area; AREAS], counts: [u8; AREAS]) -> bool
    ensures { result ≡ (all sound_area areas && apart same_pid areas && agree counts areas) }
{
    let end = end_of_areas(areas, counts);
    let mut pids = [NO_PID; AREAS];
    for i in 0..end {
        let area = &areas[i];
        if (area.users != counts[i]) | !area_is_sound(area) {
            return false;
        }
        if area.users != 0 {
            if !is_new(area.pid.0, &pids) {
                return false;
            }
            pids[i] = area.pid.0;
        }
    }
    true
}

// Whether the state is sound.
pub fn is_sound(state: State) -> bool
    ensures { TellsSoundState state result }
{
    if !next_is_sound(state.next) {
        return false;
    }
    let mut counts = [0u8; AREAS];
    if !places_are_sound(state.filters, state.choices, state.next, &mut counts) {
        return false;
    }
    areas_are_sound(state.areas, counts)
}
