// The records of a state, printed and set.
use crate::outcome::{Tell, word};
use driver::{Area, Filter, State};
use gather::Marks;
use pid::Pid;
use text::Text;

// The state.
pub(crate) fn print_state(text: &mut Text<'_>, state: &State) {
    word(text, b"next");
    state.next.tell(text);
    for (i, area) in state.areas.iter().enumerate() {
        if *area != Area::FREE {
            print_area(text, i, *area);
        }
    }
    print_places(text, state);
}

// An area's record.
fn print_area(text: &mut Text<'_>, i: usize, area: Area) {
    word(text, b"area");
    i.tell(text);
    area.pid.tell(text);
    area.users.tell(text);
    gather::held_of(area.marks).tell(text);
    area.marks.seen.tell(text);
    area.marks.counter.tell(text);
    area.marks.repeated.tell(text);
}

// The places that are not all zero, in their order.
fn print_places(text: &mut Text<'_>, state: &State) {
    for (i, (filter, choice)) in state.filters.iter().zip(&state.choices).enumerate() {
        if (*filter != Filter::FREE) | (*choice != 0) {
            word(text, b"place");
            i.tell(text);
            filter.number.tell(text);
            filter.area.tell(text);
            table_of(*choice).tell(text);
        }
    }
}

// A record's choice as scripts write it: a table_id, 256 for all, or a number that is no choice.
// A script's number, which no other code reads, so there is no `From`.
fn table_of(choice: u16) -> u16 {
    match choice {
        0 => 256,
        1..=256 => choice - 1,
        _ => choice,
    }
}

// The number of a record's choice that a script writes so.
// A script's number, which no other code reads, so there is no `From`.
fn choice_of(table: u16) -> u16 {
    match table {
        256 => 0,
        0..=255 => table + 1,
        _ => table,
    }
}

// An area's record of a line's numbers, where each is in its range.
pub(crate) fn area_of(numbers: [u64; 6]) -> Option<Area> {
    let [pid, users, held, seen, counter, repeated] = numbers;
    let [held_high, held_low] = u16::try_from(held).ok()?.to_be_bytes();
    let marks = Marks {
        held_low,
        held_high,
        seen: u8::try_from(seen).ok()?,
        counter: u8::try_from(counter).ok()?,
        repeated: u8::try_from(repeated).ok()?,
    };
    Some(Area {
        pid: Pid(u16::try_from(pid).ok()?),
        users: u8::try_from(users).ok()?,
        marks,
    })
}

// An area's record set, where there is such an area.
pub(crate) fn put_area(state: &mut State, i: u64, area: Area) -> Option<()> {
    *state.areas.get_mut(usize::try_from(i).ok()?)? = area;
    Some(())
}

// A place's record set to a line's numbers, where there is such a place and each is in its range.
pub(crate) fn put_place(
    state: &mut State,
    i: u64,
    number: u64,
    area: u64,
    table: u64,
) -> Option<()> {
    let i = usize::try_from(i).ok()?;
    let filter = Filter {
        number: u16::try_from(number).ok()?,
        area: u8::try_from(area).ok()?,
    };
    let choice = choice_of(u16::try_from(table).ok()?);
    *state.filters.get_mut(i)? = filter;
    *state.choices.get_mut(i)? = choice;
    Some(())
}
