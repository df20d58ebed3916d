// The lines about a driver: its state, its buffers and its list, open, close and the packet call.
use crate::buffer_calls::{Row, new_row};
use crate::buffers::{changed, first_of, put, put_set};
use crate::line::Form;
use crate::outcome::{Tell, digest, word};
use crate::records::{area_of, print_state, put_area, put_place};
use crate::{buffer_calls, lone_calls};
use driver::{Choice, Opening, Report, State};
use pid::Pid;
use text::Text;

// What is kept from line to line: the state, what is lent to packet calls, and the row of records.
#[derive(Drop)]
pub(crate) struct Kept {
    state: State,
    store: [u8; 40960],
    out: [u8; 8192],
    list: [u32; 128],
    row: Row,
}

impl Kept {
    // What there is at the start.
    pub(crate) fn new() -> Kept {
        Kept {
            state: driver::fresh(),
            store: [0; 40960],
            out: [0; 8192],
            list: [0; 128],
            row: new_row(),
        }
    }

    // The outcome of a line; none of one that is not known, or of which a number is out of its range.
    pub(crate) fn answer(&mut self, form: Form<'_>, text: &mut Text<'_>) -> Option<()> {
        match (form.word, form.numbers, form.bytes) {
            (b"packet", &[store, out, list], Some(bytes)) => {
                self.packet(store, out, list, bytes, text)?;
            }
            (b"store", &[place], Some(bytes)) => {
                put(&mut self.store, place, bytes)?;
                text.word(b"store");
            }
            (b"output", &[place], Some(bytes)) => {
                put(&mut self.out, place, bytes)?;
                text.word(b"output");
            }
            (b"list", &[place, set], None) => {
                put_set(&mut self.list, place, set)?;
                text.word(b"list");
            }
            (b"digest", &[], None) => {
                text.word(b"digest");
                digest(&self.store).tell(text);
                digest(&self.out).tell(text);
            }
            _ => self.answer_on_state(form, text)?,
        }
        Some(())
    }

    // The lines that need the state alone, and then those that need none of what is kept or the row alone.
    fn answer_on_state(&mut self, form: Form<'_>, text: &mut Text<'_>) -> Option<()> {
        match (form.word, form.numbers, form.bytes) {
            (b"open", &[pid, table], None) => open(&mut self.state, pid, table, text)?,
            (b"close", &[number], None) => close(&mut self.state, number, text)?,
            (b"fresh", &[], None) => {
                self.state = driver::fresh();
                text.word(b"fresh");
                print_state(text, &self.state);
            }
            (b"area", &[i, pid, users, held, seen, counter, repeated], None) => {
                let area = area_of([pid, users, held, seen, counter, repeated])?;
                put_area(&mut self.state, i, area)?;
                text.word(b"area");
            }
            (b"place", &[i, number, area, table], None) => {
                put_place(&mut self.state, i, number, area, table)?;
                text.word(b"place");
            }
            (b"next", &[next], None) => {
                self.state.next = u32::try_from(next).ok()?;
                text.word(b"next");
            }
            (b"clear" | b"arrive" | b"judge", ..) => {
                buffer_calls::answer(form, &mut self.row, text)?;
            }
            _ => lone_calls::answer(form, text)?,
        }
        Some(())
    }

    // The packet call's line: what it answered, what it changed in the buffers and in the list, and the state.
    fn packet(
        &mut self,
        lent: u64,
        lent_out: u64,
        places: u64,
        bytes: &[u8],
        text: &mut Text<'_>,
    ) -> Option<()> {
        if (40960 < lent) | (8192 < lent_out) | (128 < places) {
            return None;
        }
        // as they were before the call, to tell what it changed
        let (store, out, list) = (self.store, self.out, self.list);
        let handled = driver::packet(
            self.state,
            bytes,
            first_of(&mut self.store, lent),
            first_of(&mut self.out, lent_out),
            first_of(&mut self.list, places),
        );
        self.state = handled.state;
        text.word(b"packet");
        match handled.answer {
            Ok(None) => word(text, b"unwanted"),
            Ok(Some(report)) => report.tell(text),
            Err(why) => why.tell(text),
        }
        let stored = changed(text, b"store", &self.store, &store);
        stored.map(digest).tell(text);
        let put_out = changed(text, b"output", &self.out, &out);
        put_out.map(digest).tell(text);
        changed(text, b"sets", &self.list, &list).tell(text);
        print_state(text, &self.state);
        Some(())
    }
}

// A filter opened.
fn open(state: &mut State, pid: u64, table: u64, text: &mut Text<'_>) -> Option<()> {
    let opened = driver::open(*state, Pid(u16::try_from(pid).ok()?), choice(table)?);
    *state = opened.state;
    text.word(b"open");
    opened.answer.tell(text);
    print_state(text, state);
    Some(())
}

// The choice of an open: a table_id where the number is a byte, and all where it is 256.
// A script's number, which no other code reads, so there is no `From`.
fn choice(table: u64) -> Option<Choice> {
    match table {
        0..=255 => Some(Choice::One(table as u8)),
        256 => Some(Choice::All),
        _ => None,
    }
}

impl Tell for Opening {
    fn tell(self, text: &mut Text<'_>) {
        word(text, b"given");
        self.number.tell(text);
        self.place.tell(text);
    }
}

// A filter closed.
fn close(state: &mut State, number: u64, text: &mut Text<'_>) -> Option<()> {
    let closed = driver::close(*state, u16::try_from(number).ok()?);
    *state = closed.state;
    text.word(b"close");
    match closed.answer {
        Ok(()) => word(text, b"closed"),
        Err(why) => why.tell(text),
    }
    print_state(text, state);
    Some(())
}

// What a wanted packet brought.
impl Tell for Report {
    fn tell(self, text: &mut Text<'_>) {
        word(text, b"wanted");
        self.sections.tell(text);
        self.bytes.tell(text);
        self.jump.tell(text);
        self.repeat.tell(text);
        self.given_up.tell(text);
        self.begun.tell(text);
    }
}
