// The lines about the transport buffer: the row of records, and the verdict on it.
use crate::filled::Filled;
use crate::line::Form;
use crate::outcome::{Tell, word};
use buffer::{Record, Verdict};
use pid::Pid;
use text::Text;

// The row of records.
pub(crate) type Row = Filled<Record, 2048>;

// An empty row.
pub(crate) fn new_row() -> Row {
    Filled::new(Record {
        tick: 0,
        pid: Pid(0),
    })
}

// The outcome of one of these lines; none of any other.
pub(crate) fn answer(form: Form<'_>, row: &mut Row, text: &mut Text<'_>) -> Option<()> {
    match (form.word, form.numbers, form.bytes) {
        (b"clear", &[], None) => {
            row.clear();
            text.word(b"clear");
        }
        (b"arrive", &[first, step, count, pid], None) => {
            arrive(row, first, step, count, Pid(u16::try_from(pid).ok()?))?;
            text.word(b"arrive");
            row.items().len().tell(text);
        }
        (b"judge", &[pid], None) => {
            let verdict = buffer::judge(row.items(), Pid(u16::try_from(pid).ok()?));
            text.word(b"judge");
            verdict.tell(text);
        }
        _ => return None,
    }
    Some(())
}

// So many records of a PID behind those of the row, where they have room there and the last of their ticks has 64 bits.
fn arrive(row: &mut Row, first: u64, step: u64, count: u64, pid: Pid) -> Option<()> {
    first.checked_add(step.checked_mul(count.saturating_sub(1))?)?;
    if 2048 < count.saturating_add(row.items().len() as u64) {
        return None;
    }
    for i in 0..count {
        let tick = first.wrapping_add(step.wrapping_mul(i));
        row.push(Record { tick, pid })?;
    }
    Some(())
}

impl Tell for Verdict {
    fn tell(self, text: &mut Text<'_>) {
        match self {
            Verdict::Passes => word(text, b"passes"),
            Verdict::Overruns(i) => {
                word(text, b"overruns");
                i.tell(text);
            }
            Verdict::Lingers(i) => {
                word(text, b"lingers");
                i.tell(text);
            }
        }
    }
}
