// The transport buffer of the decoder model (H.222.0 2.4.2): whether the packets of an audio PID overrun it.
#![tactic(auto)]

ghost use Rattle.std.specs.Prelude.{take};
ghost use Rattle.buffer.specs.Promises.{Judges};

use crate::model::{begin, step};
use ground::Refusal;
use pid::Pid;

pub mod laws;
mod model;

// A packet's tick of 27 MHz, and its PID.
#[derive(Clone, Copy)]
pub struct Record {
    pub tick: u64,
    pub pid: Pid,
}

// Whether the packets of a PID pass, or the first record that breaks a rule, by its index: passing is a finding, and no lack of one.
#[derive(Clone, Copy)]
pub enum Verdict {
    Passes,
    Overruns(usize),
    Lingers(usize),
}

// The verdict on the packets of a PID. All that is done here is to go from record to record: what one does to the buffer is `step`.
pub fn judge(records: &[Record], pid: Pid) -> Result<Verdict, Refusal>
    ensures { Judges pid.0 records.now result }
{
    let mut j = begin(pid.0);
    for (i, r) in records.iter().enumerate() {
        j = step(j, i, r.tick, r.pid.0);
    }
    j.verdict
}

// The same of the first n records of an array, or of all where n is more, for whoever has an array and no slice.
pub fn judge_first(records: [Record; 2048], n: usize, pid: Pid) -> Result<Verdict, Refusal>
    ensures { Judges pid.0 (take n records) result }
{
    judge(&records[..n.min(2048)], pid)
}
