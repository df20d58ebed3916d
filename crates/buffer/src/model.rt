// The buffer from record to record: a level in 108ths of a byte, which falls by one a tick.
ghost use Rattle.std.specs.Prelude.{◌≡◌, ◌-◌, ◌≤◌};
ghost use Rattle.buffer.specs.Model.{begin_of, step_of, arrived_at, busy_with, moved, is_settled};

use crate::Verdict;
use ground::Refusal;

// What a packet of 188 bytes brings, in 108ths of a byte.
const PACKET: u64 = 20_304;

// What 512 bytes hold.
const ROOM: u64 = 55_296;

// So many packets drain within 27,000,000 ticks: 1,329 take 26,984,016, and one more takes 27,004,320.
const MOST_BUSY: u64 = 1_329;

// What is known after some records: whose packets count; of the last one its tick, the level that it left, and how many came since the buffer was found empty; and the verdict so far.
#[derive(Clone, Copy)]
pub(crate) struct Judging {
    pub pid: u16,
    pub last: u64,
    pub level: u16,
    pub busy: u16,
    pub verdict: Result<Verdict, Refusal>,
}

// Before any record the buffer is empty.
pub(crate) fn begin(pid: u16) -> Judging
    ensures { result ≡ begin_of pid }
{
    Judging {
        pid,
        last: 0,
        level: 0,
        busy: 0,
        verdict: Ok(Verdict::Passes),
    }
}

// The verdict is settled, and only a tick below the one before may still change it.
fn moved(j: Judging, tick: u64, verdict: Result<Verdict, Refusal>) -> Judging
    ensures { result ≡ moved j tick verdict }
{
    Judging {
        last: tick,
        verdict,
        ..j
    }
}

// How many packets have come since the buffer was found empty, with one that finds this level left.
fn busy_with(left: u64, busy: u16) -> u64
    ensures { result ≡ busy_with left busy }
{
    if left == 0 { 1 } else { u64::from(busy) + 1 }
}

// A packet of the PID, none before it having broken a rule.
fn arrived(j: Judging, i: usize, tick: u64) -> Judging
    requires { j.last ≤ tick }
    ensures { result ≡ arrived_at j i tick }
{
    let left = u64::from(j.level).saturating_sub(tick - j.last);
    let level = left + PACKET;
    if ROOM < level {
        return moved(j, tick, Ok(Verdict::Overruns(i)));
    }
    let busy = busy_with(left, j.busy);
    if MOST_BUSY < busy {
        return moved(j, tick, Ok(Verdict::Lingers(i)));
    }
    Judging {
        last: tick,
        level: level as u16,
        busy: busy as u16,
        verdict: Ok(Verdict::Passes),
        ..j
    }
}

// Whether a record has broken a rule.
fn is_settled(verdict: Result<Verdict, Refusal>) -> bool
    ensures { result ≡ is_settled verdict }
{
    match verdict {
        Ok(Verdict::Passes) => false,
        Ok(Verdict::Overruns(_)) | Ok(Verdict::Lingers(_)) | Err(_) => true,
    }
}

// One record more.
pub(crate) fn step(j: Judging, i: usize, tick: u64, pid: u16) -> Judging
    ensures { result ≡ step_of j i tick pid }
{
    if pid != j.pid {
        return j;
    }
    if tick < j.last {
        return moved(j, tick, Err(Refusal::TickOrder));
    }
    if is_settled(j.verdict) {
        return moved(j, tick, j.verdict);
    }
    arrived(j, i, tick)
}
