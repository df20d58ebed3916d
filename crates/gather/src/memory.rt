// What was measured, copied: finished sections to the output, held bytes to their area.
ghost use Rattle.std.specs.Prelude.{◌≡◌, ◌++◌, ◌≤◌, ◌<◌, ◌+◌, length, take};
ghost use Rattle.ground.specs.Write.{put};
ghost use Rattle.gather.specs.Rule.{unfinished_of, add, walk, together, ended, started, yield, back, begun_in, begun_by};
ghost use Rattle.gather.specs.Memory.{stretch};
ghost use Rattle.gather.specs.Steps.{carried, carried_as, Room};

use crate::measure::{Sizes, added, walk};

// Bytes copied to `dst` from `at` on. Most copies are of no bytes: leaving those out saves more calls than it costs tests.
fn write(dst: &mut [u8], at: usize, src: &[u8])
    requires { at + length src.now ≤ length dst.old }
    ensures { dst.new ≡ put dst.old at src.now }
{
    if !src.is_empty() {
        dst[at..at + src.len()].copy_from_slice(src);
    }
}

// The first `bytes` of the held bytes and the new ones after them, copied to the start of the output.
fn finish(bytes: usize, held: &[u8], new: &[u8], out: &mut [u8])
    requires { (bytes ≤ length held.now + length new.now) × (bytes ≤ length out.old) }
    ensures { out.new ≡ put out.old 0 (take bytes (held.now ++ new.now)) }
{
    let first = bytes.min(held.len());
    write(out, 0, &held[..first]);
    write(out, first, &new[..bytes - first]);
}

// Unit start 0: bytes are added to the held ones.
// Area and output stay two loans beside what is read: a struct of them would be built for one call and taken apart in it.
fn continued(held: usize, payload: &[u8], area: &mut [u8], out: &mut [u8]) -> Sizes
    requires { Room held payload.now area.old 0 out.old }
    ensures { carried_as result area.new out.new
        ≡ carried 0 (add (stretch held area.old 0) payload.now) area.old 0 out.old }
{
    let before = &area[..held];
    let sizes = added(before, payload);
    finish(sizes.bytes, before, payload, out);
    write(area, held, &payload[..sizes.held.saturating_sub(held)]);
    sizes
}

// One unfinished section where bytes are held.
pub(crate) fn unfinished(held: usize) -> u8
    ensures { result ≡ unfinished_of held }
{
    u8::from(held != 0)
}

// Bytes that go to the held section, and then bytes in which sections begin.
fn parted(held: usize, front: &[u8], back: &[u8], area: &mut [u8], out: &mut [u8]) -> Sizes
    requires room { Room held front.now area.old 0 out.old }
    requires after_pointer { length front.now + length back.now < 184 }
    ensures { carried_as result area.new out.new
        ≡ carried (begun_in back.now) (together (ended (add (stretch held area.old 0) front.now)) (walk back.now)) area.old 0 out.old }
{
    let before = &area[..held];
    let first = added(before, front);
    let rest = walk(back);
    finish(first.bytes, before, front, out);
    write(out, first.bytes, &back[..rest.bytes]);
    write(area, 0, &back[rest.bytes..rest.bytes + rest.held]);
    Sizes {
        sections: first.sections + rest.sections,
        bytes: first.bytes + rest.bytes,
        given_up: first.given_up + unfinished(first.held) + rest.given_up,
        ..rest
    }
}

// Unit start 1: the bytes that the pointer counts go to the held section, and sections follow them.
fn started(held: usize, payload: &[u8], area: &mut [u8], out: &mut [u8]) -> Sizes
    requires room { Room held payload.now area.old 0 out.old }
    requires payload_nonzero { 0 < length payload.now }
    ensures { carried_as result area.new out.new
        ≡ carried (begun_in (back payload.now)) (started (stretch held area.old 0) payload.now) area.old 0 out.old }
{
    let from = payload.len().min(1 + usize::from(payload[0]));
    parted(held, &payload[1..from], &payload[from..], area, out)
}

// What a payload gives after the held bytes.
pub(crate) fn gathered(
    start: bool,
    held: usize,
    payload: &[u8],
    area: &mut [u8],
    out: &mut [u8],
) -> Sizes
    requires room { Room held payload.now area.old 0 out.old }
    requires payload_nonzero { 0 < length payload.now }
    ensures { carried_as result area.new out.new
        ≡ carried (begun_by start payload.now) (yield (stretch held area.old 0) start payload.now) area.old 0 out.old }
{
    if start {
        started(held, payload, area, out)
    } else {
        continued(held, payload, area, out)
    }
}
