// From payload to sections: the rule on an area of the store and on the output.
#![tactic(auto)]

mod kind;
mod measure;
mod memory;

ghost use Rattle.std.specs.Prelude.{◌≡◌, true, cond, ◌≤◌};
ghost use Rattle.ground.specs.Answer.{given};
ghost use Rattle.gather.specs.Rule.{unfinished_of, is_same, skips, rule};
ghost use Rattle.gather.specs.Memory.{held_of, sound_marks, last_of, state_of, told_gathered, leaves, on_memory};
ghost use Rattle.gather.specs.Promises.{TellsSound, TellsHeld, TellsContradiction, TellsNoneLeft, Gathers};
ghost use Rattle.gather.specs.Steps.{ungathered_of, taken_of, Room};

use ground::Refusal;
use kind::{is_part, kind_at};
use measure::Sizes;
use memory::{gathered, unfinished};

// "Areas: 8, each 4,096 bytes".
pub const AREA_BYTES: usize = 4096;

// "Output buffer: at least 4,278 bytes".
pub const LEAST_OUTPUT: usize = 4278;

// A packet's payload has "184 bytes" at most.
pub const PAYLOAD_BYTES: usize = 184;

// What the rule reads of an area besides the held bytes: how many there are, whether a counter was seen (0 or 1), the last one, and whether its repeat was seen (0 or 1). How many bytes are held is told by two bytes, so that an area's record has eight and none between them that says nothing: the compiler copies it as one.
// That something was seen is a number, so that any bytes are marks.
#[derive(Clone, Copy, PartialEq, Eq)]
pub struct Marks {
    pub held_low: u8,
    pub held_high: u8,
    pub seen: u8,
    pub counter: u8,
    pub repeated: u8,
}

impl Marks {
    // Those of an area that was just taken, and of a free one.
    pub const NONE: Marks = Marks {
        held_low: 0,
        held_high: 0,
        seen: 0,
        counter: 0,
        repeated: 0,
    };
}

// What a packet did: the area's marks after it, the finished sections and their bytes, how many sections were begun, jump, repeat, and how many were given up.
#[derive(Clone, Copy)]
pub struct Gathered {
    pub marks: Marks,
    pub sections: usize,
    pub bytes: usize,
    pub begun: usize,
    pub jump: bool,
    pub repeat: bool,
    pub given_up: u8,
}

// Whether marks are those of a sound state.
pub fn sound(marks: Marks) -> bool
    ensures { TellsSound marks result }
{
    if marks.seen == 0 {
        return marks == Marks::NONE;
    }
    (marks.seen == 1) & (marks.held_high <= 15) & (marks.counter <= 15) & (marks.repeated <= 1)
}

// How many bytes are held.
pub fn held_of(marks: Marks) -> usize
    ensures { TellsHeld marks result }
{
    usize::from(marks.held_low) + 256 * usize::from(marks.held_high)
}

// Refusal 9: whether the held bytes are no part of a section; bytes past the store's end are none. Size and base are the caller's own numbers.
pub fn contradicts(held: usize, store: &[u8], base: usize) -> bool
    ensures { TellsContradiction held store.now base result }
{
    let from = base.min(store.len());
    let n = held.min(store.len() - from);
    let bytes = &store[from..from + n];
    (n != 0) & !is_part(kind_at(bytes, 0))
}

// Refusal 11: whether the pointer leaves no byte for a section.
pub fn leaves_none(start: bool, payload: &[u8]) -> bool
    ensures { TellsNoneLeft start payload.now result }
{
    match payload.first() {
        Some(pointer) => start & (payload.len() <= usize::from(*pointer) + 1),
        None => false,
    }
}

// Whether the counter is the area's last.
fn is_same(marks: Marks, counter: u8) -> bool
    ensures { result ≡ is_same (last_of marks) counter }
{
    (marks.seen != 0) & (counter == marks.counter)
}

// Whether the counter is neither the area's last nor the next.
fn skips(marks: Marks, counter: u8) -> bool
    requires { sound_marks marks ≡ true }
    ensures { result ≡ skips (last_of marks) counter }
{
    (marks.seen != 0) & ((counter != marks.counter) & (counter != (marks.counter + 1) % 16))
}

// After a jump nothing is held, and else what was.
fn kept(jump: bool, held: usize) -> usize
    ensures { (result ≡ cond jump 0 held) × (result ≤ held) }
{
    if jump { 0 } else { held }
}

// A jump gives up what was held.
fn lost(jump: bool, held: usize) -> u8
    ensures { result ≡ cond jump (unfinished_of held) 0 }
{
    if jump { unfinished(held) } else { 0 }
}

// A packet that is not gathered, without payload or a repeat: no more than the mark of the repeat may change.
fn ungathered(marks: Marks, repeated: u8, repeat: bool) -> Gathered
    ensures { result ≡ ungathered_of marks repeated repeat }
{
    Gathered {
        marks: Marks { repeated, ..marks },
        sections: 0,
        bytes: 0,
        begun: 0,
        jump: false,
        repeat,
        given_up: 0,
    }
}

// A packet that is taken, and the area's marks after it. It is made of the sizes and of three things more, so there is no `From`.
fn taken(marks: Marks, jump: bool, given_up: u8, sizes: Sizes) -> Gathered
    ensures { result ≡ taken_of marks jump given_up sizes }
{
    Gathered {
        marks,
        sections: sizes.sections,
        bytes: sizes.bytes,
        begun: sizes.begun,
        jump,
        repeat: false,
        given_up,
    }
}

// The rule on memory, where the sizes serve. It has the whole store, since its promise speaks of it.
fn accepted(
    marks: Marks,
    counter: u8,
    start: bool,
    payload: &[u8],
    store: &mut [u8],
    base: usize,
    out: &mut [u8],
) -> Gathered
    requires room { Room (held_of marks) payload.now store.old base out.old }
    requires marks_sound { sound_marks marks ≡ true }
    ensures { leaves (given (told_gathered result)) store.new out.new
        ≡ on_memory (rule (state_of marks store.old base) (record { counter = counter; start = start; payload = payload.now }))
        store.old base out.old }
{
    let same = is_same(marks, counter);
    if payload.len() == 0 {
        return ungathered(marks, marks.repeated, false);
    }
    if same & (marks.repeated == 0) {
        return ungathered(marks, 1, true);
    }
    let skip = skips(marks, counter);
    // the same counter once more, after its repeat, is a jump as well
    let jump = same | skip;
    let held = held_of(marks);
    let lost = lost(jump, held);
    let area = &mut store[base..base + AREA_BYTES];
    let sizes = gathered(start, kept(jump, held), payload, area, out);
    let given_up = lost + sizes.given_up;
    // an original: its counter is the last one now, and no repeat of it was seen
    let next = Marks {
        held_low: (sizes.held % 256) as u8,
        held_high: (sizes.held / 256) as u8,
        seen: 1,
        counter,
        ..Marks::NONE
    };
    taken(next, jump, given_up, sizes)
}

// A packet's counter, unit start and payload, gathered into the area at `base` of the store and to the output. Store and base are the caller's own: a base outside is refused.
pub fn gather(
    marks: Marks,
    counter: u8,
    start: bool,
    payload: &[u8],
    store: &mut [u8],
    base: usize,
    out: &mut [u8],
) -> Result<Gathered, Refusal>
    ensures { Gathers marks counter start payload.now store.old base out.old (result, store.new, out.new) }
{
    if !sound(marks) {
        return Err(Refusal::UnsoundState);
    }
    if 15 < counter {
        return Err(Refusal::UnsoundState);
    }
    if store.len() < AREA_BYTES {
        return Err(Refusal::BufferSize);
    }
    if store.len() - AREA_BYTES < base {
        return Err(Refusal::BufferSize);
    }
    if out.len() < LEAST_OUTPUT {
        return Err(Refusal::BufferSize);
    }
    if PAYLOAD_BYTES < payload.len() {
        return Err(Refusal::PacketSize);
    }
    Ok(accepted(marks, counter, start, payload, store, base, out))
}
