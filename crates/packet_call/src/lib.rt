// The packet call: the tests in document 01's order, the payload gathered into its PID's area, and for each finished section the set of places it is for.
#![tactic(auto)]

ghost use Rattle.std.specs.Prelude.{◌≡◌, false, ◌≤◌, ◌<◌, length, get_or, Err};
ghost use Rattle.ground.specs.Answer.{given};
ghost use Rattle.ground.specs.Write.{put};
ghost use Rattle.packet.specs.Packet.{told_packet, read_packet};
ghost use Rattle.gather.specs.Rule.{rule};
ghost use Rattle.gather.specs.Memory.{state_of, contradicts_of};
ghost use Rattle.state.specs.State.{area_start, free_area};
ghost use Rattle.state.specs.Choice.{placed};
ghost use Rattle.packet_call.specs.Packet.{told_handled, held_in, after_tests, put_back};
ghost use Rattle.packet_call.specs.Steps.{Ready, sets_in};
ghost use Rattle.packet_call.specs.Promises.{HandlesPacket, GivesReport};

use gather::{AREA_BYTES, Gathered, LEAST_OUTPUT};
use ground::Refusal;
use octets::further;
use packet::Packet;
use sound::is_sound;
use state::{After, Area, Filter, PLACES, STORE_BYTES, State, area_of, places_for};

// "a lent list of at least 61 places": as many sections a packet finishes at most.
pub const LEAST_LIST: usize = 61;

// What a wanted packet brought: how many sections and their bytes, how many sections were begun, jump, repeat, and how many sections were given up.
#[derive(Clone, Copy)]
pub struct Report {
    pub sections: usize,
    pub bytes: usize,
    pub begun: usize,
    pub jump: bool,
    pub repeat: bool,
    pub given_up: u8,
}

// What gathering said, as the packet call says it.
impl From<Gathered> for Report {
    ghost from_gives = { λ g r. GivesReport g r };

    fn from(g: Gathered) -> Report {
        Report {
            sections: g.sections,
            bytes: g.bytes,
            begun: g.begun,
            jump: g.jump,
            repeat: g.repeat,
            given_up: g.given_up,
        }
    }
}

// The answer of a packet call: a wanted packet's report, or none of one that is not wanted.
pub type Handled = After<Result<Option<Report>, Refusal>>;

// A packet: what it brought to the filters on its PID, "not wanted", or the first refusal that applies.
pub fn packet(
    state: State,
    bytes: &[u8],
    store: &mut [u8],
    out: &mut [u8],
    sets: &mut [u32],
) -> Handled
    ensures { HandlesPacket state bytes.now store.old out.old sets.old
        (result, store.new, out.new, sets.new) }
{
    if !is_sound(state) {
        return refused(state, Refusal::UnsoundState);
    }
    if (store.len() != STORE_BYTES) | (out.len() < LEAST_OUTPUT) | (sets.len() < LEAST_LIST) {
        return refused(state, Refusal::BufferSize);
    }
    match packet::read(bytes) {
        Err(why) => refused(state, why),
        Ok(packet) => match area_of(state.areas, packet.pid) {
            Some(i) => wanted(state, i, packet, bytes, store, out, sets),
            None => After {
                state,
                answer: Ok(None),
            },
        },
    }
}

// A refused packet: the state as given. Each refusal forms the answer at once: with `?` in the functions below and the answer formed in `packet`, an unwanted packet took 23 instructions more and a wanted one 22.
fn refused(given: State, why: Refusal) -> Handled
    ensures { result ≡ (record { state = given; answer = Err why }) }
{
    After {
        state: given,
        answer: Err(why),
    }
}

// The set of places that each section is for, from the list's start on; the sections stand joined at the start of the output.
fn tell_places(
    filters: [Filter; PLACES],
    choices: [u16; PLACES],
    area: u8,
    count: usize,
    out: &[u8],
    sets: &mut [u32],
)
    requires { count ≤ length sets.old }
    ensures { sets.new ≡ put sets.old 0 (sets_in area (placed filters choices) count out.now) }
{
    let mut place: usize = 0;
    for i in 0..count {
        sets[i] = places_for(filters, choices, area, section::table_at(out, place));
        place = further(place, section::size_at(out, place), out.len());
    }
}

// The payload gathered into the PID's area, and the sections handed out.
fn gathered(
    state: State,
    i: usize,
    counter: u8,
    start: bool,
    payload: &[u8],
    store: &mut [u8],
    out: &mut [u8],
    sets: &mut [u32],
) -> Handled
    requires ready { Ready state store.old out.old sets.old }
    requires area_and_payload { (i < 8) × (length payload.now ≤ 184) × (counter ≤ 15) × (contradicts_of (held_in i state) store.old (area_start i) ≡ false) }
    ensures { told_handled result store.new out.new sets.new
        ≡ put_back state i (rule (state_of (get_or state.areas i free_area).marks store.old (area_start i))
        (record { counter = counter; start = start; payload = payload.now })) store.old out.old sets.old }
{
    let mut areas = state.areas;
    let own = areas[i];
    let base = AREA_BYTES * i;
    match gather::gather(own.marks, counter, start, payload, store, base, out) {
        // never: what gathering would refuse was refused before, and one refusal for all of them costs least
        Err(_) => refused(state, Refusal::UnsoundState),
        Ok(g) => {
            areas[i] = Area {
                marks: g.marks,
                ..own
            };
            tell_places(state.filters, state.choices, i as u8, g.sections, out, sets);
            After {
                state: State { areas, ..state },
                answer: Ok(Some(Report::from(g))),
            }
        }
    }
}

// The last three tests of a wanted packet, and then its payload gathered.
// Store, output and list stay three loans, as the caller lends them: a struct of them would be built for one call and taken apart in it.
fn wanted(
    state: State,
    i: usize,
    packet: Packet,
    bytes: &[u8],
    store: &mut [u8],
    out: &mut [u8],
    sets: &mut [u32],
) -> Handled
    requires ready { Ready state store.old out.old sets.old }
    requires area_and_packet { (i < 8) × (read_packet bytes.now ≡ given (told_packet packet)) }
    ensures { told_handled result store.new out.new sets.new
        ≡ after_tests state i bytes.now store.old out.old sets.old }
{
    // an index into the state's own list would make a copy of the whole state
    let areas = state.areas;
    let held = gather::held_of(areas[i].marks);
    if gather::contradicts(held, store, AREA_BYTES * i) {
        return refused(state, Refusal::AreaContradiction);
    }
    if packet.scrambling != 0 {
        return refused(state, Refusal::Scrambled);
    }
    let at = packet::payload_start(packet);
    let payload = &bytes[at..];
    if gather::leaves_none(packet.unit_start, payload) {
        return refused(state, Refusal::PointerPastEnd);
    }
    gathered(
        state,
        i,
        packet.counter,
        packet.unit_start,
        payload,
        store,
        out,
        sets,
    )
}
