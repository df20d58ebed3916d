// What the driver's state holds, a fresh one, the lowest area or place that passes a test, if one does, and the set of places that a section is for.
#![tactic(auto)]

ghost use Rattle.std.specs.Prelude.{◌≡◌};
ghost use Rattle.ground.specs.Set.{set_of};
ghost use Rattle.state.specs.Steps.{MayAsk, IsSet};
ghost use Rattle.state.specs.State.{is_free};
ghost use Rattle.state.specs.Choice.{is_for};
ghost use Rattle.state.specs.Promises.{MakesFresh, FindsArea, FindsFreeArea, FindsFreePlace, FindsPlace, TellsPlaces};

use gather::Marks;
use pid::Pid;

// "Areas: 8".
pub const AREAS: usize = 8;

// "Filter places: 32".
pub const PLACES: usize = 32;

// "the store is exactly 32,768 bytes".
pub const STORE_BYTES: usize = 32768;

// "Filter numbers: 1 to 65,535".
pub const LAST_NUMBER: u32 = 65535;

// A filter stands on a PID up to this one; the next is that of null packets.
pub const LAST_FILTER_PID: u16 = 0x1FFE;

// An area, used where it has users: its PID, how many filters stand on it, and what the rule of gathering remembers beside the held bytes.
// That it is free is a number, 0 users, so that any bytes are a state; so are the marks of what was seen.
#[derive(Clone, Copy, PartialEq, Eq)]
pub struct Area {
    pub pid: Pid,
    pub users: u8,
    pub marks: Marks,
}

impl Area {
    pub const FREE: Area = Area {
        pid: Pid(0),
        users: 0,
        marks: Marks::NONE,
    };
}

// A choice's number is at most this one, that of table_id 254.
pub const LAST_CHOICE: u16 = 255;

// What a filter lets through: every section, or those of one table_id.
#[derive(Clone, Copy)]
pub enum Choice {
    All,
    One(u8),
}

// A filter place, open where it has a number: the number, and the area that the filter stands on.
// That it is free is a number, 0, so that any bytes are a state.
#[derive(Clone, Copy, PartialEq, Eq)]
pub struct Filter {
    pub number: u16,
    pub area: u8,
}

impl Filter {
    pub const FREE: Filter = Filter { number: 0, area: 0 };
}

// The driver's state: 8 areas, 32 filter places, the choice of each, and the next number to give.
// A choice is a number, 0 for all and 1 + table_id for one, so that any bytes are a state; the choices stand beside the filters, so that a filter keeps its four bytes and the compiler copies either list without a call.
#[derive(Clone, Copy)]
pub struct State {
    pub areas: [Area; AREAS],
    pub filters: [Filter; PLACES],
    pub choices: [u16; PLACES],
    pub next: u32,
}

// What a call answers, and the state after it.
#[derive(Clone, Copy)]
pub struct After<A> {
    pub state: State,
    pub answer: A,
}

// A state with nothing open: the next number is 1.
pub fn fresh() -> State
    ensures { MakesFresh result }
{
    State {
        areas: [Area::FREE; AREAS],
        filters: [Filter::FREE; PLACES],
        choices: [0; PLACES],
        next: 1,
    }
}

// The area of a PID. A search takes each record as a whole, so that the compiler keeps it in one register.
pub fn area_of(areas: [Area; AREAS], pid: Pid) -> Option<usize>
    ensures { FindsArea areas pid.0 result }
{
    areas
        .iter()
        .position(|&area| (area.users != 0) & (area.pid == pid))
}

// The lowest free area.
pub fn free_area(areas: [Area; AREAS]) -> Option<usize>
    ensures { FindsFreeArea areas result }
{
    areas.iter().position(|&area| area.users == 0)
}

// The place of an open filter by its number.
pub fn place_of(filters: [Filter; PLACES], number: u16) -> Option<usize>
    ensures { FindsPlace filters number result }
{
    filters
        .iter()
        .position(|&filter| (filter.number != 0) & (filter.number == number))
}

// The set of the places that pass a test, the first place the least significant bit. A test takes a filter's record as a whole, so that the compiler can test many at once.
fn passing<F: Fn(usize) -> bool>(passes: F) -> u32
    requires { MayAsk F.pre passes }
    ensures { IsSet (F.post passes) result }
{
    let mut set: u32 = 0;
    for place in 0..PLACES {
        set += u32::from(passes(place)) << place;
    }
    set
}

// Whether a place is free.
fn is_free(filter: Filter) -> bool
    ensures { result ≡ is_free filter }
{
    filter.number == 0
}

// The set of free places, the first place the least significant bit.
fn free_places(filters: [Filter; PLACES]) -> u32
    ensures { result ≡ set_of is_free filters }
{
    passing(|place| {
        let filter = filters[place];
        is_free(filter)
    })
}

// The lowest free place: below it every bit of the set of free places is 0, and where none is free all 32 are, which is no place.
pub fn free_place(filters: [Filter; PLACES]) -> Option<usize>
    ensures { FindsFreePlace filters result }
{
    Some(free_places(filters).trailing_zeros() as usize).filter(|place| *place < PLACES)
}

// Whether a section of this table_id on this area is for the filter at a place.
fn is_for(filter: Filter, choice: u16, area: u8, table: u8) -> bool
    ensures { result ≡ is_for area table (record { filter = filter; choice = choice }) }
{
    let stands = (filter.number != 0) & (filter.area == area);
    stands & ((choice == 0) | (choice == u16::from(table) + 1))
}

// The set of places that a section of this table_id on this area is for, the first place the least significant bit.
pub fn places_for(filters: [Filter; PLACES], choices: [u16; PLACES], area: u8, table: u8) -> u32
    ensures { TellsPlaces filters choices area table result }
{
    passing(|place| {
        let filter = filters[place];
        is_for(filter, choices[place], area, table)
    })
}
