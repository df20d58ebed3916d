// The driver: filters on PIDs, the areas that they share, and the packet call that hands out sections. A caller needs this crate, and `pid` for the PIDs; what is claimed of its calls together is in specs/.
#![tactic(auto)]

pub use close_call::{Closed, close};
pub use ground::Refusal;
pub use open_call::{Opened, Opening, open};
pub use packet_call::{Handled, LEAST_LIST, Report, packet};
pub use state::{
    AREAS, After, Area, Choice, Filter, LAST_CHOICE, LAST_FILTER_PID, LAST_NUMBER, PLACES,
    STORE_BYTES, State, fresh,
};
