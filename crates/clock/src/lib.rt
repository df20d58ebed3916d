// Stamps, which count at 90 kHz, and clock references, which count at 27 MHz: one type each, so that a call which takes one never accepts the other.
#![tactic(auto)]

pub mod reference;
pub mod stamp;
pub mod sums;
