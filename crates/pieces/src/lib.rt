// The listing's input, piece by piece: each whole packet that was read is called and its lines are written, and what is left is kept.
#![tactic(auto)]

mod packets;
mod reads;

pub use packets::{Progress, Work};
pub use reads::{Brought, Piece, Step, begin};
