// LIN records, logged and replay: an ID, a payload of up to eight bytes and a checksum.
#![tactic(auto)]

mod frame;
pub mod kind;

pub use frame::USE_CHECKSUM;
pub use kind::{LoggedLin, ReplayLin};
