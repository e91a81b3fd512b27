// Logged and replay records of CAN and CAN-FD frames.
#![tactic(auto)]

mod frame;
pub mod kind;

pub use frame::CRC_USED;
pub use kind::{LoggedCan, LoggedCanFd, ReplayCan, ReplayCanFd};
