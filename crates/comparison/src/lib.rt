// Whether two packets hold the same load: the same entries in number, order, code, interface, time and sense.
#![tactic(auto)]

pub mod content;
pub mod packets;

pub use packets::{Comparison, Field, RefusedPacket};
