// Logged records whose data is plain bytes: UART symbols and Ethernet frames.
#![tactic(auto)]

mod content;
pub mod kind;
mod record;

pub use kind::{BytesKind, LoggedEthernet, LoggedUart, PlainBytes};
