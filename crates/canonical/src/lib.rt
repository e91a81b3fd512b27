// The canonical copy: open, add, take, close; and recopying.
#![tactic(auto)]

mod bytes;
pub mod copy;
mod entry;
mod packet;
pub mod recopy;
pub mod state;
mod writer;

pub use copy::CanonicalCopy;
