// What entries say, in words and in the units of the bench. It is only printed: nothing is decided here.
#![tactic(auto)]

pub mod decimal;
pub mod entry;
mod frame;
mod record;

pub use decimal::Decimal;
pub use entry::EntryText;
