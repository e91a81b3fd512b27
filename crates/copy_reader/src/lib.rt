// Reading a copy back: its tests, and its entries one by one, however its packets are cut.
#![tactic(auto)]

mod cursor;
mod part;
mod pass;
pub mod reader;
