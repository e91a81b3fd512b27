// The loss table: what was noted of each module and of each interface, in rows that the caller lends.
#![tactic(auto)]

pub mod bus_row;
pub mod module_row;
pub mod refusal;
pub mod row;
pub mod table;

pub use bus_row::{BusRow, EntryNoted};
pub use module_row::{ModuleRow, PacketNoted};
pub use refusal::TableRefusal;
pub use row::{Row, Tally, search};
pub use table::Table;
