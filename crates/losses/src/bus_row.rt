// What was noted of one interface: its entries and their data bytes.
ghost use Rattle.std.specs.Prelude.{◌≡◌};
ghost use Rattle.losses.specs.Buses.{bus_row, after_entry};
ghost use Rattle.losses.specs.BusLaw.{bus_goes_on};

use crate::row::{Row, Tally};

#[derive(Clone, Copy, PartialEq, Eq, Debug, Default)]
pub struct BusRow {
    pub interface: u32,
    pub entries: u32,
    pub data_bytes: u32,
}

// An entry, as it is noted.
#[derive(Clone, Copy, PartialEq, Eq, Debug)]
pub struct EntryNoted {
    pub interface: u32,
    pub data_bytes: u32,
}

impl Row for BusRow {
    ghost key_of = { λ row. row.interface };

    fn key(&self) -> u32 {
        self.interface
    }
}

impl Tally for BusRow {
    type Noting = EntryNoted;

    ghost row_of = { bus_row };

    ghost next_of = { after_entry };

    ghost goes_on = { bus_goes_on };

    fn first(entry: EntryNoted) -> BusRow {
        BusRow {
            interface: entry.interface,
            entries: 1,
            data_bytes: entry.data_bytes,
        }
    }

    fn next(&self, entry: EntryNoted) -> BusRow {
        BusRow {
            interface: self.interface,
            entries: self.entries.saturating_add(1),
            data_bytes: self.data_bytes.saturating_add(entry.data_bytes),
        }
    }
}
