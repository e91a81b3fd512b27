// What was noted of one module: its packets, and by their counters how many were repeated and how many were lost.
ghost use Rattle.std.specs.Prelude.{◌≡◌};
ghost use Rattle.losses.specs.Modules.{gap, module_row, after_packet};
ghost use Rattle.losses.specs.ModuleLaw.{module_goes_on};

use crate::row::{Row, Tally};

#[derive(Clone, Copy, PartialEq, Eq, Debug, Default)]
pub struct ModuleRow {
    pub device: u16,
    pub packets: u32,
    pub last_counter: u16,
    pub repeats: u32,
    pub lost: u32,
}

// A packet, as it is noted.
#[derive(Clone, Copy, PartialEq, Eq, Debug)]
pub struct PacketNoted {
    pub device: u16,
    pub counter: u16,
}

// How many packets are missing between a counter and the next; none at a repeat.
fn gap(last: u16, new: u16) -> u16
    ensures { result ≡ gap last new }
{
    if new == last {
        return 0;
    }
    new.wrapping_sub(last).wrapping_sub(1)
}

impl Row for ModuleRow {
    ghost key_of = { λ row. row.device };

    fn key(&self) -> u32 {
        u32::from(self.device)
    }
}

impl Tally for ModuleRow {
    type Noting = PacketNoted;

    ghost row_of = { module_row };

    ghost next_of = { after_packet };

    ghost goes_on = { module_goes_on };

    fn first(packet: PacketNoted) -> ModuleRow {
        ModuleRow {
            device: packet.device,
            packets: 1,
            last_counter: packet.counter,
            repeats: 0,
            lost: 0,
        }
    }

    fn next(&self, packet: PacketNoted) -> ModuleRow {
        let repeated = packet.counter == self.last_counter;
        let lost = gap(self.last_counter, packet.counter);
        ModuleRow {
            device: self.device,
            packets: self.packets.saturating_add(1),
            last_counter: packet.counter,
            repeats: self.repeats.saturating_add(u32::from(repeated)),
            lost: self.lost.saturating_add(u32::from(lost)),
        }
    }
}
