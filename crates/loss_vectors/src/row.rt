// Rows as a script names and prints them.
use anyhow::anyhow;
use losses::{BusRow, EntryNoted, ModuleRow, PacketNoted, Tally};
use std::io;

pub(crate) trait Scripted: Tally {
    // The noting of these words.
    fn noting(key: &str, number: &str) -> anyhow::Result<Self::Noting>;

    // The row of these fields.
    fn row(fields: &[&str]) -> anyhow::Result<Self>;

    fn print(&self, rt: &HostRuntime) -> io::Result<()>;
}

impl Scripted for ModuleRow {
    fn noting(key: &str, number: &str) -> anyhow::Result<PacketNoted> {
        Ok(PacketNoted {
            device: key.parse::<u16>()?,
            counter: number.parse::<u16>()?,
        })
    }

    fn row(fields: &[&str]) -> anyhow::Result<ModuleRow> {
        match fields {
            [device, packets, last_counter, repeats, lost] => Ok(ModuleRow {
                device: device.parse::<u16>()?,
                packets: packets.parse::<u32>()?,
                last_counter: last_counter.parse::<u16>()?,
                repeats: repeats.parse::<u32>()?,
                lost: lost.parse::<u32>()?,
            }),
            _ => Err(anyhow!("a module's row has five fields")),
        }
    }

    fn print(&self, rt: &HostRuntime) -> io::Result<()> {
        let ModuleRow {
            device,
            packets,
            last_counter,
            repeats,
            lost,
        } = self;
        println!(rt;
            "  module {device}: {packets} packets, the last {last_counter}, {repeats} repeats, {lost} lost"
        )
    }
}

impl Scripted for BusRow {
    fn noting(key: &str, number: &str) -> anyhow::Result<EntryNoted> {
        Ok(EntryNoted {
            interface: key.parse::<u32>()?,
            data_bytes: number.parse::<u32>()?,
        })
    }

    fn row(fields: &[&str]) -> anyhow::Result<BusRow> {
        match fields {
            [interface, entries, data_bytes] => Ok(BusRow {
                interface: interface.parse::<u32>()?,
                entries: entries.parse::<u32>()?,
                data_bytes: data_bytes.parse::<u32>()?,
            }),
            _ => Err(anyhow!("a bus row has three fields")),
        }
    }

    fn print(&self, rt: &HostRuntime) -> io::Result<()> {
        let BusRow {
            interface,
            entries,
            data_bytes,
        } = self;
        println!(rt; "  interface {interface}: {entries} entries, {data_bytes} data bytes")
    }
}
