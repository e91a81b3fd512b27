// An entry as one line: interface, time, and what its record says.
use crate::record::{Record, write_record};
use records::Registry;
use records::kind::DATA_LIMIT;
use std::fmt;
use tecmp::entry::{EntryView, TIME_BITS};

// The two flags above the time, set by a capture module.
const NOT_SYNCHRONIZED: u64 = 1 << 63;

const RECALCULATED: u64 = 1 << 62;

#[derive(Clone, Copy)]
pub struct EntryText<'r, 'p, R> {
    pub registry: &'r R,
    pub entry: EntryView<'p>,
}

impl<R: Registry> fmt::Display for EntryText<'_, '_, R> {
    fn fmt<W: fmt::Write>(&self, f: &mut fmt::Formatter<W>) -> fmt::Result {
        let entry = self.entry;
        let interface = entry.interface;
        let time = entry.time & TIME_BITS;
        write!(f, "interface {interface}, time {time} ns")?;
        if entry.time & NOT_SYNCHRONIZED != 0 {
            write!(f, " (not synchronized)")?;
        }
        if entry.time & RECALCULATED != 0 {
            write!(f, " (recalculated)")?;
        }
        write_content(f, self.registry, entry)
    }
}

// The record as its canonical encoding has it, so that equal loads print alike.
fn write_content<W: fmt::Write, R: Registry>(
    f: &mut fmt::Formatter<W>,
    registry: &R,
    entry: EntryView,
) -> fmt::Result {
    let mut buffer = [0; DATA_LIMIT];
    let Ok(length) = registry.check(entry.code, entry.flags, entry.data) else {
        return Ok(());
    };
    let Some(part) = buffer.get_mut(..length) else {
        return Ok(());
    };
    let Ok(flags) = registry.write(entry.code, entry.flags, entry.data, part) else {
        return Ok(());
    };
    let record = Record {
        code: entry.code,
        flags,
        data: part,
    };
    write_record(f, record)
}
