// What the frames of CAN, CAN-FD, LIN and FlexRay records say.
use crate::record::{Record, write_bytes};
use frames::{Frame, FrameKind};
use kind_can::{CRC_USED, LoggedCan};
use kind_flexray::{LoggedFlexRay, USE_HEADER_CRC};
use kind_lin::{LoggedLin, USE_CHECKSUM};
use records::MessageType;
use std::fmt;

// Functions over a formatter, as in `record`. Data too short for a frame is not printed: no record kind writes it.
pub(crate) fn write_can<W: fmt::Write>(
    f: &mut fmt::Formatter<W>,
    name: &str,
    record: Record,
) -> fmt::Result {
    if record.is_logged() && LoggedCan::FRAME.is_empty(record.flags) {
        return write_no_frame(f, name);
    }
    let [i0, i1, i2, i3, count, rest @ ..] = record.data else {
        return Ok(());
    };
    let word = u32::from_be_bytes([*i0, *i1, *i2, *i3]);
    let width = if word >> 31 == 1 { 29 } else { 11 };
    let identifier = word & 0x1fff_ffff;
    write!(f, ", {name} ID 0x{identifier:x} ({width} bits)")?;
    let crc = write_payload(f, *count, rest)?;
    write_checksum(f, "CRC", record.uses_checksum(CRC_USED), crc)
}

pub(crate) fn write_lin<W: fmt::Write>(f: &mut fmt::Formatter<W>, record: Record) -> fmt::Result {
    if record.is_logged() && LoggedLin::FRAME.is_empty(record.flags) {
        return write_no_frame(f, "LIN");
    }
    let [identifier, count, rest @ ..] = record.data else {
        return Ok(());
    };
    write!(f, ", LIN ID 0x{identifier:02x}")?;
    let checksum = write_payload(f, *count, rest)?;
    write_checksum(f, "checksum", record.uses_checksum(USE_CHECKSUM), checksum)
}

pub(crate) fn write_flexray<W: fmt::Write>(
    f: &mut fmt::Formatter<W>,
    record: Record,
) -> fmt::Result {
    if record.is_logged() && LoggedFlexRay::FRAME.is_empty(record.flags) {
        return write_no_frame(f, "FlexRay");
    }
    let [cycle, s0, s1, count, rest @ ..] = record.data else {
        return Ok(());
    };
    let slot = u16::from_be_bytes([*s0, *s1]);
    write!(f, ", FlexRay cycle {cycle}, frame ID {slot}")?;
    let trailer = write_payload(f, *count, rest)?;
    match record.code.message_type {
        MessageType::LoggingStream => write_two_crcs(f, trailer),
        MessageType::ReplayData => {
            write_repetition(f, record.uses_checksum(USE_HEADER_CRC), trailer)
        }
    }
}

fn write_no_frame<W: fmt::Write>(f: &mut fmt::Formatter<W>, name: &str) -> fmt::Result {
    write!(f, ", {name}: no frame")
}

// Writes the payload after a payload length, and answers what stands after it.
fn write_payload<'d, W: fmt::Write>(
    f: &mut fmt::Formatter<W>,
    count: u8,
    rest: &'d [u8],
) -> Result<&'d [u8], fmt::Error> {
    if count == 0 {
        write!(f, ", no payload")?;
        return Ok(rest);
    }
    let Some((payload, trailer)) = rest.split_at_checked(usize::from(count)) else {
        return Ok(rest);
    };
    write!(f, ", payload")?;
    write_bytes(f, payload)?;
    Ok(trailer)
}

// The number as one word, under its name.
fn write_checksum<W: fmt::Write>(
    f: &mut fmt::Formatter<W>,
    name: &str,
    used: bool,
    bytes: &[u8],
) -> fmt::Result {
    if !used {
        return write!(f, ", {name} not used");
    }
    write!(f, ", {name} ")?;
    for byte in bytes {
        write!(f, "{byte:02x}")?;
    }
    Ok(())
}

// The trailer of a logged FlexRay frame.
fn write_two_crcs<W: fmt::Write>(f: &mut fmt::Formatter<W>, trailer: &[u8]) -> fmt::Result {
    let Some((header_crc, frame_crc)) = trailer.split_at_checked(2) else {
        return Ok(());
    };
    write_checksum(f, "header CRC", true, header_crc)?;
    write_checksum(f, "frame CRC", true, frame_crc)
}

// The trailer of a replay FlexRay frame.
fn write_repetition<W: fmt::Write>(
    f: &mut fmt::Formatter<W>,
    used: bool,
    trailer: &[u8],
) -> fmt::Result {
    let [repetition, header_crc @ ..] = trailer else {
        return Ok(());
    };
    write!(f, ", repetition {repetition}")?;
    write_checksum(f, "header CRC", used, header_crc)
}
