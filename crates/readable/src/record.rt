// What a record says, from its canonical encoding.
use crate::decimal::Decimal;
use crate::frame::{write_can, write_flexray, write_lin};
use kind_analog::{AnalogReading, read_analog};
use records::bits::bit;
use records::{Code, MessageType};
use std::fmt;

// A record in its canonical encoding.
#[derive(Clone, Copy)]
pub(crate) struct Record<'d> {
    pub(crate) code: Code,
    pub(crate) flags: u16,
    pub(crate) data: &'d [u8],
}

impl Record<'_> {
    pub(crate) fn is_logged(self) -> bool {
        self.code.message_type == MessageType::LoggingStream
    }

    // Whether a checksum is used: in replay a flag says so.
    pub(crate) fn uses_checksum(self, flag: u32) -> bool {
        self.is_logged() || bit(self.flags, flag)
    }
}

// What the data of a record is made of.
#[derive(Clone, Copy)]
enum Layout {
    Can,
    CanFd,
    Lin,
    FlexRay,
    Uart,
    Analog,
    Ethernet,
}

// Any other data type is handed back.
impl TryFrom<u16> for Layout {
    type Error = u16;

    fn try_from(data_type: u16) -> Result<Layout, u16> {
        match data_type {
            0x02 => Ok(Layout::Can),
            0x03 => Ok(Layout::CanFd),
            0x04 => Ok(Layout::Lin),
            0x08 => Ok(Layout::FlexRay),
            0x10 => Ok(Layout::Uart),
            0x20 => Ok(Layout::Analog),
            0x80 => Ok(Layout::Ethernet),
            _ => Err(data_type),
        }
    }
}

// What follows are functions over a formatter: parts of one `Display`, with no values of their own to print.
pub(crate) fn write_record<W: fmt::Write>(
    f: &mut fmt::Formatter<W>,
    record: Record,
) -> fmt::Result {
    match Layout::try_from(record.code.data_type) {
        Ok(Layout::Can) => write_can(f, "CAN", record)?,
        Ok(Layout::CanFd) => write_can(f, "CAN-FD", record)?,
        Ok(Layout::Lin) => write_lin(f, record)?,
        Ok(Layout::FlexRay) => write_flexray(f, record)?,
        Ok(Layout::Uart) => write_uart(f, record.data)?,
        Ok(Layout::Analog) => return write_analog(f, record.flags, record.data),
        Ok(Layout::Ethernet) => write_ethernet(f, record.data)?,
        Err(_) => (),
    }
    let flags = record.flags;
    write!(f, ", flags {flags:04x}")
}

pub(crate) fn write_bytes<W: fmt::Write>(f: &mut fmt::Formatter<W>, bytes: &[u8]) -> fmt::Result {
    for byte in bytes {
        write!(f, " {byte:02x}")?;
    }
    Ok(())
}

fn write_uart<W: fmt::Write>(f: &mut fmt::Formatter<W>, data: &[u8]) -> fmt::Result {
    write!(f, ", UART \"")?;
    for byte in data {
        match byte {
            b'"' | b'\\' => write!(f, "\\{}", char::from(*byte))?,
            b' '..=b'~' => write!(f, "{}", char::from(*byte))?,
            _ => write!(f, "\\x{byte:02x}")?,
        }
    }
    write!(f, "\"")
}

fn write_ethernet<W: fmt::Write>(f: &mut fmt::Formatter<W>, data: &[u8]) -> fmt::Result {
    write!(f, ", Ethernet")?;
    write_bytes(f, data)
}

fn write_analog<W: fmt::Write>(f: &mut fmt::Formatter<W>, flags: u16, data: &[u8]) -> fmt::Result {
    let Ok(reading) = read_analog(flags, data) else {
        return Ok(());
    };
    write_reading(f, reading)
}

fn write_reading<W: fmt::Write>(f: &mut fmt::Formatter<W>, reading: AnalogReading) -> fmt::Result {
    let unit = reading.unit;
    let ten_thousandths = reading.period.microseconds() as i32 * 10;
    let period = Decimal { ten_thousandths };
    write!(f, ", one sample every {period} ms:")?;
    for ten_thousandths in reading.values() {
        let value = Decimal { ten_thousandths };
        write!(f, " {value} {unit}")?;
    }
    Ok(())
}
