// What LIN frames are, logged and replay.
ghost use Rattle.std.specs.Prelude.{◌≡◌};
ghost use Rattle.kind_lin.specs.Lin.{lin_shape};
ghost use Rattle.kind_lin.specs.Shapes.{lin_shapely};

use frames::Frame;
use records::bits::bit;
use records::{MessageType, RecordRefusal};

// The flags that say how a record is read, by their bits.
const USE_PARITY: u32 = 1;

const NO_RESPONSE: u32 = 2;

const WAKE_UP: u32 = 8;

const SHORT_WAKE_UP: u32 = 9;

pub const USE_CHECKSUM: u32 = 13;

// An ID has six bits; parity stands above them.
const IDS: u64 = 64;

#[derive(Clone, Copy)]
pub struct LinFrame {
    pub(crate) direction: MessageType,
}

// The matches give values by kind, not steps, and read as the table of the kinds.
impl Frame for LinFrame {
    ghost shape = { λ k. lin_shape k.direction };

    ghost shapely = { λ k. lin_shapely k.direction };

    fn mask(&self) -> u16 {
        match self.direction {
            MessageType::LoggingStream => 0xE707,
            MessageType::ReplayData => 0x2302,
        }
    }

    fn head_length(&self) -> usize {
        1
    }

    fn tail_length(&self) -> usize {
        1
    }

    fn is_empty(&self, flags: u16) -> bool {
        match self.direction {
            MessageType::LoggingStream => bit(flags, WAKE_UP) || bit(flags, SHORT_WAKE_UP),
            MessageType::ReplayData => false,
        }
    }

    fn allows(&self, flags: u16, count: u8) -> bool {
        match self.direction {
            MessageType::LoggingStream if bit(flags, NO_RESPONSE) => count == 0,
            MessageType::LoggingStream => matches!(count, 1 | 2 | 4 | 8),
            MessageType::ReplayData => matches!(count, 0 | 1 | 2 | 4 | 8),
        }
    }

    fn head_as(&self, flags: u16, head: u64) -> u64 {
        match self.direction {
            MessageType::ReplayData if bit(flags, USE_PARITY) => head,
            _ => head % IDS,
        }
    }

    fn tail_as(&self, flags: u16, _count: u8, tail: u64) -> u64 {
        let used = match self.direction {
            MessageType::LoggingStream => !bit(flags, NO_RESPONSE),
            MessageType::ReplayData => bit(flags, USE_CHECKSUM),
        };
        if used { tail } else { 0 }
    }

    fn check_fields(
        &self,
        _flags: u16,
        _count: u8,
        _head: u64,
        _tail: u64,
    ) -> Result<(), RecordRefusal> {
        Ok(())
    }
}
