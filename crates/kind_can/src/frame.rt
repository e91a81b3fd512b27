// CAN and CAN-FD frames: identifier, payload, checksum (CRC).
ghost use Rattle.std.specs.Prelude.{◌≡◌, ◌^◌, ◌<◌};
ghost use Rattle.records.specs.Flags.{flag};
ghost use Rattle.kind_can.specs.Can.{id_agrees, crc_bits, can_shape};
ghost use Rattle.kind_can.specs.Shapely.{can_shapely};

use frames::Frame;
use records::bits::bit;
use records::{MessageType, RecordRefusal};

// What single flags say, by bit.
const REMOTE_FRAME: u32 = 1;

const EXTENDED: u32 = 2;

const ERROR_FRAME: u32 = 3;

pub const CRC_USED: u32 = 13;

#[derive(Clone, Copy)]
pub enum Protocol {
    Classic,
    Fd,
}

impl Protocol {
    // Checksums of frames with so many bytes of payload are below this.
    fn crc_limit(self, count: u8) -> u64
        ensures limit { result ≡ 2 ^ crc_bits self count }
        ensures positive { 0 < result }
    {
        match self {
            Protocol::Classic => 1 << 15,
            Protocol::Fd if count <= 16 => 1 << 17,
            Protocol::Fd => 1 << 21,
        }
    }
}

// The frames of one kind.
#[derive(Clone, Copy)]
pub struct CanFrame {
    pub(crate) protocol: Protocol,
    pub(crate) direction: MessageType,
}

// Whether an identifier has 29 bits; else it has 11.
fn is_extended(id: u64) -> bool
    ensures { result ≡ flag id 31 }
{
    (id >> 31) % 2 == 1
}

// Whether the flags of a logged entry say the same; those of a replay entry say nothing of it.
fn id_agrees(direction: MessageType, flags: u16, id: u64) -> bool
    ensures { result ≡ id_agrees direction flags id }
{
    match direction {
        MessageType::LoggingStream => bit(flags, EXTENDED) == is_extended(id),
        MessageType::ReplayData => true,
    }
}

// The matches give values by kind, not steps, and read as the table of the kinds.
impl Frame for CanFrame {
    ghost shape = { can_shape };

    ghost shapely = { can_shapely };

    fn mask(&self) -> u16 {
        match (self.protocol, self.direction) {
            (Protocol::Classic, MessageType::LoggingStream) => 0xE0FF,
            (Protocol::Classic, MessageType::ReplayData) => 0x20F0,
            (Protocol::Fd, MessageType::LoggingStream) => 0xE1FF,
            (Protocol::Fd, MessageType::ReplayData) => 0x21F0,
        }
    }

    fn head_length(&self) -> usize {
        4
    }

    fn tail_length(&self) -> usize {
        match self.protocol {
            Protocol::Classic => 2,
            Protocol::Fd => 3,
        }
    }

    // Replay does not keep this flag, so its entries always carry a frame.
    fn is_empty(&self, flags: u16) -> bool {
        bit(flags, ERROR_FRAME)
    }

    fn allows(&self, flags: u16, count: u8) -> bool {
        match self.protocol {
            Protocol::Classic if bit(flags, REMOTE_FRAME) => count == 0,
            Protocol::Classic => count <= 8,
            Protocol::Fd => matches!(count, 0..=8 | 12 | 16 | 20 | 24 | 32 | 48 | 64),
        }
    }

    // Bits 29 and 30 of an identifier are reserved.
    fn head_as(&self, _flags: u16, head: u64) -> u64 {
        head & 0x9FFF_FFFF
    }

    fn tail_as(&self, flags: u16, count: u8, tail: u64) -> u64 {
        match self.direction {
            MessageType::LoggingStream => tail % self.protocol.crc_limit(count),
            MessageType::ReplayData if bit(flags, CRC_USED) => tail,
            MessageType::ReplayData => 0,
        }
    }

    fn check_fields(
        &self,
        flags: u16,
        count: u8,
        head: u64,
        tail: u64,
    ) -> Result<(), RecordRefusal> {
        if !is_extended(head) && head > 0x7FF {
            return Err(RecordRefusal::Identifier);
        }
        if !id_agrees(self.direction, flags, head) {
            return Err(RecordRefusal::Identifier);
        }
        if tail >= self.protocol.crc_limit(count) {
            return Err(RecordRefusal::Checksum);
        }
        Ok(())
    }
}
