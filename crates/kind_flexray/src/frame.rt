// What FlexRay frames are, logged and replay.
ghost use Rattle.std.specs.Prelude.{◌≡◌, ◌/◌, ◌%◌, ◌^◌};
ghost use Rattle.kind_flexray.specs.FlexRay.{flex_ray_shape, slot, setting};
ghost use Rattle.kind_flexray.specs.Shapes.{flexray_shapely};

use frames::Frame;
use records::bits::{bit, field};
use records::{MessageType, RecordRefusal};

// The flags that say how a record is read, by their bits.
const WAKE_UP_SYMBOL: u32 = 3;

const COLLISION_AVOIDANCE_SYMBOL: u32 = 5;

pub const USE_HEADER_CRC: u32 = 12;

const LONGEST_PAYLOAD: u8 = 254;

const LAST_CYCLE: u64 = 63;

const LAST_FRAME_ID: u64 = 2047;

const LAST_REPETITION: u64 = 64;

const LAST_HEADER_CRC: u64 = 0x7FF;

#[derive(Clone, Copy)]
pub struct FlexRayFrame {
    pub(crate) direction: MessageType,
}

// The matches give values by kind, not steps, and read as the table of the kinds.
impl Frame for FlexRayFrame {
    ghost shape = { λ k. flex_ray_shape k.direction };

    ghost shapely = { λ k. flexray_shapely k.direction };

    fn mask(&self) -> u16 {
        match self.direction {
            MessageType::LoggingStream => 0xF03F,
            MessageType::ReplayData => 0x1380,
        }
    }

    fn head_length(&self) -> usize {
        3
    }

    fn tail_length(&self) -> usize {
        match self.direction {
            MessageType::LoggingStream => 5,
            MessageType::ReplayData => 3,
        }
    }

    fn is_empty(&self, flags: u16) -> bool {
        match self.direction {
            MessageType::LoggingStream => {
                bit(flags, WAKE_UP_SYMBOL) || bit(flags, COLLISION_AVOIDANCE_SYMBOL)
            }
            MessageType::ReplayData => false,
        }
    }

    fn allows(&self, _flags: u16, count: u8) -> bool {
        count <= LONGEST_PAYLOAD
    }

    fn head_as(&self, _flags: u16, head: u64) -> u64 {
        head
    }

    fn tail_as(&self, flags: u16, _count: u8, tail: u64) -> u64 {
        match self.direction {
            MessageType::ReplayData if !bit(flags, USE_HEADER_CRC) => first_byte(tail) << 16,
            _ => tail,
        }
    }

    fn check_fields(
        &self,
        flags: u16,
        _count: u8,
        head: u64,
        tail: u64,
    ) -> Result<(), RecordRefusal> {
        match self.direction {
            MessageType::ReplayData if !is_setting(flags, tail) => Err(RecordRefusal::Setting),
            _ if !is_slot(head) => Err(RecordRefusal::Slot),
            MessageType::ReplayData if last_two(tail) > LAST_HEADER_CRC => {
                Err(RecordRefusal::Checksum)
            }
            _ => Ok(()),
        }
    }
}

// The cycle of a header, the repetition of a replay trailer.
fn first_byte(number: u64) -> u64
    ensures { result ≡ number / 2 ^ 16 }
{
    number >> 16
}

// The frame ID of a header, the header CRC of a replay trailer.
fn last_two(number: u64) -> u64
    ensures { result ≡ number % 2 ^ 16 }
{
    number % (1 << 16)
}

fn is_slot(head: u64) -> bool
    ensures { result ≡ slot head }
{
    first_byte(head) <= LAST_CYCLE && matches!(last_two(head), 1..=LAST_FRAME_ID)
}

// The transmission mode, bits 7 to 9, is one of three; the repetition is a power of two.
fn is_setting(flags: u16, tail: u64) -> bool
    ensures { result ≡ setting flags tail }
{
    let repetition = first_byte(tail);
    matches!(field(flags, 7, 3), 1..=3)
        && repetition <= LAST_REPETITION
        && repetition.count_ones() == 1
}
