// An entry's code: message type and data type.
ghost use Rattle.std.specs.Prelude.{◌≡◌};
ghost use Rattle.records.specs.Codes.{type_number, type_read};

use crate::refusal::Refusal;

// The message types that carry entries.
#[derive(Clone, Copy, PartialEq, Eq, Debug)]
pub enum MessageType {
    LoggingStream,
    ReplayData,
}

impl From<MessageType> for u8 {
    ghost from_gives = { λ message_type number. number ≡ type_number message_type };

    fn from(message_type: MessageType) -> u8 {
        match message_type {
            MessageType::LoggingStream => 3,
            MessageType::ReplayData => 10,
        }
    }
}

// Any other number is refused, as in a packet.
impl TryFrom<u8> for MessageType {
    type Error = Refusal;

    ghost try_from_gives = { λ number answer. answer ≡ type_read number };

    fn try_from(number: u8) -> Result<MessageType, Refusal> {
        match number {
            3 => Ok(MessageType::LoggingStream),
            10 => Ok(MessageType::ReplayData),
            _ => Err(Refusal::MessageType),
        }
    }
}

#[derive(Clone, Copy, PartialEq, Eq, Debug)]
pub struct Code {
    pub message_type: MessageType,
    // any number: a registry says which it serves
    pub data_type: u16,
}
