// The head of a packet: its tests, and what it says.
ghost use Rattle.std.specs.Prelude.{◌≡◌};
ghost use Rattle.tecmp.specs.Reading.{head_reading};
ghost use Rattle.tecmp.specs.Heads.{Splits, head_from};

use records::code::{Code, MessageType};
use records::refusal::Refusal;
use records::registry::Registry;

// The most bytes of a packet.
pub const PACKET_LIMIT: usize = 1500;

// The bytes of an entry's head.
pub const ENTRY_HEAD: usize = 16;

pub const VERSION: u8 = 3;

pub const LAST_MODULE: u16 = 255;

// End and start of a segment: both are set in a message that is whole.
const WHOLE: u16 = 0b11;

// Where packets come from or go to: message type and module. In replay the module is 0 (docs/FORMAT.md).
#[derive(Clone, Copy)]
pub struct Stream {
    pub message_type: MessageType,
    pub module: u16,
}

// What the head of a packet says. In replay module and counter are not read, and 0 here (docs/FORMAT.md).
#[derive(Clone, Copy)]
pub struct Head {
    pub stream: Stream,
    pub counter: u16,
    pub code: Code,
    pub shares: bool,
}

// The fields of a head as they stand, and the entries after it.
#[derive(Clone, Copy)]
struct Fields<'p> {
    device_id: u16,
    counter: u16,
    version: u8,
    message_type: u8,
    data_type: u16,
    device_flags: u16,
    entries: &'p [u8],
}

impl Fields<'_> {
    fn head(self, code: Code, shares: bool) -> Head
        ensures { result ≡ head_from self.entry.device_id self.entry.counter code shares }
    {
        let message_type = code.message_type;
        let (module, counter) = match message_type {
            MessageType::LoggingStream => (self.device_id, self.counter),
            MessageType::ReplayData => (0, 0),
        };
        Head {
            stream: Stream {
                message_type,
                module,
            },
            counter,
            code,
            shares,
        }
    }
}

fn split_head(packet: &[u8]) -> Option<Fields<'_>>
    ensures { Splits packet.now result }
{
    let [
        d0,
        d1,
        c0,
        c1,
        version,
        message_type,
        t0,
        t1,
        _,
        _,
        f0,
        f1,
        entries @ ..,
    ] = packet
    else {
        return None;
    };
    Some(Fields {
        device_id: u16::from_be_bytes([*d0, *d1]),
        counter: u16::from_be_bytes([*c0, *c1]),
        version: *version,
        message_type: *message_type,
        data_type: u16::from_be_bytes([*t0, *t1]),
        device_flags: u16::from_be_bytes([*f0, *f1]),
        entries,
    })
}

// Tests 1 to 7 of a packet, and its head; where a stream is given, the packet has to be of it.
pub fn read_head<R: Registry>(
    registry: &R,
    stream: Option<Stream>,
    packet: &[u8],
) -> Result<Head, Refusal>
    ensures { result ≡ head_reading (R.Registry.services registry.now) stream packet.now }
{
    let fields = split_head(packet).ok_or(Refusal::PacketTooShort)?;
    if fields.entries.len() < ENTRY_HEAD {
        return Err(Refusal::PacketTooShort);
    }
    if packet.len() > PACKET_LIMIT {
        return Err(Refusal::TooLong);
    }
    if fields.version != VERSION {
        return Err(Refusal::Version);
    }
    let message_type = MessageType::try_from(fields.message_type)?;
    if stream.is_some_and(|stream| message_type != stream.message_type) {
        return Err(Refusal::MessageType);
    }
    let logged = message_type == MessageType::LoggingStream;
    let other_module = stream.is_some_and(|stream| fields.device_id != stream.module);
    if logged && (fields.device_id > LAST_MODULE || other_module) {
        return Err(Refusal::Module);
    }
    if logged && fields.device_flags & WHOLE != WHOLE {
        return Err(Refusal::Segmented);
    }
    let code = Code {
        message_type,
        data_type: fields.data_type,
    };
    let shares = registry.sharing(code).ok_or(Refusal::UnknownCode)?;
    Ok(fields.head(code, shares))
}
