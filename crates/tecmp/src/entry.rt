// An entry: its head of sixteen bytes and its data, viewed inside the packet.
ghost use Rattle.std.specs.Prelude.{◌≡◌};
ghost use Rattle.tecmp.specs.Layout.{time_of, has_time};

use records::code::{Code, MessageType};

// The bits of a time word that hold the time; the two above them are flags.
pub const TIME_BITS: u64 = 0x3fff_ffff_ffff_ffff;

#[derive(Clone, Copy)]
pub struct EntryView<'p> {
    pub code: Code,
    pub interface: u32,
    // the whole time word of a logged entry, the low 62 bits of a replay entry's: the format's word, flags and all, is what is compared
    pub time: u64,
    pub flags: u16,
    pub data: &'p [u8],
    // where the data begins; 0 for an entry of no packet (docs/FORMAT.md)
    pub data_offset: usize,
}

// An entry and the offset after it: reading answers both as one struct (docs/DECISIONS.md, the forms).
#[derive(Clone, Copy)]
pub struct EntryRead<'p> {
    pub entry: EntryView<'p>,
    pub next: usize,
}

// The time in a time word: the whole word of a logged entry, the low 62 bits of a replay entry's.
pub fn time_of(message_type: MessageType, word: u64) -> u64
    ensures { result ≡ time_of message_type word }
{
    match message_type {
        MessageType::LoggingStream => word,
        MessageType::ReplayData => word & TIME_BITS,
    }
}

// Whether an entry has a time: the low 62 bits of a logged one are not all 0.
pub fn has_time(message_type: MessageType, time: u64) -> bool
    ensures { result ≡ has_time message_type time }
{
    match message_type {
        MessageType::LoggingStream => time & TIME_BITS != 0,
        MessageType::ReplayData => true,
    }
}
