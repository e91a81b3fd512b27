// Refusals in words, for people.
ghost use Rattle.std.specs.Prelude.{◌≡◌, Some};
ghost use Rattle.records.specs.Words.{meaning_of, text_of};

use super::{Numbered, Refusal};
use std::fmt;

// The number, what it means, and the offset where there is one: `12 at offset 43: ..`.
impl fmt::Display for Refusal {
    ghost output = { λ refusal. Some (text_of refusal) };

    fn fmt<W: fmt::Write>(&self, f: &mut fmt::Formatter<W>) -> fmt::Result {
        let refusal = *self;
        let number = refusal.number();
        let words = meaning(refusal);
        match refusal {
            Refusal::PastEnd { offset }
            | Refusal::NoData { offset }
            | Refusal::NoTime { offset }
            | Refusal::NotShared { offset }
            | Refusal::Padding { offset }
            | Refusal::Record { offset } => write!(f, "{number} at offset {offset}: {words}"),
            _ => write!(f, "{number}: {words}"),
        }
    }
}

fn meaning(refusal: Refusal) -> &'static str
    ensures { result.now ≡ meaning_of refusal }
{
    match refusal {
        Refusal::PacketTooShort => "a packet of under 28 bytes",
        Refusal::TooLong => "a packet of over 1500 bytes, or data of over 1472",
        Refusal::Version => "the version is not 3",
        Refusal::MessageType => "the message type is not 3 or 10, or not the stream's",
        Refusal::Module => "the module of a logged packet is over 255, or not the stream's",
        Refusal::Segmented => "a logged packet that is a segment of a message",
        Refusal::UnknownCode => "no record kind serves this message type and data type",
        Refusal::PastEnd { .. } => "the entry passes the end of the packet, or none can begin here",
        Refusal::NoData { .. } => "an entry of length 0",
        Refusal::NoTime { .. } => "a logged entry without a time",
        Refusal::NotShared { .. } => "a second entry, of a code that does not share packets",
        Refusal::Padding { .. } => "zeros to the end of a packet of over 46 bytes",
        Refusal::Record { .. } => "the record kind refuses the flags or the data",
        Refusal::OutputFull => "no room for the entry and a closing word",
        Refusal::NoEntries => "closing without an entry",
        Refusal::Opening => "the direction or the module is not allowed",
        Refusal::OutputLength => "a length that is not allowed, or not that at opening",
        Refusal::MalformedCopy => "a wrong word, end, filling or count in a copy",
    }
}
