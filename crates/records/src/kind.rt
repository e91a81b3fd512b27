// What a record kind is: how the entries of one code are read and written.
ghost use Rattle.std.specs.Prelude.{◌≡◌, ℕ, Bool, List, length};
ghost use Rattle.records.specs.Codes.{code_with};
ghost use Rattle.records.specs.Verdicts.{Verdict, Lawful, checked, written, canonical_data, Filled};
ghost use Rattle.records.specs.declared.code.MessageType.{MessageType as MessageTypeOf};

use crate::code::{Code, MessageType};
use crate::refusal::{RecordRefusal, WriteRefusal};

// The longest data that a record kind accepts.
pub const DATA_LIMIT: usize = 1472;

// What a kind states of itself: the code it serves, and whether its entries may share a packet.
#[derive(Clone, Copy)]
pub struct Listing {
    pub code: Code,
    pub shares: bool,
}

impl Listing {
    pub fn new(message_type: MessageType, data_type: u16, shares: bool) -> Listing
        ensures code { result.code ≡ code_with message_type data_type }
        ensures shares { result.shares ≡ shares }
    {
        Listing {
            code: Code {
                message_type,
                data_type,
            },
            shares,
        }
    }
}

// Flags and data stay two parameters: a struct would hold a reference, and each clause would say `encoding.entry.flags encoding.entry.data.now`.
pub trait RecordKind {
    const MESSAGE_TYPE: MessageType;

    const DATA_TYPE: u16;

    const SHARES: bool;

    ghost MESSAGE_TYPE: { MessageTypeOf };

    ghost DATA_TYPE: { ℕ };

    ghost SHARES: { Bool };

    // what it says of flags and data
    ghost verdict: { Self → ℕ → List ℕ → Verdict };

    // The length of the canonical data, or the refusal.
    fn check(&self, flags: u16, data: &[u8]) -> Result<usize, RecordRefusal>
        ensures { result ≡ checked (verdict self.now flags «data».now) };

    // Writes the canonical data into a part of just its length, and answers the canonical flags.
    // A refusal leaves the part as it was.
    fn write(&self, flags: u16, data: &[u8], part: &mut [u8]) -> Result<u16, WriteRefusal>
        ensures answer { result ≡ written (verdict self.now flags «data».now) (length part.old) }
        ensures part { Filled result (canonical_data (verdict self.now flags «data».now)) part.old part.new };

    // The associated constants as one value.
    final fn listing(&self) -> Listing
        ensures code { result.code ≡ code_with MESSAGE_TYPE DATA_TYPE }
        ensures shares { result.shares ≡ SHARES }
    {
        Listing::new(Self::MESSAGE_TYPE, Self::DATA_TYPE, Self::SHARES)
    }

    ghost lawful: { (k : Self) → Lawful (verdict k) };
}
