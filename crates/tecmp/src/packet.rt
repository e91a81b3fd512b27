// A packet whose head was read, and the entries in it.
ghost use Rattle.std.specs.Prelude.{◌≡◌, length, IfOk};
ghost use Rattle.tecmp.specs.Entries.{counted};
ghost use Rattle.tecmp.specs.Packets.{head_in, read_in, packet_entries};
ghost use Rattle.tecmp.specs.Reading.{head_reading, here, of_rest_by};
ghost use Rattle.tecmp.specs.Views.{answered};

use crate::entries::PacketEntries;
use crate::entry::{EntryRead, has_time};
use crate::head::{Head, Stream, read_head};
use crate::rest::Rest;
use records::refusal::Refusal;
use records::registry::Registry;

// Where the first entry of a packet begins.
pub const FIRST_ENTRY: usize = 12;

const PADDED_LIMIT: usize = 46;

// A packet with the head that was read of it. Its entries are read by what that head says, whichever it is.
#[derive_where(Clone, Copy)]
pub struct Packet<'r, 'p, R> {
    pub registry: &'r R,
    pub head: Head,
    pub bytes: &'p [u8],
}

impl<'r, 'p, R: Registry> Packet<'r, 'p, R> {
    // Tests 1 to 7 of a packet; where a stream is given, the packet has to be of it.
    pub fn open(registry: &'r R, stream: Option<Stream>, bytes: &'p [u8]) -> Result<Self, Refusal>
        ensures head { head_in result ≡ head_reading (R.Registry.services registry.now) stream bytes.now }
        ensures of { IfOk result (λ packet. (packet.registry.now ≡ registry.now) × (packet.bytes.now ≡ bytes.now)) }
    {
        let head = read_head(registry, stream, bytes)?;
        Ok(Packet {
            registry,
            head,
            bytes,
        })
    }

    // The entry at an offset, with the offset after it; or that none is left.
    pub fn read(&self, offset: usize) -> Result<Option<EntryRead<'p>>, Refusal>
        ensures { answered result ≡ read_in R.Registry.services self.now offset }
    {
        if offset < FIRST_ENTRY || offset > self.bytes.len() {
            return Err(Refusal::PastEnd { offset });
        }
        self.read_rest(Rest {
            offset,
            bytes: &self.bytes[offset..],
        })
    }

    // What comes where the rest of the packet begins.
    fn read_rest(&self, rest: Rest<'p>) -> Result<Option<EntryRead<'p>>, Refusal>
        ensures { answered result ≡ of_rest_by (R.Registry.services self.now.registry.now self.now.head.code) self.now.head.shares self.now.head.code (length self.now.bytes.now) rest.entry.offset rest.entry.bytes.now }
    {
        let offset = rest.offset;
        if rest.bytes.is_empty() {
            return Ok(None);
        }
        if offset > FIRST_ENTRY {
            if rest.is_padding() {
                return if self.bytes.len() > PADDED_LIMIT {
                    Err(Refusal::Padding { offset })
                } else {
                    Ok(None)
                };
            }
            if !self.head.shares {
                return Err(Refusal::NotShared { offset });
            }
        }
        // the only call of it, so that it is read in place: an answer handed from call to call is copied each time
        self.read_here(rest)
    }

    // The entry that the rest of the packet begins with.
    fn read_here(&self, rest: Rest<'p>) -> Result<Option<EntryRead<'p>>, Refusal>
        ensures { answered result ≡ here (R.Registry.services self.now.registry.now self.now.head.code) self.now.head.code rest.entry.offset rest.entry.bytes.now }
    {
        let code = self.head.code;
        let offset = rest.offset;
        let [_, _, _, _, _, _, _, _, _, _, _, _, l0, l1, _, _, after @ ..] = rest.bytes else {
            return Err(Refusal::PastEnd { offset });
        };
        let length = usize::from(u16::from_be_bytes([*l0, *l1]));
        if length == 0 {
            return Err(Refusal::NoData { offset });
        }
        if length > after.len() {
            return Err(Refusal::PastEnd { offset });
        }
        let (entry, next) = rest.entry(code);
        if !has_time(code.message_type, entry.time) {
            return Err(Refusal::NoTime { offset });
        }
        self.registry
            .check(code, entry.flags, entry.data)
            .map_err(|_| Refusal::Record { offset })?;
        Ok(Some(EntryRead { entry, next }))
    }

    // The entries, one after the other.
    pub fn entries(&self) -> PacketEntries<'r, 'p, R>
        ensures { result ≡ record { packet = self.now; next = Some 12 } }
    {
        PacketEntries {
            packet: *self,
            next: Some(FIRST_ENTRY),
        }
    }

    // Counts the entries.
    pub fn count(&self) -> Result<usize, Refusal>
        ensures { result ≡ counted 0 (packet_entries R.Registry.services self.now 12) }
    {
        // a loop, since nothing bounds the sum inside a closure of `try_fold`
        let mut count = 0;
        for entry in self.entries() {
            entry?;
            count += 1;
        }
        Ok(count)
    }
}
