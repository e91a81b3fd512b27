// Reading a packet, entry by entry.
ghost use Rattle.std.specs.Prelude.{◌≡◌, None};
ghost use Rattle.tecmp.specs.Entries.{ByReading, counted, entries};
ghost use Rattle.tecmp.specs.Reading.{reading};
ghost use Rattle.tecmp.specs.Views.{answered};

use crate::entry::EntryRead;
pub use crate::packet::FIRST_ENTRY;
use crate::packet::Packet;
use records::refusal::Refusal;
use records::registry::Registry;

// Registry and packet as they are handed in; whoever reads on opens a `Packet`.

// The entry at an offset of a packet, with the offset after it; or that none is left.
pub fn read_entry<'p, R: Registry>(
    registry: &R,
    packet: &'p [u8],
    offset: usize,
) -> Result<Option<EntryRead<'p>>, Refusal>
    ensures { answered result ≡ reading (R.Registry.services registry.now) packet.now offset }
{
    Packet::open(registry, None, packet)?.read(offset)
}

// Tests a whole packet, and counts its entries: those that reading gives, one after the other.
pub fn count_entries<R: Registry>(registry: &R, packet: &[u8]) -> Result<usize, Refusal>
    ensures count { result ≡ counted 0 (entries (R.Registry.services registry.now) None packet.now) }
    ensures walk { ByReading }
{
    Packet::open(registry, None, packet)?.count()
}

// A theorem, as a function that ensures it: a packet's entries are what `read_entry` gives, one after the other.
pub fn entries_by_reading()
    ensures { ByReading }
{}
