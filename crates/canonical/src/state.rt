// What a copy keeps of what it has written.
ghost use Rattle.std.specs.Prelude.{◌≡◌, ◌+◌, ◌≤◌, nat_le};
ghost use Rattle.canonical.specs.Calls.{may_open, closed};
ghost use Rattle.canonical.specs.Sound.{Counted};
ghost use Rattle.canonical.specs.States.{nothing, frame, takes_entry, packet_for, joined_in, after};
ghost use Rattle.tecmp.specs.Views.{viewed};

use crate::entry::AcceptedEntry;
use copy_format::{LARGEST_COPY, WORD, filling_of};
use records::refusal::Refusal;
use records::registry::Registry;
use std::marker::Model;
use tecmp::head::{PACKET_LIMIT, Stream};
use tecmp::packet::FIRST_ENTRY;

// The last packet, which entries may still join: where its word stands, its bytes so far, its data type.
// Places in the output here and in `Extent` are numbers, not slices, since the output is lent at each call.
#[derive(Clone, Copy)]
pub struct OpenPacket {
    pub begins: usize,
    pub size: usize,
    pub data_type: u16,
}

// How far a copy reaches: its bytes up to where the closing word will stand, its entries and packets.
#[derive(Clone, Copy, Default)]
pub struct Extent {
    pub length: usize,
    pub entries: u32,
    pub packets: u32,
    pub last: Option<OpenPacket>,
}

// An extent of entries that were counted, which is what the calls here know of it. No bound on the length stands here:
// looking over a packet may lead past the output. Clauses see the extent.
#[derive(Drop)]
pub(crate) struct Reach {
    pub(crate) extent: Extent,
}

impl Model for Reach {
    ghost use Rattle.canonical.specs.declared.state.Extent.{Extent};
    ghost use Rattle.canonical.specs.Sound.{Counted};

    ghost Value = { Extent };

    ghost view = { λ x. x.extent };

    ghost invariant = { λ x. Counted x.extent };

    ghost inverse = { λ x. record { extent = x } };
}

#[derive(Clone, Copy)]
pub struct State {
    pub stream: Stream,
    // the length of the output at opening
    pub capacity: usize,
    pub extent: Extent,
}

// What closing answers: how many bytes, entries and packets the closed copy has.
#[derive(Clone, Copy, PartialEq, Eq, Debug)]
pub struct Closed {
    pub bytes: usize,
    pub entries: u32,
    pub packets: u32,
}

// Whether a copy may be opened in an output of so many bytes.
pub(crate) fn may_open(length: usize) -> bool
    ensures { result ≡ may_open length }
{
    (WORD..=LARGEST_COPY).contains(&length)
}

impl OpenPacket {
    // Whether an entry joins it: the code is the same, shares, and the packet stays within the limit. In a copy the sum never saturates; written so, `takes` need not ask that the packet is small.
    fn takes<R: Registry>(self, entry: &AcceptedEntry<'_, '_, R>) -> bool
        ensures { result ≡ takes_entry (R.Registry.services entry.now.registry.now) self (viewed entry.now.view) }
    {
        self.size.saturating_add(entry.size()) <= PACKET_LIMIT
            && self.data_type == entry.view.code.data_type
            && entry.shares()
    }
}

impl State {
    // What closing answers, with an output of so many bytes.
    pub(crate) fn closed(&self, lent: usize) -> Result<Closed, Refusal>
        requires { self.now.extent.length ≤ 16777216 }
        ensures { result ≡ closed self.now lent }
    {
        let extent = &self.extent;
        if lent != self.capacity {
            return Err(Refusal::OutputLength);
        }
        if extent.entries == 0 {
            return Err(Refusal::NoEntries);
        }
        Ok(extent.closing())
    }
}

// A packet of so many bytes with its word and its filling.
fn frame_of(size: usize) -> usize
    requires { size ≤ 3000 }
    ensures { result ≡ frame size }
{
    WORD + (size + filling_of(size))
}

impl Extent {
    // What closing answers.
    pub(crate) fn closing(&self) -> Closed
        requires { self.now.length ≤ 16777216 }
        ensures { result ≡ record { bytes = self.now.length + 4; entries = self.now.entries; packets = self.now.packets } }
    {
        Closed {
            bytes: self.length + WORD,
            entries: self.entries,
            packets: self.packets,
        }
    }
}

impl Reach {
    pub(crate) fn of(extent: Extent) -> Reach
        requires { Counted extent }
        ensures { result ≡ extent }
    {
        Reach { extent }
    }

    // Of no entry.
    pub(crate) fn nothing() -> Reach
        ensures { result ≡ nothing }
    {
        Reach {
            extent: Extent::default(),
        }
    }

    pub(crate) fn extent(&self) -> Extent
        ensures is { result ≡ self.now }
        ensures counted { Counted result }
    {
        self.extent
    }

    // The same once more.
    pub(crate) fn again(&self) -> Reach
        ensures { result ≡ self.now }
    {
        Reach {
            extent: self.extent,
        }
    }

    // The last packet, if the entry joins it.
    pub(crate) fn joined<R: Registry>(&self, entry: &AcceptedEntry<'_, '_, R>) -> Option<OpenPacket>
        ensures { result ≡ joined_in (R.Registry.services entry.now.registry.now) self.now (viewed entry.now.view) }
    {
        let packet = self.extent.last?;
        packet.takes(entry).then_some(packet)
    }

    // The packet that an entry goes into: the one it joins, or a new one, of which only the head is there.
    pub(crate) fn packet_for(&self, joined: Option<OpenPacket>, data_type: u16) -> OpenPacket
        ensures { result ≡ packet_for self.now joined data_type }
    {
        joined.unwrap_or(OpenPacket {
            begins: self.extent.length,
            size: FIRST_ENTRY,
            data_type,
        })
    }

    // Whether the copy with a closing word fits an output of so many bytes.
    pub(crate) fn fits(&self, capacity: usize) -> bool
        requires { self.now.length ≤ 33554432 }
        ensures { result ≡ nat_le (self.now.length + 4) capacity }
    {
        self.extent.length + WORD <= capacity
    }

    // How far the copy reaches with the entry more.
    pub(crate) fn extend<R: Registry>(self, entry: &AcceptedEntry<'_, '_, R>) -> Reach
        requires { self.length ≤ 33554432 }
        ensures is { result ≡ after (R.Registry.services entry.now.registry.now) self (viewed entry.now.view) }
        ensures longer { self.length ≤ result.length }
        ensures bound { result.length ≤ self.length + 1507 }
    {
        let joined = self.joined(entry);
        let packet = self.packet_for(joined, entry.view.code.data_type);
        let size = packet.size + entry.size();
        let extent = Extent {
            length: packet.begins + frame_of(size),
            entries: self.extent.entries + 1,
            packets: self.extent.packets + u32::from(joined.is_none()),
            last: Some(OpenPacket { size, ..packet }),
        };
        Reach { extent }
    }
}
