// Going over the entries of a copy that has passed.
ghost use Rattle.std.specs.Prelude.{◌≡◌, ℕ, ◌≤◌, ◌∷◌, [], length, take, drop, MatchOption};
ghost use Rattle.tecmp.specs.Views.{viewed};
ghost use Rattle.copy_format.specs.ReadingBack.{packet_of, part_of};
ghost use Rattle.copy_reader.specs.Cursors.{entries_left, left_here, left_from, Passed, Sound, Hands, Opens};

use crate::part::{Part, part_of};
use copy_format::{WORD, filling_of};
use records::registry::Registry;
use tecmp::entry::EntryView;
use tecmp::head::Stream;
use tecmp::packet::{FIRST_ENTRY, Packet};

// The packet that is being read.
#[derive_where(Clone, Copy)]
pub(crate) struct Place<'r, 'c, R> {
    pub(crate) packet: Packet<'r, 'c, R>,
    // where the packet begins in the copy
    pub(crate) base: usize,
    // where its next entry begins, counted from the packet's start
    pub(crate) offset: usize,
}

// How far a copy has been handed out.
#[derive_where(Clone, Copy)]
pub(crate) struct Cursor<'r, 'c, R> {
    pub(crate) registry: &'r R,
    pub(crate) stream: Stream,
    pub(crate) copy: &'c [u8],
    pub(crate) place: Option<Place<'r, 'c, R>>,
    // where the word after that packet stands
    pub(crate) next: usize,
    // the entries handed out so far
    pub(crate) handed: usize,
}

impl<'r, 'c, R: Registry> Place<'r, 'c, R> {
    // The next entry, and the place after it; none at the end of the packet, which has passed.
    fn read(self) -> Option<(EntryView<'c>, Self)>
        requires { Passed R.Registry.services self }
        ensures { MatchOption result (entries_left R.Registry.services self.entry ≡ []) (λ read. (entries_left R.Registry.services self.entry ≡ viewed read.0 ∷ entries_left R.Registry.services read.1) × Passed R.Registry.services read.1) }
    {
        match self.packet.read(self.offset) {
            Ok(Some(read)) => {
                let mut entry = read.entry;
                entry.data_offset += self.base;
                let place = Place {
                    offset: read.next,
                    ..self
                };
                Some((entry, place))
            }
            _ => None,
        }
    }
}

impl<'r, 'c, R: Registry> Cursor<'r, 'c, R> {
    // The next entry of the packet that is being read, and the cursor after it.
    fn read_here(self) -> Option<(EntryView<'c>, Self)>
        requires { Sound R.Registry.services self }
        ensures { MatchOption result (left_here R.Registry.services self.entry.place ≡ []) (λ step. Hands R.Registry.services self.entry (viewed step.0) step.1) }
    {
        let (entry, place) = self.place?.read()?;
        let cursor = Cursor {
            place: Some(place),
            handed: self.handed + 1,
            ..self
        };
        Some((entry, cursor))
    }

    // The packet that begins with the next word; none at the closing word.
    fn next_packet(self) -> Option<&'c [u8]>
        requires { self.next ≤ length self.copy.now }
        ensures { let rest = drop self.entry.next self.entry.copy.now in MatchOption result ((size : ℕ) → part_of rest ≡ packet_of size → ⊥) (λ bytes. (part_of rest ≡ packet_of (length bytes.now)) × (bytes.now ≡ take (length bytes.now) (drop 4 rest))) }
    {
        match part_of(&self.copy[self.next..]) {
            Ok(Part::Packet(bytes)) => Some(bytes),
            _ => None,
        }
    }

    // The cursor at the first entry of that packet; none at the closing word.
    fn open_next(self) -> Option<Self>
        requires sound { Sound R.Registry.services self }
        requires at_end { left_here R.Registry.services self.place ≡ [] }
        ensures { MatchOption result (left_from R.Registry.services self.entry ≡ []) (Opens R.Registry.services self.entry) }
    {
        let bytes = self.next_packet()?;
        let packet = Packet::open(self.registry, Some(self.stream), bytes).ok()?;
        let base = self.next + WORD;
        let place = Place {
            packet,
            base,
            offset: FIRST_ENTRY,
        };
        Some(Cursor {
            place: Some(place),
            next: base + bytes.len() + filling_of(bytes.len()),
            ..self
        })
    }

    // The next entry, and the cursor after it; none at the end of the copy.
    pub(crate) fn read(self) -> Option<(EntryView<'c>, Self)>
        requires { Sound R.Registry.services self }
        ensures { MatchOption result (left_from R.Registry.services self.entry ≡ []) (λ step. Hands R.Registry.services self.entry (viewed step.0) step.1) }
    {
        if let Some(step) = self.read_here() {
            return Some(step);
        }
        self.open_next()?.read_here()
    }
}
