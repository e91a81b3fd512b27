// Going over the entries of a packet.
use crate::entry::EntryView;
use crate::packet::Packet;
use records::refusal::Refusal;
use records::registry::Registry;

// The entries of a packet, one after the other: it ends after the last, or after a refusal.
#[derive_where(Clone, Copy)]
pub struct PacketEntries<'r, 'p, R> {
    pub packet: Packet<'r, 'p, R>,
    // where the next one is read; after the end nowhere
    pub next: Option<usize>,
}

impl<'r, 'p, R: Registry> Iterator for PacketEntries<'r, 'p, R> {
    type Item = Result<EntryView<'p>, Refusal>;

    ghost use Rattle.std.specs.Iterator.{at_most};
    ghost use Rattle.tecmp.specs.Steps.{Steps, steps_left};

    ghost next_gives = { Steps R.Registry.services };

    ghost remaining = { λ s. at_most (steps_left s) };

    fn next(&mut self) -> Option<Result<EntryView<'p>, Refusal>> {
        let offset = self.next.take()?;
        match self.packet.read(offset) {
            Ok(Some(read)) => {
                self.next = Some(read.next);
                Some(Ok(read.entry))
            }
            Ok(None) => None,
            Err(refusal) => Some(Err(refusal)),
        }
    }
}
