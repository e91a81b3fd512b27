// The entries of a whole packet: how far the copy would reach with them, and writing them.
ghost use Rattle.std.specs.Prelude.{◌≡◌, ◌≤◌, true, length, is_ok, IfOk};
ghost use Rattle.tecmp.specs.Packets.{packet_entries};
ghost use Rattle.canonical.specs.Calls.{listed};
ghost use Rattle.canonical.specs.States.{after_all, put_all};
ghost use Rattle.canonical.specs.Surveys.{surveyed};

use crate::entry::AcceptedEntry;
use crate::state::Reach;
use records::refusal::Refusal;
use records::registry::Registry;
use tecmp::head::Stream;
use tecmp::packet::Packet;

// Looks at every entry of a packet whose head was read, and answers how far the copy would reach. Nothing is written.
pub(crate) fn survey<R: Registry>(
    packet: &Packet<'_, '_, R>,
    extent: &Reach,
) -> Result<Reach, Refusal>
    requires { (extent.now.length ≤ 16777216) × (length packet.now.bytes.now ≤ 1500) }
    ensures is { result ≡ surveyed (R.Registry.services packet.now.registry.now) extent.now (packet_entries R.Registry.services packet.now 12) }
    ensures bound { IfOk result (λ reached. reached.length ≤ 33554432) }
{
    let mut reached = extent.again();
    for entry in packet.entries() {
        let entry = AcceptedEntry::checked(packet.registry, entry?);
        reached = reached.extend(&entry);
    }
    Ok(reached)
}

// Writes the entries of a packet that was surveyed and fits, and answers how far the copy then reaches. This call cannot refuse.
pub(crate) fn enter_all<R: Registry>(
    packet: &Packet<'_, '_, R>,
    stream: Stream,
    extent: Reach,
    out: &mut [u8],
) -> Reach
    requires read { is_ok (packet_entries R.Registry.services packet.now 12) ≡ true }
    requires bounded { (extent.length ≤ 16777216) × (length out.old ≤ 16777216) }
    requires fits { (after_all (R.Registry.services packet.now.registry.now) extent (listed (packet_entries R.Registry.services packet.now 12))).length ≤ length out.old }
    ensures extent { result ≡ after_all (R.Registry.services packet.now.registry.now) extent (listed (packet_entries R.Registry.services packet.now 12)) }
    ensures output { out.new ≡ put_all (R.Registry.services packet.now.registry.now) stream extent (listed (packet_entries R.Registry.services packet.now 12)) out.old }
{
    let mut reached = extent;
    // A `for` would need a `let .. else` that breaks at a refusal, of which this packet has none: it is no plainer.
    let mut entries = packet.entries();
    while let Some(Ok(view)) = entries.next() {
        let entry = AcceptedEntry::checked(packet.registry, view);
        reached = entry.enter(stream, reached, out);
    }
    reached
}
