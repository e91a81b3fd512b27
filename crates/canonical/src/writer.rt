// Writing an entry into its packet. No call here can refuse: whatever could be refused was tested before.
ghost use Rattle.std.specs.Prelude.{◌≡◌, ◌+◌, ◌≤◌, length};
ghost use Rattle.tecmp.specs.Views.{viewed};
ghost use Rattle.copy_format.specs.Items.{item_of, size};
ghost use Rattle.canonical.specs.States.{appended, frame, packet_for, begun, after, put as put_entry};

use crate::bytes::{WordKind, entry_head, packet_head, put, put_filling};
use crate::entry::AcceptedEntry;
use crate::state::{OpenPacket, Reach};
use copy_format::WORD;
use records::registry::Registry;
use tecmp::head::{ENTRY_HEAD, Stream};

impl<R: Registry> AcceptedEntry<'_, '_, R> {
    // Writes the head of a new packet, where the entry joins none.
    fn begin(&self, stream: Stream, extent: &Reach, joined: Option<OpenPacket>, out: &mut [u8])
        requires { ((packet_for extent.now joined self.now.view.code.data_type).begins + 16 ≤ length out.old) × (extent.now.packets ≤ 16777216) }
        ensures { out.new ≡ begun stream extent.now joined self.now.view.code.data_type out.old }
    {
        if joined.is_none() {
            let number = extent.extent.packets + 1;
            let head = packet_head(stream, number, self.view.code.data_type);
            put(out, extent.extent.length + WORD, &head);
        }
    }

    // Writes the entry after what its packet holds: the packet's word anew, the entry with its canonical data, the filling.
    fn append(&self, packet: OpenPacket, out: &mut [u8])
        requires { let n = packet.size + size (item_of (R.Registry.services self.now.registry.now) (viewed self.now.view)) in (n ≤ 1500) × (packet.begins + frame n ≤ length out.old) }
        ensures { out.new ≡ appended packet (item_of (R.Registry.services self.now.registry.now) (viewed self.now.view)) out.old }
    {
        let size = packet.size + self.size();
        put(out, packet.begins, &WordKind::Packet.word(size as u32));
        let begins = packet.begins + WORD + packet.size;
        let data = begins + ENTRY_HEAD;
        let flags = self.write(&mut out[data..data + self.count]);
        let head = entry_head(
            self.view.interface,
            self.view.time,
            self.count as u16,
            flags,
        );
        put(out, begins, &head);
        put_filling(out, data + self.count, size);
    }

    // Writes the entry, which fits, and answers how far the copy then reaches.
    pub(crate) fn enter(&self, stream: Stream, extent: Reach, out: &mut [u8]) -> Reach
        requires bounded { extent.length ≤ 16777216 }
        requires fits { (after (R.Registry.services self.now.registry.now) extent (viewed self.now.view)).length ≤ length out.old }
        ensures extent { result ≡ after (R.Registry.services self.now.registry.now) extent (viewed self.now.view) }
        ensures output { out.new ≡ put_entry (R.Registry.services self.now.registry.now) stream extent (viewed self.now.view) out.old }
    {
        let joined = extent.joined(self);
        self.begin(stream, &extent, joined, out);
        let packet = extent.packet_for(joined, self.view.code.data_type);
        self.append(packet, out);
        extent.extend(self)
    }
}
