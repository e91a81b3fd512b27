// The calls on a copy. The output is lent at each; a refused call leaves copy and output as they were.
ghost use Rattle.std.specs.Prelude.{◌≡◌, ◌+◌, ◌≤◌, length, Ok as Done, IfOk};
ghost use Rattle.records.specs.Codes.{type_of};
ghost use Rattle.records.specs.Tests.{tested};
ghost use Rattle.tecmp.specs.Views.{viewed};
ghost use Rattle.canonical.specs.Calls.{stream_of, opened, addition, add_tests, Adds, taken, Takes, KeepsBeyond};
ghost use Rattle.canonical.specs.States.{after};
ghost use Rattle.canonical.specs.Copies.{Opened, emptied, Taken, ClosedWith};

use super::CanonicalCopy;
use crate::bytes::{WordKind, put};
use crate::entry::AcceptedEntry;
use crate::packet::{enter_all, survey};
use crate::state::{Closed, Extent, Reach, State, may_open};
use records::code::{Code, MessageType};
use records::kind::DATA_LIMIT;
use records::refusal::{LookupRefusal, Refusal};
use records::registry::Registry;
use tecmp::entry::{EntryView, has_time, time_of};
use tecmp::head::{LAST_MODULE, Stream};
use tecmp::packet::Packet;

// Logged copies are of a module up to 255, replay copies of module 0. Both are numbers, since others are refused.
fn stream_of(direction: u8, module: u16) -> Option<Stream>
    ensures { result ≡ stream_of (type_of direction) «module» }
{
    let message_type = MessageType::try_from(direction).ok()?;
    let last = match message_type {
        MessageType::LoggingStream => LAST_MODULE,
        MessageType::ReplayData => 0,
    };
    (module <= last).then_some(Stream {
        message_type,
        module,
    })
}

impl<'r, R: Registry> CanonicalCopy<'r, R> {
    // Opens a copy of a direction (3 logged, 10 replay) and a module. Nothing is written.
    // The direction is a number, since any other one is refused here.
    pub fn open(registry: &'r R, direction: u8, module: u16, out: &[u8]) -> Result<Self, Refusal>
        ensures { Opened registry.now (opened direction «module» (length out.now)) result }
    {
        let stream = stream_of(direction, module).ok_or(Refusal::Opening)?;
        let capacity = out.len();
        if !may_open(capacity) {
            return Err(Refusal::OutputLength);
        }
        let state = State {
            stream,
            capacity,
            extent: Extent::default(),
        };
        Ok(CanonicalCopy { registry, state })
    }

    // How far the copy reaches.
    fn reach(&self) -> Reach
        ensures { result ≡ self.now.state.extent }
    {
        Reach::of(self.state.extent)
    }

    // Tests an entry to be added, with an output of so many bytes.
    fn judge<'p>(
        &self,
        lent: usize,
        entry: EntryView<'p>,
    ) -> Result<AcceptedEntry<'r, 'p, R>, Refusal>
        ensures answer { emptied result ≡ tested (add_tests (R.Registry.services self.now.registry.now) self.now.state (viewed entry.entry) lent) (Done tt) }
        ensures entry { IfOk result (λ accepted. (accepted.registry.now ≡ self.now.registry.now) × (viewed accepted.view ≡ viewed entry.entry)) }
        ensures fits { IfOk result (λ accepted. (after (R.Registry.services self.now.registry.now) self.now.state.extent (viewed entry.entry)).length + 4 ≤ self.now.state.capacity) }
    {
        // in an added entry every offset is 0, as a rule of the format
        let offset = 0;
        let state = &self.state;
        if lent != state.capacity {
            return Err(Refusal::OutputLength);
        }
        if entry.data.is_empty() {
            return Err(Refusal::NoData { offset });
        }
        if entry.data.len() > DATA_LIMIT {
            return Err(Refusal::TooLong);
        }
        if !has_time(state.stream.message_type, entry.time) {
            return Err(Refusal::NoTime { offset });
        }
        let accepted = AcceptedEntry::check(self.registry, entry).map_err(
            |refusal| match refusal {
                LookupRefusal::UnknownCode => Refusal::UnknownCode,
                LookupRefusal::Kind(_) => Refusal::Record { offset },
            },
        )?;
        if !self.reach().extend(&accepted).fits(state.capacity) {
            return Err(Refusal::OutputFull);
        }
        Ok(accepted)
    }

    // Adds an entry in its canonical encoding: to the last packet where it may join it, else to a new one.
    pub fn add(
        &mut self,
        out: &mut [u8],
        data_type: u16,
        interface: u32,
        time_word: u64,
        flags: u16,
        data: &[u8],
    ) -> Result<(), Refusal>
        ensures answer { Adds (R.Registry.services self.old.registry.now) self.old.state out.old (addition data_type interface time_word flags «data».now) result self.new.state out.new }
        ensures registry { self.new.registry ≡ self.old.registry }
    {
        let stream = self.state.stream;
        let message_type = stream.message_type;
        let entry = EntryView {
            code: Code {
                message_type,
                data_type,
            },
            interface,
            time: time_of(message_type, time_word),
            flags,
            data,
            data_offset: 0,
        };
        let accepted = self.judge(out.len(), entry)?;
        self.state.extent = accepted.enter(stream, self.reach(), out).extent();
        Ok(())
    }

    // Tests a packet to be taken, with an output of so many bytes.
    fn judge_packet<'p>(&self, lent: usize, bytes: &'p [u8]) -> Result<Packet<'r, 'p, R>, Refusal>
        ensures answer { emptied result ≡ taken (R.Registry.services self.now.registry.now) self.now.state bytes.now lent }
        ensures packet { IfOk result (λ packet. Taken (R.Registry.services) self.now packet bytes.now) }
    {
        let state = &self.state;
        if lent != state.capacity {
            return Err(Refusal::OutputLength);
        }
        let packet = Packet::open(self.registry, Some(state.stream), bytes)?;
        let reached = survey(&packet, &self.reach())?;
        if !reached.fits(state.capacity) {
            return Err(Refusal::OutputFull);
        }
        Ok(packet)
    }

    // Adds all entries of a packet, or none: each in its canonical encoding, as `add` would.
    pub fn take(&mut self, out: &mut [u8], packet: &[u8]) -> Result<(), Refusal>
        ensures answer { Takes (R.Registry.services self.old.registry.now) self.old.state out.old packet.now result self.new.state out.new }
        ensures registry { self.new.registry ≡ self.old.registry }
    {
        let packet = self.judge_packet(out.len(), packet)?;
        self.state.extent = enter_all(&packet, self.state.stream, self.reach(), out).extent();
        Ok(())
    }

    // Closes the copy: writes the closing word and uses the copy up. Refused, it hands the copy back.
    pub fn close(self, out: &mut [u8]) -> Result<Closed, (Refusal, Self)>
        ensures closes { ClosedWith (R.Registry.services self.entry.registry.now) self.entry out.old out.new result }
        ensures within { IfOk result (λ closed. closed.bytes ≤ length out.old) }
        ensures beyond { KeepsBeyond (R.Registry.services self.entry.registry.now) }
    {
        let closed = match self.state.closed(out.len()) {
            Ok(closed) => closed,
            Err(refusal) => return Err((refusal, self)),
        };
        let extent = self.state.extent;
        put(out, extent.length, &WordKind::Closing.word(extent.entries));
        Ok(closed)
    }
}
