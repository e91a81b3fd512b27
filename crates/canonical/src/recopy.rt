// Recopying: the canonical copy of a recording, which is a copy however it was written.
ghost use Rattle.std.specs.Prelude.{◌≡◌, ◌+◌, ◌≤◌, length, nat_le, IfOk};
ghost use Rattle.copy_reader.specs.Readers.{left};
ghost use Rattle.canonical.specs.Recopying.{Recopies, Served, SameAgain, OneCopy};
ghost use Rattle.canonical.specs.States.{nothing, after_all, put_all};

use crate::bytes::{WordKind, put};
use crate::entry::AcceptedEntry;
use crate::state::{Closed, Reach, may_open};
use copy_reader::reader::{CopyReader, read_back};
use records::refusal::Refusal;
use records::registry::Registry;
use tecmp::head::Stream;

// Whether a copy of these entries fits an output of so many bytes. Nothing is written.
fn fits<R: Registry>(registry: &R, entries: CopyReader<'_, '_, R>, capacity: usize) -> bool
    requires served { Served (R.Registry.services registry.now) (left entries) }
    requires bounded { (4 ≤ capacity) × (capacity ≤ 16777216) }
    ensures { result ≡ nat_le ((after_all (R.Registry.services registry.now) nothing (left entries.entry)).length + 4) capacity }
{
    let mut reached = Reach::nothing();
    for view in entries {
        reached = reached.extend(&AcceptedEntry::checked(registry, view));
        if !reached.fits(capacity) {
            return false;
        }
    }
    true
}

// Writes these entries, which fit, and answers how far the copy then reaches.
fn enter_entries<R: Registry>(
    registry: &R,
    entries: CopyReader<'_, '_, R>,
    stream: Stream,
    out: &mut [u8],
) -> Reach
    requires served { Served (R.Registry.services registry.now) (left entries) }
    requires bounded { length out.old ≤ 16777216 }
    requires fits { (after_all (R.Registry.services registry.now) nothing (left entries)).length + 4 ≤ length out.old }
    ensures extent { result ≡ after_all (R.Registry.services registry.now) nothing (left entries.entry) }
    ensures output { out.new ≡ put_all (R.Registry.services registry.now) stream nothing (left entries.entry) out.old }
{
    let mut reached = Reach::nothing();
    for view in entries {
        reached = AcceptedEntry::checked(registry, view).enter(stream, reached, out);
    }
    reached
}

// The canonical copy of a recording, opened as the recording, in front of the output.
pub fn recopy<R: Registry>(
    registry: &R,
    recording: &[u8],
    out: &mut [u8],
) -> Result<Closed, Refusal>
    ensures copy { Recopies (R.Registry.services registry.now) recording.now out.old result out.new }
    ensures within { IfOk result (λ closed. closed.bytes ≤ length out.old) }
    ensures again { SameAgain (R.Registry.services registry.now) }
    ensures one { OneCopy (R.Registry.services registry.now) }
{
    let entries = read_back(registry, recording)?;
    if !may_open(out.len()) {
        return Err(Refusal::OutputLength);
    }
    if !fits(registry, entries.again(), out.len()) {
        return Err(Refusal::OutputFull);
    }
    let stream = entries.stream();
    let reached = enter_entries(registry, entries, stream, out).extent();
    put(
        out,
        reached.length,
        &WordKind::Closing.word(reached.entries),
    );
    Ok(reached.closing())
}
