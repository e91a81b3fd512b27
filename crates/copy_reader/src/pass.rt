// The test of a whole copy: its words in turn, and each packet by its own tests.
ghost use Rattle.std.specs.Prelude.{◌≡◌, ◌+◌, ◌^◌, ◌<◌, ◌≤◌, ◌&&◌, ◌==◌, nat_lt, [], ◌∷◌, length, Some, IfOk};
ghost use Rattle.records.specs.Numbers.{offset_of};
ghost use Rattle.records.specs.Tests.{tested};
ghost use Rattle.records.specs.declared.refusal.Refusal.TheVariants.{MalformedCopy};
ghost use Rattle.tecmp.specs.Entries.{counted, entries};
ghost use Rattle.copy_format.specs.ReadingBack.{moved, all_moved, packets_from, largest_copy};
ghost use Rattle.copy_reader.specs.Passing.{Streams, tried};

use crate::part::{Part, part_of};
use copy_format::{WORD, filling_of};
use records::refusal::Refusal;
use records::registry::Registry;
use tecmp::head::Stream;
use tecmp::packet::Packet;

// A packet's refusal, its offset counted from the start of the copy.
fn moved(base: usize, refusal: Refusal) -> Refusal
    requires { base + offset_of refusal < 2 ^ 64 }
    ensures { result ≡ moved base refusal }
{
    match refusal {
        Refusal::PastEnd { offset } => Refusal::PastEnd {
            offset: base + offset,
        },
        Refusal::NoData { offset } => Refusal::NoData {
            offset: base + offset,
        },
        Refusal::NoTime { offset } => Refusal::NoTime {
            offset: base + offset,
        },
        Refusal::NotShared { offset } => Refusal::NotShared {
            offset: base + offset,
        },
        Refusal::Padding { offset } => Refusal::Padding {
            offset: base + offset,
        },
        Refusal::Record { offset } => Refusal::Record {
            offset: base + offset,
        },
        of_the_whole => of_the_whole,
    }
}

// Tests a packet of a copy, and counts its entries.
fn count_entries<R: Registry>(registry: &R, stream: Stream, bytes: &[u8]) -> Result<usize, Refusal>
    ensures { result ≡ counted 0 (entries (R.Registry.services registry.now) (Some stream) bytes.now) }
{
    Packet::open(registry, Some(stream), bytes)?.count()
}

// The same of the packet that begins at an offset of the copy.
fn count_entries_at<R: Registry>(
    registry: &R,
    stream: Stream,
    base: usize,
    bytes: &[u8],
) -> Result<usize, Refusal>
    requires { base + length bytes.now ≤ largest_copy }
    ensures is { result ≡ counted 0 (all_moved base (entries (R.Registry.services registry.now) (Some stream) bytes.now)) }
    ensures few { IfOk result (λ count. count ≤ length bytes.now) }
{
    match count_entries(registry, stream, bytes) {
        Ok(count) => Ok(count),
        Err(refusal) => Err(moved(base, refusal)),
    }
}

// Tests a closing word: that nothing follows it, and that it counts the entries, of which there is at least one.
fn test_end(last: bool, count: usize, total: u32) -> Result<(), Refusal>
    ensures { result ≡ tested ((last && (total == count && nat_lt 0 total), MalformedCopy) ∷ []) (Ok tt) }
{
    if last && total as usize == count && total > 0 {
        Ok(())
    } else {
        Err(Refusal::MalformedCopy)
    }
}

// Tests the words of a copy of a stream, from the first to the closing one.
pub(crate) fn test_words<R: Registry>(
    registry: &R,
    stream: Stream,
    copy: &[u8],
) -> Result<(), Refusal>
    requires { length copy.now ≤ largest_copy }
    ensures { result ≡ tried (packets_from (R.Registry.services registry.now) stream copy.now 0 0) }
{
    let mut offset = 0;
    let mut count = 0;
    loop {
        match part_of(&copy[offset..])? {
            Part::Packet(bytes) => {
                let base = offset + WORD;
                count += count_entries_at(registry, stream, base, bytes)?;
                offset = base + bytes.len() + filling_of(bytes.len());
            }
            Part::Closing(total) => {
                return test_end(copy.len() == offset + WORD, count, total);
            }
        }
    }
}

// The stream of the copy's first packet; or why the copy is refused there.
pub(crate) fn first_stream<R: Registry>(registry: &R, copy: &[u8]) -> Result<Stream, Refusal>
    ensures { Streams (R.Registry.services registry.now) copy.now result }
{
    match part_of(copy)? {
        Part::Packet(bytes) => Ok(Packet::open(registry, None, bytes)?.head.stream),
        // no entry comes before it
        Part::Closing(_) => Err(Refusal::MalformedCopy),
    }
}
