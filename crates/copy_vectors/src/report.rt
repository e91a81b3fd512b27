// What is printed of a call's answer.
use canonical::state::Closed;
use records::{Numbered, Refusal};
use std::io;
use tecmp::entry::EntryView;
use tecmp::head::Stream;

// Longer copies are printed by a checksum and their last words.
const SHORT: usize = 8_192;

const LAST: usize = 80;

// Longer data is printed by its length and a checksum.
const SHORT_DATA: usize = 40;

pub(crate) fn print_done(rt: &HostRuntime, call: &str) -> io::Result<()> {
    println!(rt; "  {call}: ok")
}

// Whether the output is as it was is what the script has seen, and not what the call says.
pub(crate) fn print_refusal(
    rt: &HostRuntime,
    call: &str,
    refusal: Refusal,
    same: bool,
) -> io::Result<()> {
    let number = refusal.number();
    let offset = refusal.offset();
    let output = if same { "as it was" } else { "CHANGED" };
    println!(rt; "  {call}: refused with {number} at {offset}, the output is {output}")
}

pub(crate) fn print_closed(
    rt: &HostRuntime,
    call: &str,
    closed: Closed,
    out: &[u8],
    unwritten: u8,
) -> io::Result<()> {
    let Closed {
        bytes,
        entries,
        packets,
    } = closed;
    println!(rt; "  {call}: ok, {bytes} bytes, {entries} entries, {packets} packets")?;
    let Some((copy, rest)) = out.split_at_checked(bytes) else {
        return println!(rt; "  it is LONGER than the output");
    };
    if rest.iter().any(|byte| *byte != unwritten) {
        println!(rt; "  the output past its end is CHANGED")?;
    }
    if copy.len() <= SHORT {
        return print_words(rt, copy);
    }
    let checksum = checksum(copy);
    print!(rt; "   {checksum:08x} ..")?;
    print_words(rt, &copy[copy.len() - LAST..])
}

// Of a recording that was read back.
pub(crate) fn print_stream(rt: &HostRuntime, stream: Stream, entries: usize) -> io::Result<()> {
    let Stream {
        message_type,
        module,
    } = stream;
    let direction = u8::from(message_type);
    println!(rt; "  read: ok, direction {direction}, module {module}, {entries} entries")
}

// In the order of the call `add`, with the place of its data in the recording.
pub(crate) fn print_entry(rt: &HostRuntime, entry: &EntryView<'_>) -> io::Result<()> {
    let EntryView {
        code,
        interface,
        time,
        flags,
        data,
        data_offset,
    } = *entry;
    let data_type = code.data_type;
    print!(rt; "    {data_type:02x} {interface} {time:x} {flags:04x} ")?;
    if data.len() <= SHORT_DATA {
        for byte in data {
            print!(rt; "{byte:02x}")?;
        }
    } else {
        let length = data.len();
        let checksum = checksum(data);
        print!(rt; "{length} bytes, {checksum:08x}")?;
    }
    println!(rt; " at {data_offset}")
}

// FNV-1a, of 32 bits.
fn checksum(bytes: &[u8]) -> u32 {
    bytes.iter().fold(0x811c_9dc5, |hash: u32, byte| {
        (hash ^ u32::from(*byte)).wrapping_mul(0x0100_0193)
    })
}

// As words of 32 bits; a run of equal ones as the word and how often it stands there.
fn print_words(rt: &HostRuntime, bytes: &[u8]) -> io::Result<()> {
    let words: Vec<&[u8]> = bytes.chunks_exact(4).collect(rt.alloc())?;
    print!(rt; " ")?;
    for run in words.chunk_by(|word, next| *word == *next) {
        print!(rt; " ")?;
        for byte in run.iter().take(1).flat_map(|word| word.iter()) {
            print!(rt; "{byte:02x}")?;
        }
        let times = run.len();
        if times > 1 {
            print!(rt; "*{times}")?;
        }
    }
    println!(rt; "")
}
