// Calls on a recording, which is a copy however it was written.
use crate::report::{print_closed, print_entry, print_refusal, print_stream};
use crate::script::UNWRITTEN;
use canonical::recopy::recopy;
use copy_reader::reader::read_back;
use kinds::STANDARD;
use records::Numbered;
use tecmp::entry::EntryView;

pub(crate) fn print_read(rt: &HostRuntime, recording: &[u8]) -> anyhow::Result<()> {
    let reader = match read_back(&STANDARD, recording) {
        Ok(reader) => reader,
        Err(refusal) => {
            let number = refusal.number();
            let offset = refusal.offset();
            println!(rt; "  read: refused with {number} at {offset}")?;
            return Ok(());
        }
    };
    let stream = reader.stream();
    let entries: Vec<EntryView<'_>> = reader.collect(rt.alloc())?;
    print_stream(rt, stream, entries.len())?;
    for entry in &entries {
        print_entry(rt, entry)?;
    }
    Ok(())
}

// The output is lent with nothing written to it yet.
pub(crate) fn print_recopied(
    rt: &HostRuntime,
    recording: &[u8],
    out: &mut [u8],
) -> anyhow::Result<()> {
    match recopy(&STANDARD, recording, out) {
        Ok(closed) => print_closed(rt, "recopy", closed, out, UNWRITTEN)?,
        Err(refusal) => {
            let same = out.iter().all(|byte| *byte == UNWRITTEN);
            print_refusal(rt, "recopy", refusal, same)?;
        }
    }
    Ok(())
}
