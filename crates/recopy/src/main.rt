// recopy: reads one copy from standard input, and writes its canonical copy to standard output.
#![tactic(auto)]

use canonical::recopy::recopy;
use kinds::STANDARD;
use records::refusal::{Numbered, Refusal};
use std::io;
use std::io::{Read, Write};
use std::process::ExitCode;

// The most bytes of a copy to read, and of the canonical copy.
const LIMIT: usize = 65_536;

// The kind of the word that stands for a refusal, in its top four bits.
const REFUSAL: u32 = 15 << 28;

// The copy on standard input. Of a longer one only the byte past the limit is read.
fn read_recording(rt: &HostRuntime) -> io::Result<Vec<u8>> {
    let mut recording = Vec::new(rt.alloc());
    rt.reader()
        .take(LIMIT as u64 + 1)
        .read_to_end(&mut recording)?;
    Ok(recording)
}

// The canonical copy, written into the output.
fn canonical_copy<'o>(recording: &[u8], out: &'o mut [u8]) -> Result<&'o [u8], Refusal> {
    if recording.len() > LIMIT {
        return Err(Refusal::OutputLength);
    }
    let closed = recopy(&STANDARD, recording, out)?;
    Ok(&out[..closed.bytes])
}

// Writes the canonical copy, or one word with the refusal's number.
fn run(rt: &HostRuntime) -> io::Result<ExitCode> {
    let recording = read_recording(rt)?;
    let mut out = [0; LIMIT];
    let mut output = io::writer(rt);
    match canonical_copy(&recording, &mut out) {
        Ok(copy) => {
            output.write_all(copy)?;
            Ok(ExitCode::SUCCESS)
        }
        Err(refusal) => {
            let word = REFUSAL + u32::from(refusal.number());
            output.write_all(&word.to_be_bytes())?;
            eprintln!(rt; "recopy: refused with {refusal}")?;
            Ok(ExitCode::FAILURE)
        }
    }
}

fn main(rt: HostRuntime) -> ExitCode {
    match run(&rt) {
        Ok(code) => code,
        Err(error) => {
            // where standard error fails too, only the status is left
            let _said = eprintln!(rt; "recopy: {error}");
            ExitCode::FAILURE
        }
    }
}
