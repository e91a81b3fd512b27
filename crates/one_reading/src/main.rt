// Makes the canonical copy of one reading, 0.5 A, and prints its words.
#![tactic(auto)]

use canonical::CanonicalCopy;
use canonical::state::Closed;
use kinds::STANDARD;
use records::Refusal;
use std::io;

// Module 64 has logged an analog sample on interface 7 at time 1: a sample each second, in steps of 0.01, ampere.
fn copy_reading(out: &mut [u8]) -> Result<Closed, Refusal> {
    let mut copy = CanonicalCopy::open(&STANDARD, 3, 64, out)?;
    copy.add(out, 0x0020, 7, 1, 0x1084, &[0, 50])?;
    copy.close(out).map_err(|(refusal, _copy)| refusal)
}

fn print_words(rt: &HostRuntime, bytes: &[u8]) -> io::Result<()> {
    for (index, word) in bytes.chunks_exact(4).enumerate() {
        if index > 0 {
            print!(rt; " ")?;
        }
        for byte in word {
            print!(rt; "{byte:02X}")?;
        }
    }
    println!(rt; "")
}

fn main(rt: HostRuntime) -> io::Result<()> {
    let mut out = [0; 100];
    match copy_reading(&mut out) {
        Ok(closed) => print_words(&rt, out.get(..closed.bytes).unwrap_or(&out)),
        Err(refusal) => println!(rt; "refused with {refusal}"),
    }
}
