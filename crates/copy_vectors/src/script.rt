// A script: a copy, its output, and what is lent in the output's place at the next call.
use crate::bytes::{read_bytes, read_number};
use crate::recording::{print_read, print_recopied};
use crate::report::{print_closed, print_done, print_refusal};
use anyhow::anyhow;
use canonical::CanonicalCopy;
use kinds::{STANDARD, Standard};
use records::Refusal;
use std::alloc::Global;

// What an output holds before a copy is written to it.
pub(crate) const UNWRITTEN: u8 = 0xee;

type Copy<'r> = CanonicalCopy<'r, Standard>;

#[derive(Drop)]
struct Script<'r> {
    registry: &'r Standard,
    out: Vec<u8>,
    copy: Option<Copy<'r>>,
    lent: Option<Vec<u8>>,
}

pub(crate) fn run(rt: &HostRuntime, line: &str) -> anyhow::Result<()> {
    let alloc = rt.alloc();
    let mut script = Script {
        registry: &STANDARD,
        out: Vec::new(alloc),
        copy: None,
        lent: None,
    };
    for call in line.split(" ; ") {
        let words: Vec<&str> = call.split_whitespace().collect(alloc)?;
        script.call(rt, &words)?;
    }
    Ok(())
}

fn unwritten(alloc: Global, length: &str) -> anyhow::Result<Vec<u8>> {
    let length = length.parse::<usize>()?;
    Ok(vec![in alloc; UNWRITTEN; length]?)
}

// The call on a copy that the words name.
fn call_on(
    alloc: Global,
    copy: &mut Copy<'_>,
    out: &mut [u8],
    words: &[&str],
) -> anyhow::Result<Result<(), Refusal>> {
    match words {
        ["add", data_type, interface, time, flags, bytes] => {
            let data_type = u16::try_from(read_number(data_type))?;
            let flags = u16::try_from(read_number(flags))?;
            let interface = interface.parse::<u32>()?;
            let bytes = read_bytes(alloc, bytes)?;
            Ok(copy.add(out, data_type, interface, read_number(time), flags, &bytes))
        }
        ["take", bytes] => Ok(copy.take(out, &read_bytes(alloc, bytes)?)),
        ["packets", count] => Ok(add_packets(copy, out, count.parse::<u32>()?)),
        _ => Err(anyhow!("no such call")),
    }
}

// A UART entry and a LIN entry in turn: their codes differ, so each begins a packet.
fn add_packets(copy: &mut Copy<'_>, out: &mut [u8], count: u32) -> Result<(), Refusal> {
    for index in 0..count {
        if index % 2 == 0 {
            copy.add(out, 0x10, 7, 1, 0x0004, &[0x41])?;
        } else {
            copy.add(out, 0x04, 7, 1, 0x0100, &[0x3c, 0, 0])?;
        }
    }
    Ok(())
}

impl<'r> Script<'r> {
    fn call(&mut self, rt: &HostRuntime, words: &[&str]) -> anyhow::Result<()> {
        match words {
            ["open", direction, module, length] => {
                self.out = unwritten(rt.alloc(), length)?;
                self.open(rt, direction.parse::<u8>()?, module.parse::<u16>()?)
            }
            ["lend", length] => {
                self.lent = Some(unwritten(rt.alloc(), length)?);
                Ok(())
            }
            ["close"] => self.close(rt),
            ["read", bytes] => print_read(rt, &read_bytes(rt.alloc(), bytes)?),
            ["recopy", bytes, length] => {
                let mut out = unwritten(rt.alloc(), length)?;
                print_recopied(rt, &read_bytes(rt.alloc(), bytes)?, &mut out)
            }
            _ => self.enter(rt, words),
        }
    }

    fn open(&mut self, rt: &HostRuntime, direction: u8, module: u16) -> anyhow::Result<()> {
        match CanonicalCopy::open(self.registry, direction, module, &self.out) {
            Ok(copy) => {
                self.copy = Some(copy);
                print_done(rt, "open")?;
            }
            // opening is lent the output for reading only
            Err(refusal) => print_refusal(rt, "open", refusal, true)?,
        }
        Ok(())
    }

    fn enter(&mut self, rt: &HostRuntime, words: &[&str]) -> anyhow::Result<()> {
        let (Some(copy), Some(name)) = (&mut self.copy, words.first()) else {
            return Err(anyhow!("no copy is open, or no call is named"));
        };
        let mut lent = self.lent.take();
        let out = lent.as_mut().unwrap_or(&mut self.out);
        let before = out.clone()?;
        match call_on(rt.alloc(), copy, out, words)? {
            Ok(()) => print_done(rt, name)?,
            Err(refusal) => print_refusal(rt, name, refusal, *out == before)?,
        }
        Ok(())
    }

    fn close(&mut self, rt: &HostRuntime) -> anyhow::Result<()> {
        let Some(copy) = self.copy.take() else {
            return Err(anyhow!("no copy is open"));
        };
        let mut lent = self.lent.take();
        let out = lent.as_mut().unwrap_or(&mut self.out);
        let before = out.clone()?;
        match copy.close(out) {
            Ok(closed) => print_closed(rt, "close", closed, out, UNWRITTEN)?,
            Err((refusal, back)) => {
                self.copy = Some(back);
                print_refusal(rt, "close", refusal, *out == before)?;
            }
        }
        Ok(())
    }
}
