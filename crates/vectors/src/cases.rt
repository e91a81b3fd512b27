use crate::hex::{read_bytes, read_word};
use anyhow::anyhow;
use comparison::packets::compare::compare_packets;
use comparison::{Comparison, RefusedPacket};
use kinds::{STANDARD, standard_sharing};
use readable::EntryText;
use records::{Code, MessageType, Numbered, Registry};
use tecmp::reader::read_entry;

// The first word of a line picks the case.
pub(crate) fn answer(rt: &HostRuntime, line: &str) -> anyhow::Result<()> {
    println!(rt; "{line}")?;
    let words: Vec<&str> = line.split_whitespace().collect(rt.alloc())?;
    match words.as_slice() {
        ["read", packet, offset] => read_case(rt, packet, offset.parse::<usize>()?),
        ["record", kind, flags, data] => record_case(rt, kind, read_word(flags), data),
        ["part", kind, flags, data, length] => {
            part_case(rt, kind, read_word(flags), data, length.parse::<usize>()?)
        }
        ["sharing", kind] => sharing_case(rt, kind),
        ["compare", first, second] => compare_case(rt, first, second),
        _ => Ok(()),
    }
}

fn read_case(rt: &HostRuntime, packet: &str, offset: usize) -> anyhow::Result<()> {
    let packet = read_bytes(rt.alloc(), packet)?;
    match read_entry(&STANDARD, &packet, offset) {
        Ok(Some(read)) => {
            let entry = EntryText {
                registry: &STANDARD,
                entry: read.entry,
            };
            let flags = read.entry.flags;
            let data = read.entry.data_offset;
            let length = read.entry.data.len();
            let next = read.next;
            println!(rt;
                "  {entry}; read flags {flags:04x}, {length} bytes at {data}, next {next}"
            )?;
        }
        Ok(None) => println!(rt; "  no entry is left")?,
        Err(refusal) => println!(rt; "  refused with {refusal}")?,
    }
    Ok(())
}

fn read_code(kind: &str) -> anyhow::Result<Code> {
    let Some((number, data_type)) = kind.split_once('/') else {
        return Err(anyhow!("a kind is message type and data type"));
    };
    let message_type = MessageType::try_from(number.parse::<u8>()?).map_err(|_| anyhow!(
        "no such message type"
    ))?;
    Ok(Code {
        message_type,
        data_type: read_word(data_type),
    })
}

fn record_case(rt: &HostRuntime, kind: &str, flags: u16, data: &str) -> anyhow::Result<()> {
    let code = read_code(kind)?;
    let data = read_bytes(rt.alloc(), data)?;
    match STANDARD.check(code, flags, &data) {
        Ok(length) => write_case(rt, code, flags, &data, length),
        Err(refusal) => {
            let number = refusal.number();
            println!(rt; "  refused with {number}")?;
            Ok(())
        }
    }
}

fn part_case(
    rt: &HostRuntime,
    kind: &str,
    flags: u16,
    data: &str,
    length: usize,
) -> anyhow::Result<()> {
    let code = read_code(kind)?;
    let data = read_bytes(rt.alloc(), data)?;
    write_case(rt, code, flags, &data, length)
}

fn write_case(
    rt: &HostRuntime,
    code: Code,
    flags: u16,
    data: &[u8],
    length: usize,
) -> anyhow::Result<()> {
    let mut part = vec![in rt.alloc(); 0xee; length]?;
    match STANDARD.write(code, flags, data, &mut part) {
        Ok(canonical) => print!(rt; "  flags {canonical:04x} data")?,
        Err(refusal) => {
            let number = refusal.number();
            print!(rt; "  refused with {number}, the part stays")?;
        }
    }
    for byte in part.as_slice() {
        print!(rt; " {byte:02x}")?;
    }
    println!(rt; "")?;
    Ok(())
}

fn sharing_case(rt: &HostRuntime, kind: &str) -> anyhow::Result<()> {
    let text = match standard_sharing(read_code(kind)?) {
        Some(true) => "shares packets",
        Some(false) => "does not share packets",
        None => "is not served",
    };
    println!(rt; "  {text}")?;
    Ok(())
}

fn compare_case(rt: &HostRuntime, first: &str, second: &str) -> anyhow::Result<()> {
    let first = read_bytes(rt.alloc(), first)?;
    let second = read_bytes(rt.alloc(), second)?;
    match compare_packets(&STANDARD, &first, &second) {
        Err(RefusedPacket::First(refusal)) => println!(rt; "  first refused with {refusal}")?,
        Err(RefusedPacket::Second(refusal)) => println!(rt; "  second refused with {refusal}")?,
        Ok(Comparison::Same { entries }) => println!(rt; "  same load, entries: {entries}")?,
        Ok(Comparison::Different { entry, field }) => {
            println!(rt; "  different load at entry {entry}: {field:?}")?;
        }
    }
    Ok(())
}
