// What the program prints of a packet and of the comparison.
use crate::failure::Failure;
use canonical::CanonicalCopy;
use canonical::state::Closed;
use comparison::Comparison;
use readable::EntryText;
use records::refusal::Refusal;
use records::registry::Registry;
use std::io;
use tecmp::head::PACKET_LIMIT;
use tecmp::packet::Packet;

// Room for the canonical copy of one packet: its word, the packet with its filling, and the closing word.
const COPY_ROOM: usize = PACKET_LIMIT + 12;

pub(crate) fn print_packet<R: Registry>(
    rt: &HostRuntime,
    registry: &R,
    name: &str,
    bytes: &[u8],
) -> io::Result<()> {
    let Ok(packet) = Packet::open(registry, None, bytes) else {
        return Ok(());
    };
    let Ok(count) = packet.count() else {
        return Ok(());
    };
    let module = packet.head.stream.module;
    let noun = if count == 1 { "entry" } else { "entries" };
    println!(rt; "{name}: module {module}, {count} {noun}")?;
    for (index, entry) in packet.entries().enumerate() {
        let Ok(entry) = entry else {
            break;
        };
        let entry = EntryText { registry, entry };
        println!(rt; "  entry {index}: {entry}")?;
    }
    print_copy(rt, &packet)
}

// The canonical copy of one packet.
fn copy_packet<R: Registry>(packet: &Packet<'_, '_, R>, out: &mut [u8]) -> Result<Closed, Refusal> {
    let stream = packet.head.stream;
    let direction = u8::from(stream.message_type);
    let mut copy = CanonicalCopy::open(packet.registry, direction, stream.module, out)?;
    copy.take(out, packet.bytes)?;
    copy.close(out).map_err(|(refusal, _copy)| refusal)
}

fn print_copy<R: Registry>(rt: &HostRuntime, packet: &Packet<'_, '_, R>) -> io::Result<()> {
    let mut out = [0; COPY_ROOM];
    match copy_packet(packet, &mut out) {
        Ok(closed) => {
            let noun = if closed.packets == 1 {
                "packet"
            } else {
                "packets"
            };
            println!(rt;
                "  canonical copy: {} bytes, {} {noun}",
                closed.bytes, closed.packets
            )
        }
        Err(refusal) => println!(rt; "  no canonical copy: {refusal}"),
    }
}

pub(crate) fn print_refusal(rt: &HostRuntime, name: &str, refusal: Refusal) -> Result<(), Failure> {
    println!(rt; "{name}: refused with {refusal}")?;
    Err(Failure::Refused)
}

pub(crate) fn print_verdict(rt: &HostRuntime, comparison: Comparison) -> Result<(), Failure> {
    match comparison {
        Comparison::Same { .. } => {
            println!(rt; "same load")?;
            Ok(())
        }
        Comparison::Different { entry, field } => {
            println!(rt; "different load: entry {entry}: {field}")?;
            Err(Failure::Different)
        }
    }
}
