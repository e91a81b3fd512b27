ghost use Rattle.tecmp.specs.Views.{viewed};
ghost use Rattle.comparison.specs.Comparing.{Differs, Compared};
ghost use Rattle.comparison.specs.Statements.{Accepted};
ghost use Rattle.tecmp.specs.Statements.{stated};

use super::{Comparison, Field, RefusedPacket};
use crate::content::same_sense;
use records::registry::Registry;
use tecmp::entry::EntryView;
use tecmp::packet::Packet;

// The first field in which two accepted entries differ.
fn first_difference<R: Registry>(registry: &R, first: EntryView, second: EntryView) -> Option<Field>
    requires first { Accepted (R.Registry.services registry.now) (viewed first) }
    requires second { Accepted (R.Registry.services registry.now) (viewed second) }
    ensures { Differs (stated (R.Registry.services registry.now) (viewed first.entry)) (stated (R.Registry.services registry.now) (viewed second.entry)) result }
{
    if first.code != second.code {
        return Some(Field::Code);
    }
    if first.interface != second.interface {
        return Some(Field::Interface);
    }
    if first.time != second.time {
        return Some(Field::Time);
    }
    if !same_sense(registry, first, second) {
        return Some(Field::Content);
    }
    None
}

// Whether two packets hold the same load. Each is read to its end first, so that a refusal comes before a difference.
pub fn compare_packets<R: Registry>(
    registry: &R,
    first: &[u8],
    second: &[u8],
) -> Result<Comparison, RefusedPacket>
    ensures { Compared (R.Registry.services registry.now) first.now second.now result }
{
    let first = Packet::open(registry, None, first).map_err(RefusedPacket::First)?;
    let count = first.count().map_err(RefusedPacket::First)?;
    let second = Packet::open(registry, None, second).map_err(RefusedPacket::Second)?;
    let other_count = second.count().map_err(RefusedPacket::Second)?;
    // both are read to their ends by now, so no entry is refused here
    for (entry, (one, other)) in first.entries().zip(second.entries()).enumerate() {
        let one = one.map_err(RefusedPacket::First)?;
        let other = other.map_err(RefusedPacket::Second)?;
        if let Some(field) = first_difference(registry, one, other) {
            return Ok(Comparison::Different { entry, field });
        }
    }
    if count != other_count {
        return Ok(Comparison::Different {
            entry: count.min(other_count),
            field: Field::Presence,
        });
    }
    Ok(Comparison::Same { entries: count })
}
