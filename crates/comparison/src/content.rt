// Whether two records of one code say the same, decided by their canonical encodings.
ghost use Rattle.std.specs.Prelude.{◌≡◌, length, Decides};
ghost use Rattle.records.specs.Verdicts.{Bytes};
ghost use Rattle.tecmp.specs.Views.{viewed};
ghost use Rattle.comparison.specs.Encodings.{Encodes};
ghost use Rattle.comparison.specs.Statements.{Accepted, InRange};
ghost use Rattle.tecmp.specs.Statements.{sense_in};

use records::kind::DATA_LIMIT;
use records::registry::Registry;
use tecmp::entry::EntryView;

#[derive(Clone, Copy, PartialEq, Eq)]
struct Encoding<'b> {
    flags: u16,
    data: &'b [u8],
}

// The canonical encoding of an entry's record, its data in a part of the buffer; none where the record is refused or
// the buffer is too short.
fn encode<'b, R: Registry>(
    registry: &R,
    entry: EntryView,
    buffer: &'b mut [u8],
) -> Option<Encoding<'b>>
    ensures encodes { Encodes (R.Registry.services registry.now) (viewed entry.entry) (length buffer.old) result }
    ensures fits { InRange (viewed entry.entry) }
{
    data_is_bytes(entry.data);
    let length = registry.check(entry.code, entry.flags, entry.data).ok()?;
    let part = buffer.get_mut(..length)?;
    let flags = registry
        .write(entry.code, entry.flags, entry.data, part)
        .ok()?;
    Some(Encoding { flags, data: part })
}

// What the type says of a slice; of a view's field a proof learns it only by a call that is lent the slice.
fn data_is_bytes(data: &[u8])
    ensures { Bytes «data».now }
{}

// Whether two accepted records of one code say the same. That they are accepted is a clause here and in
// `first_difference`, not a type: the iterator that gives the entries would have to carry it, and the registry in it, through every step.
pub(crate) fn same_sense<R: Registry>(registry: &R, first: EntryView, second: EntryView) -> bool
    requires one_code { first.code ≡ second.code }
    requires first { Accepted (R.Registry.services registry.now) (viewed first) }
    requires second { Accepted (R.Registry.services registry.now) (viewed second) }
    ensures { Decides result (sense_in (R.Registry.services registry.now) (viewed first.entry) ≡ sense_in (R.Registry.services registry.now) (viewed second.entry)) }
{
    let mut buffer = [0; DATA_LIMIT];
    let mut other_buffer = [0; DATA_LIMIT];
    encode(registry, first, &mut buffer) == encode(registry, second, &mut other_buffer)
}
