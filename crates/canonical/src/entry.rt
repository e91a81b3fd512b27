// An entry that a registry has accepted, and what follows of its record.
ghost use Rattle.std.specs.Prelude.{◌≡◌, ◌≤◌, true, length, is_ok, IfOk, IfErr};
ghost use Rattle.records.specs.Services.{checked_by, shares_in, canonical_flags_by, canonical_by};
ghost use Rattle.copy_format.specs.Items.{item_of, size};
ghost use Rattle.tecmp.specs.Views.{viewed};

use records::code::Code;
use records::refusal::{LookupRefusal, RecordRefusal};
use records::registry::Registry;
use tecmp::entry::EntryView;
use tecmp::head::ENTRY_HEAD;

#[derive(Drop)]
pub(crate) struct AcceptedEntry<'r, 'p, R: Registry> {
    pub(crate) registry: &'r R,
    pub(crate) view: EntryView<'p>,
    // how many bytes its canonical data has
    pub(crate) count: usize,
    ghost accepted: { is_ok (checked_by (R.Registry.services registry.now view.code) view.flags view.«data».now) ≡ true },
    ghost counted: { count ≡ length (canonical_by (R.Registry.services registry.now view.code) view.flags view.«data».now) },
    ghost some: { 1 ≤ count },
    ghost bounded: { count ≤ 1472 },
}

// What the registry says of a record. The parts of the entry are passed apart, since their ranges are known only of parameters.
fn check_record<R: Registry>(
    registry: &R,
    code: Code,
    flags: u16,
    data: &[u8],
) -> Result<usize, LookupRefusal<RecordRefusal>>
    ensures is { result ≡ checked_by (R.Registry.services registry.now code) flags «data».now }
    ensures lawful { IfOk result (λ count. (count ≡ length (canonical_by (R.Registry.services registry.now code) flags «data».now)) × ((1 ≤ count) × (count ≤ 1472))) }
{
    registry.check(code, flags, data)
}

impl<'r, 'p, R: Registry> AcceptedEntry<'r, 'p, R> {
    // The entry, if the registry accepts it; or the registry's refusal.
    pub(crate) fn check(
        registry: &'r R,
        view: EntryView<'p>,
    ) -> Result<Self, LookupRefusal<RecordRefusal>>
        ensures entry { IfOk result (λ entry. (entry.registry.now ≡ registry.now) × (viewed entry.view ≡ viewed view.entry)) }
        ensures refusal { IfErr result (λ refusal. checked_by (R.Registry.services registry.now view.entry.code) view.entry.flags view.entry.«data».now ≡ Err refusal) }
    {
        let count = check_record(registry, view.code, view.flags, view.data)?;
        Ok(AcceptedEntry {
            registry,
            view,
            count,
        })
    }

    // An entry that was checked before: what an iterator over a packet gives is accepted, but its type does not say so.
    pub(crate) fn checked(registry: &'r R, view: EntryView<'p>) -> Self
        requires { is_ok (checked_by (R.Registry.services registry.now view.code) view.flags view.«data».now) ≡ true }
        ensures registry { result.registry.now ≡ registry.now }
        ensures view { viewed result.view ≡ viewed view.entry }
    {
        Self::check(registry, view).unwrap()
    }

    // The bytes of the canonical entry, head and data.
    pub(crate) fn size(&self) -> usize
        ensures is { result ≡ size (item_of (R.Registry.services self.now.registry.now) (viewed self.now.view)) }
        ensures some { 17 ≤ result }
        ensures bound { result ≤ 1488 }
    {
        ENTRY_HEAD + self.count
    }

    // Whether it may share a packet.
    pub(crate) fn shares(&self) -> bool
        ensures { result ≡ shares_in (R.Registry.services self.now.registry.now self.now.view.code) }
    {
        self.registry.sharing(self.view.code).unwrap_or(false)
    }

    // Has the record kind write the canonical data into the entry's own bytes, and answers the canonical flags.
    pub(crate) fn write(&self, part: &mut [u8]) -> u16
        requires { length part.old ≡ self.now.count }
        ensures flags { result ≡ canonical_flags_by (R.Registry.services self.now.registry.now self.now.view.code) self.now.view.flags self.now.view.«data».now }
        ensures part { part.new ≡ canonical_by (R.Registry.services self.now.registry.now self.now.view.code) self.now.view.flags self.now.view.«data».now }
    {
        let view = self.view;
        self.registry
            .write(view.code, view.flags, view.data, part)
            .unwrap()
    }
}
