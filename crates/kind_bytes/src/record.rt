// Checking and writing records of plain bytes.
ghost use Rattle.std.specs.Prelude.{◌≡◌, map, length, Ok};
ghost use Rattle.records.specs.Codecs.{verdict_of};
ghost use Rattle.records.specs.Verdicts.{checked, written, canonical_flags, canonical_data, Filled};
ghost use Rattle.kind_bytes.specs.Layouts.{codec, layout_of, low7};

use crate::content::{Content, SymbolWidth};
use records::{RecordRefusal, WriteRefusal};

// Content, flags and data stay three parameters, and what is of two of them (the part's length, the verdict written out) a clause: each is read by itself in every clause.

// The length of the canonical data, or the refusal.
pub(crate) fn check_bytes(content: Content, flags: u16, data: &[u8]) -> Result<usize, RecordRefusal>
    ensures { result ≡ checked (verdict_of (codec (layout_of content)) flags «data».now) }
{
    if !content.allows(data.len()) {
        return Err(RecordRefusal::Length);
    }
    content
        .width(flags & content.mask())
        .map(|_| data.len())
        .ok_or(RecordRefusal::Setting)
}

// Writes the canonical data into a part of just its length; the canonical flags, or the refusal.
pub(crate) fn write_bytes(
    content: Content,
    flags: u16,
    data: &[u8],
    part: &mut [u8],
) -> Result<u16, WriteRefusal>
    ensures answer { result ≡ written (verdict_of (codec (layout_of content)) flags «data».now) (length part.old) }
    ensures part { Filled result (canonical_data (verdict_of (codec (layout_of content)) flags «data».now)) part.old part.new }
{
    // Each family of kinds has these lines: a shared `write` would ask of its last call that the record is accepted, and public calls ask nothing.
    if check_bytes(content, flags, data)? != part.len() {
        return Err(WriteRefusal::PartLength);
    }
    Ok(write_canonical(content, flags, data, part))
}

// Writes the canonical data of an accepted record, and answers its canonical flags. This call cannot refuse.
fn write_canonical(content: Content, flags: u16, data: &[u8], part: &mut [u8]) -> u16
    requires { checked (verdict_of (codec (layout_of content)) flags «data».now) ≡ Ok (length part.old) }
    ensures answer { result ≡ canonical_flags (verdict_of (codec (layout_of content)) flags «data».now) }
    ensures part { part.new ≡ canonical_data (verdict_of (codec (layout_of content)) flags «data».now) }
{
    let flags = flags & content.mask();
    // two steps, which a closure would not make plainer
    match content.width(flags) {
        Some(SymbolWidth::Seven) => write_seven(data, part),
        Some(SymbolWidth::Eight) | None => part.copy_from_slice(data),
    }
    flags
}

// Writes seven-bit symbols: the top bit of each byte is 0.
// Not inlined: among all that a registry's `write` holds, the loop would fetch its part from the stack at each turn.
#[inline(never)]
fn write_seven(data: &[u8], part: &mut [u8])
    requires { length part.old ≡ length «data».now }
    ensures { part.new ≡ map low7 «data».now }
{
    // An index, as a rule of the project: each symbol is folded at its place.
    for i in 0..part.len() {
        part[i] = data[i] & 0x7F;
    }
}
