// Checking and writing analog records.
ghost use Rattle.std.specs.Prelude.{◌≡◌, length, Ok};
ghost use Rattle.records.specs.Codecs.{verdict_of};
ghost use Rattle.records.specs.Verdicts.{checked, written, canonical_flags, canonical_data, Filled};
ghost use Rattle.kind_analog.specs.Analog.{codec};

use crate::reading::read_analog;
use crate::samples::Samples;
use crate::setting::{Factor, with_factor};
use records::{RecordRefusal, WriteRefusal};

// The length of the canonical data, which is as long as the data, or the refusal.
pub(crate) fn check_analog(flags: u16, data: &[u8]) -> Result<usize, RecordRefusal>
    ensures { result ≡ checked (verdict_of codec flags «data».now) }
{
    read_analog(flags, data)?;
    Ok(data.len())
}

// Writes the canonical data into a part of just its length; the canonical flags, or the refusal.
pub(crate) fn write_analog(flags: u16, data: &[u8], part: &mut [u8]) -> Result<u16, WriteRefusal>
    ensures answer { result ≡ written (verdict_of codec flags «data».now) (length part.old) }
    ensures part { Filled result (canonical_data (verdict_of codec flags «data».now)) part.old part.new }
{
    // Each family of kinds has these lines: a shared `write` would ask of its last call that the record is accepted, and public calls ask nothing.
    if check_analog(flags, data)? != part.len() {
        return Err(WriteRefusal::PartLength);
    }
    Ok(write_canonical(flags, data, part))
}

// Writes the canonical data of an accepted record, and answers its canonical flags. This call cannot refuse.
// What is of two parameters (the part's length, the verdict written out) is a clause: each is read by itself in every clause.
fn write_canonical(flags: u16, data: &[u8], part: &mut [u8]) -> u16
    requires { checked (verdict_of codec flags «data».now) ≡ Ok (length part.old) }
    ensures answer { result ≡ canonical_flags (verdict_of codec flags «data».now) }
    ensures part { part.new ≡ canonical_data (verdict_of codec flags «data».now) }
{
    let samples = Samples {
        bytes: data,
        factor: Factor::of_flags(flags),
    };
    let factor = samples.canonical_factor();
    samples.write(factor, part);
    with_factor(flags, factor)
}
