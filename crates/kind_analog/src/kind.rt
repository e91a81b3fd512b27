// The record kind of logged analog records.
ghost use Rattle.std.specs.Prelude.{true};
ghost use Rattle.records.specs.Codecs.{verdict_of};
ghost use Rattle.kind_analog.specs.Analog.{codec, analog_code};
ghost use Rattle.kind_analog.specs.Least.{Serves, NoLesser, Least};
ghost use Rattle.records.proofs.Codecs;
ghost use Rattle.kind_analog.specs.Canonical.{sound};

use crate::record::{check_analog, write_analog};
use records::{MessageType, RecordKind, RecordRefusal, WriteRefusal};

#[derive(Clone, Copy)]
pub struct Analog;

impl RecordKind for Analog {
    const MESSAGE_TYPE: MessageType = MessageType::LoggingStream;

    const DATA_TYPE: u16 = 0x0020;

    const SHARES: bool = true;

    ghost MESSAGE_TYPE = { analog_code.message_type };

    ghost DATA_TYPE = { analog_code.data_type };

    ghost SHARES = { true };

    ghost verdict = { λ _. verdict_of codec };

    ghost lawful = { λ k. Codecs.lawful codec sound };

    fn check(&self, flags: u16, data: &[u8]) -> Result<usize, RecordRefusal> {
        check_analog(flags, data)
    }

    fn write(&self, flags: u16, data: &[u8], part: &mut [u8]) -> Result<u16, WriteRefusal> {
        write_analog(flags, data, part)
    }
}

// A theorem, as a function that ensures it: no factor less than the canonical one serves.
pub fn canonical_factor_is_least()
    ensures { Least }
{
    canonical_factor_serves();
    no_lesser_factor_serves();
}

fn canonical_factor_serves()
    ensures { Serves }
{}

fn no_lesser_factor_serves()
    ensures { NoLesser }
{}
