// What an analog record says: its unit, its sample period and its values.
ghost use Rattle.std.specs.Prelude.{◌≡◌, length, slice_get};
ghost use Rattle.kind_analog.specs.Analog.{reads};
ghost use Rattle.std.specs.Iterator.{YieldsFirst, item_count};
ghost use Rattle.kind_analog.specs.Readings.{values_of, values_left, answered};

use crate::samples::Samples;
use crate::setting::{Factor, SamplePeriod, Unit, period_field, unit_field};
use records::RecordRefusal;

// 700 samples of two bytes
const LONGEST: usize = 1400;

// The samples are private: records that say the same may have different factors.
#[derive(Clone, Copy)]
pub struct AnalogReading<'d> {
    pub unit: Unit,
    pub period: SamplePeriod,
    samples: Samples<'d>,
}

// What flags and data say, or the refusal. Flags that no field holds are passed over.
pub fn read_analog(flags: u16, data: &[u8]) -> Result<AnalogReading<'_>, RecordRefusal>
    ensures { answered result ≡ reads flags «data».now }
{
    if data.len() < 2 || data.len() > LONGEST || data.len() % 2 != 0 {
        return Err(RecordRefusal::Length);
    }
    let unit = Unit::try_from(unit_field(flags))?;
    let period = SamplePeriod::try_from(period_field(flags))?;
    let samples = Samples {
        bytes: data,
        factor: Factor::of_flags(flags),
    };
    Ok(AnalogReading {
        unit,
        period,
        samples,
    })
}

impl<'d> AnalogReading<'d> {
    // The number of samples.
    pub fn len(&self) -> usize
        ensures { result ≡ length (values_of self.now) }
    {
        self.samples.count()
    }

    // The value of a sample in ten-thousandths of the unit, `None` past the last.
    pub fn value(&self, index: usize) -> Option<i32>
        ensures { result ≡ slice_get (values_of self.now) index }
    {
        self.samples.value(index)
    }

    // The values in order, each as `value` gives it.
    pub fn values(&self) -> Values<'d>
        ensures { values_left result ≡ values_of self.now }
    {
        Values {
            samples: self.samples,
        }
    }
}

// The values of a reading that are left.
#[derive(Drop)]
pub struct Values<'d> {
    samples: Samples<'d>,
}

impl Iterator for Values<'_> {
    type Item = i32;

    ghost next_gives = { YieldsFirst values_left };

    ghost remaining = { item_count values_left };

    fn next(&mut self) -> Option<i32> {
        let (value, rest) = self.samples.split_first()?;
        self.samples = rest;
        Some(value)
    }
}
