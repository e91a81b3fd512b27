// What the flags of an analog record set: unit, sample period and factor.
ghost use Rattle.std.specs.Prelude.{◌≡◌, Some, ◌+◌, ◌*◌, ◌<◌, ◌≤◌};
ghost use Rattle.kind_analog.specs.Settings.{unit_number, unit_read, unit_symbol, period_number, period_read, period_microseconds, factor_number, step_of};
ghost use Rattle.kind_analog.specs.Analog.{unit_field, factor_field, period_field};

use records::RecordRefusal;
use records::bits::field;
use std::fmt;

// Two fields by their names, each one call of the generic `field`.
pub(crate) fn unit_field(flags: u16) -> u16
    ensures { result ≡ unit_field flags }
{
    field(flags, 2, 3)
}

pub(crate) fn period_field(flags: u16) -> u16
    ensures { result ≡ period_field flags }
{
    field(flags, 11, 4)
}

#[derive(Clone, Copy, PartialEq, Eq, Debug)]
pub enum Unit {
    Volt,
    Ampere,
    Watt,
    AmpereHour,
    Celsius,
}

impl From<Unit> for u16 {
    ghost from_gives = { λ unit number. number ≡ unit_number unit };

    fn from(unit: Unit) -> u16 {
        match unit {
            Unit::Volt => 0,
            Unit::Ampere => 1,
            Unit::Watt => 2,
            Unit::AmpereHour => 3,
            Unit::Celsius => 4,
        }
    }
}

// Any other number is refused, as in a record.
impl TryFrom<u16> for Unit {
    type Error = RecordRefusal;

    ghost try_from_gives = { λ number answer. answer ≡ unit_read number };

    fn try_from(number: u16) -> Result<Unit, RecordRefusal> {
        match number {
            0 => Ok(Unit::Volt),
            1 => Ok(Unit::Ampere),
            2 => Ok(Unit::Watt),
            3 => Ok(Unit::AmpereHour),
            4 => Ok(Unit::Celsius),
            _ => Err(RecordRefusal::Setting),
        }
    }
}

// The symbol, as on the bench.
impl fmt::Display for Unit {
    ghost output = { λ unit. Some (unit_symbol unit) };

    fn fmt<W: fmt::Write>(&self, f: &mut fmt::Formatter<W>) -> fmt::Result {
        f.write_str(match self {
            Unit::Volt => "V",
            Unit::Ampere => "A",
            Unit::Watt => "W",
            Unit::AmpereHour => "Ah",
            Unit::Celsius => "°C",
        })
    }
}

// The time from one sample to the next, named in milliseconds or microseconds.
#[derive(Clone, Copy, PartialEq, Eq, Debug)]
pub enum SamplePeriod {
    Ms2500,
    Ms1000,
    Ms500,
    Ms250,
    Ms100,
    Ms50,
    Ms25,
    Ms10,
    Ms5,
    Us2500,
    Ms1,
}

impl From<SamplePeriod> for u16 {
    ghost from_gives = { λ period number. number ≡ period_number period };

    fn from(period: SamplePeriod) -> u16 {
        match period {
            SamplePeriod::Ms2500 => 1,
            SamplePeriod::Ms1000 => 2,
            SamplePeriod::Ms500 => 3,
            SamplePeriod::Ms250 => 4,
            SamplePeriod::Ms100 => 5,
            SamplePeriod::Ms50 => 6,
            SamplePeriod::Ms25 => 7,
            SamplePeriod::Ms10 => 8,
            SamplePeriod::Ms5 => 9,
            SamplePeriod::Us2500 => 10,
            SamplePeriod::Ms1 => 11,
        }
    }
}

// Any other number is refused, as in a record.
impl TryFrom<u16> for SamplePeriod {
    type Error = RecordRefusal;

    ghost try_from_gives = { λ number answer. answer ≡ period_read number };

    fn try_from(number: u16) -> Result<SamplePeriod, RecordRefusal> {
        match number {
            1 => Ok(SamplePeriod::Ms2500),
            2 => Ok(SamplePeriod::Ms1000),
            3 => Ok(SamplePeriod::Ms500),
            4 => Ok(SamplePeriod::Ms250),
            5 => Ok(SamplePeriod::Ms100),
            6 => Ok(SamplePeriod::Ms50),
            7 => Ok(SamplePeriod::Ms25),
            8 => Ok(SamplePeriod::Ms10),
            9 => Ok(SamplePeriod::Ms5),
            10 => Ok(SamplePeriod::Us2500),
            11 => Ok(SamplePeriod::Ms1),
            _ => Err(RecordRefusal::Setting),
        }
    }
}

impl SamplePeriod {
    // A property, not the number, so no `From`.
    pub fn microseconds(self) -> u32
        ensures { result ≡ period_microseconds self }
    {
        match self {
            SamplePeriod::Ms2500 => 2_500_000,
            SamplePeriod::Ms1000 => 1_000_000,
            SamplePeriod::Ms500 => 500_000,
            SamplePeriod::Ms250 => 250_000,
            SamplePeriod::Ms100 => 100_000,
            SamplePeriod::Ms50 => 50_000,
            SamplePeriod::Ms25 => 25_000,
            SamplePeriod::Ms10 => 10_000,
            SamplePeriod::Ms5 => 5_000,
            SamplePeriod::Us2500 => 2_500,
            SamplePeriod::Ms1 => 1_000,
        }
    }
}

// What one sample unit stands for, as a part of the record's unit.
#[derive(Clone, Copy)]
pub(crate) enum Factor {
    Tenth,
    Hundredth,
    Thousandth,
    TenThousandth,
}

impl From<Factor> for u16 {
    ghost from_gives = { λ factor number. (number ≡ factor_number factor) × (number < 4) };

    fn from(factor: Factor) -> u16 {
        match factor {
            Factor::Tenth => 0,
            Factor::Hundredth => 1,
            Factor::Thousandth => 2,
            Factor::TenThousandth => 3,
        }
    }
}

impl Factor {
    // No `From`: of all flags it reads one field.
    pub(crate) fn of_flags(flags: u16) -> Factor
        ensures { factor_number result ≡ factor_field flags }
    {
        match field(flags, 7, 2) {
            0 => Factor::Tenth,
            1 => Factor::Hundredth,
            2 => Factor::Thousandth,
            _ => Factor::TenThousandth,
        }
    }

    // The ten-thousandths of the unit that a sample is counted in.
    pub(crate) fn step(self) -> u16
        ensures step { result ≡ step_of self }
        ensures positive { 0 < result }
        ensures bound { result ≤ 1000 }
    {
        match self {
            Factor::Tenth => 1000,
            Factor::Hundredth => 100,
            Factor::Thousandth => 10,
            Factor::TenThousandth => 1,
        }
    }
}

// The unit and the sample period of flags, with a factor; all other flags are 0.
pub(crate) fn with_factor(flags: u16, factor: Factor) -> u16
    ensures { result ≡ period_field flags * 2048 + factor_number factor * 128 + unit_field flags * 4 }
{
    period_field(flags) * 2048 + u16::from(factor) * 128 + unit_field(flags) * 4
}
