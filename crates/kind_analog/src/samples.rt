// The samples of an analog record as bytes, big-endian. A sample counts steps; a step is some ten-thousandths of the unit.
ghost use Rattle.std.specs.Prelude.{◌≡◌, [], ◌∷◌, MatchOption, ◌+◌, ◌*◌, ◌/◌, ◌%◌, ◌<◌, length, pos, Some, FitsSigned, int_div, slice_get, slice_index, ◌*ℤ◌};
ghost use Rattle.std.specs.Int.{w16};
ghost use Rattle.kind_analog.specs.Analog.{sample, is_multiple, all_multiples, least_factor, sample_bytes, samples_of, Fitting};
ghost use Rattle.kind_analog.specs.Places.{put_at};
ghost use Rattle.kind_analog.specs.Settings.{factor_number, step_of};
ghost use Rattle.kind_analog.specs.Readings.{values_in};

use crate::setting::Factor;

// Data with the factor at which its samples are counted.
#[derive(Clone, Copy)]
pub(crate) struct Samples<'d> {
    pub(crate) bytes: &'d [u8],
    pub(crate) factor: Factor,
}

// What one sample stands for, in ten-thousandths of the unit.
fn value_of(bytes: [u8; 2], factor: Factor) -> i32
    ensures { result ≡ sample (slice_index bytes 0) (slice_index bytes 1) *ℤ pos (step_of factor) }
{
    let sample = i16::from_be_bytes(bytes);
    i32::from(sample) * i32::from(factor.step())
}

fn is_multiple(value: i32, of: Factor) -> bool
    ensures { result ≡ is_multiple (step_of of) value }
{
    value % i32::from(of.step()) == 0
}

fn sample_bytes(value: i32, to: Factor) -> [u8; 2]
    requires { FitsSigned w16 (int_div value (pos (step_of to))) }
    ensures { result ≡ sample_bytes (int_div value (pos (step_of to))) }
{
    let sample = (value / i32::from(to.step())) as i16;
    sample.to_be_bytes()
}

// Writes one value as a sample counted at a factor.
fn write_sample(value: i32, to: Factor, part: &mut [u8], index: usize)
    requires fits { FitsSigned w16 (int_div value (pos (step_of to))) }
    requires in_bounds { index * 2 + 1 < length part.old }
    ensures { part.new ≡ put_at part.old index (sample_bytes (int_div value (pos (step_of to)))) }
{
    let [high, low] = sample_bytes(value, to);
    part[index * 2] = high;
    part[index * 2 + 1] = low;
}

impl<'d> Samples<'d> {
    // The first value and the samples after it, `None` where there is none.
    pub(crate) fn split_first(&self) -> Option<(i32, Samples<'d>)>
        ensures { MatchOption result (values_in self.now ≡ []) (λ p. values_in self.now ≡ p.0 ∷ values_in p.1) }
    {
        let [high, low, rest @ ..] = self.bytes else {
            return None;
        };
        let value = value_of([*high, *low], self.factor);
        let rest = Samples {
            bytes: rest,
            factor: self.factor,
        };
        Some((value, rest))
    }

    pub(crate) fn count(&self) -> usize
        ensures pairs { result ≡ length self.now.bytes.now / 2 }
        ensures values { result ≡ length (values_in self.now) }
    {
        self.bytes.len() / 2
    }

    fn value_at(&self, index: usize) -> i32
        requires { index * 2 + 1 < length self.now.bytes.now }
        ensures { slice_get (values_in self.now) index ≡ Some result }
    {
        let bytes = [self.bytes[index * 2], self.bytes[index * 2 + 1]];
        value_of(bytes, self.factor)
    }

    // The value of a sample, `None` past the last.
    pub(crate) fn value(&self, index: usize) -> Option<i32>
        ensures { result ≡ slice_get (values_in self.now) index }
    {
        if index >= self.count() {
            return None;
        }
        Some(self.value_at(index))
    }

    // Whether every value is a multiple of the step of a factor.
    fn all_multiples(&self, of: Factor) -> bool
        ensures { result ≡ all_multiples (step_of of) (values_in self.now) }
    {
        // A loop with an index, which samples have as a rule of the project.
        for i in 0..self.count() {
            if !is_multiple(self.value_at(i), of) {
                return false;
            }
        }
        true
    }

    // The least factor at which every value is a multiple of the step.
    pub(crate) fn canonical_factor(&self) -> Factor
        ensures { factor_number result ≡ least_factor (values_in self.now) }
    {
        if self.all_multiples(Factor::Tenth) {
            Factor::Tenth
        } else if self.all_multiples(Factor::Hundredth) {
            Factor::Hundredth
        } else if self.all_multiples(Factor::Thousandth) {
            Factor::Thousandth
        } else {
            Factor::TenThousandth
        }
    }

    // Writes every value as a sample counted at another factor.
    pub(crate) fn write(&self, to: Factor, part: &mut [u8])
        requires whole { length self.now.bytes.now % 2 ≡ 0 }
        requires as_long { length part.old ≡ length self.now.bytes.now }
        requires fitting { Fitting (step_of to) (values_in self.now) }
        ensures { part.new ≡ samples_of (step_of to) (values_in self.now) }
    {
        // An index, as above.
        for i in 0..self.count() {
            write_sample(self.value_at(i), to, part, i);
        }
    }
}
