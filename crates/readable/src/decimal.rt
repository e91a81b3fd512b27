// Ten-thousandths as a decimal number: 5000 is `0.5`.
ghost use Rattle.std.specs.Prelude.{Some};
ghost use Rattle.readable.specs.Decimals.{decimal_text, fraction_text};

use std::fmt;

const ONE: u32 = 10_000;

#[derive(Clone, Copy)]
pub struct Decimal {
    pub ten_thousandths: i32,
}

impl fmt::Display for Decimal {
    ghost output = { λ number. Some (decimal_text number.ten_thousandths) };

    fn fmt<W: fmt::Write>(&self, f: &mut fmt::Formatter<W>) -> fmt::Result {
        let magnitude = self.ten_thousandths.unsigned_abs();
        let sign = if self.ten_thousandths < 0 { "-" } else { "" };
        let whole = magnitude / ONE;
        let fraction = Fraction {
            ten_thousandths: magnitude % ONE,
        };
        write!(f, "{sign}{whole}{fraction}")
    }
}

// What is left of a number below its whole part: under one.
#[derive(Clone, Copy)]
struct Fraction {
    ten_thousandths: u32,
}

// The digits from the left, as long as not all that follow are 0.
impl fmt::Display for Fraction {
    ghost output = { λ fraction. Some (fraction_text fraction.ten_thousandths) };

    fn fmt<W: fmt::Write>(&self, f: &mut fmt::Formatter<W>) -> fmt::Result {
        let rest = self.ten_thousandths;
        let first = rest / 1000;
        let second = rest / 100 % 10;
        let third = rest / 10 % 10;
        let fourth = rest % 10;
        if rest == 0 {
            Ok(())
        } else if rest % 1000 == 0 {
            write!(f, ".{first}")
        } else if rest % 100 == 0 {
            write!(f, ".{first}{second}")
        } else if fourth == 0 {
            write!(f, ".{first}{second}{third}")
        } else {
            write!(f, ".{first}{second}{third}{fourth}")
        }
    }
}
