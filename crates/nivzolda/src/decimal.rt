// A number of hundredths, as it is written: the whole part, a point and two digits.
ghost use Rattle.std.specs.Prelude.{Some};
ghost use Rattle.nivzolda.specs.Lines.{two_decimals};

use std::fmt;

#[derive(Clone, Copy)]
pub struct Hundredths(pub u32);

impl fmt::Display for Hundredths {
    ghost output = { λ x. Some (two_decimals x.0) };

    #[tactic(auto, using(crate::proofs::TwoDigits::two_digits))]
    fn fmt<W: fmt::Write>(&self, f: &mut fmt::Formatter<W>) -> fmt::Result {
        let whole = self.0 / 100;
        let rest = self.0 % 100;
        write!(f, "{whole}.{rest:02}")
    }
}
