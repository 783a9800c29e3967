// A value of a control, in hundredths of the assay's unit: from 0 to 99,999.
ghost use Rattle.std.specs.Prelude.{◌≡◌, ◌≤◌, Some};
ghost use Rattle.std.specs.Result.{result_ok};
ghost use Rattle.nivzolda.specs.Values.{value_of, value_in, no_value_words};
ghost use Rattle.nivzolda.specs.Lines.{two_decimals};

use crate::decimal::Hundredths;
use std::error::Error;
use std::fmt;
use std::marker::Model;
use std::str::FromStr;
use text::hundredths;

#[derive(Clone, Copy)]
pub(crate) struct Value {
    hundredths: u32,
}

impl Model for Value {
    ghost use Rattle.std.specs.Prelude.{ℕ, ◌≤◌};

    ghost Value = { ℕ };

    ghost view = { λ v. v.hundredths };

    ghost invariant = { λ v. v.hundredths ≤ 99999 };

    ghost inverse = { λ n. record { hundredths = n } };
}

impl Value {
    pub(crate) fn hundredths(self) -> u32
        ensures value { result ≡ self }
        ensures range { result ≤ 99999 }
    {
        self.hundredths
    }
}

// The value of so many hundredths, where they are in range.
impl TryFrom<u32> for Value {
    type Error = NoValue;

    ghost try_from_gives = { λ n r. result_ok r ≡ value_of n };

    fn try_from(hundredths: u32) -> Result<Value, NoValue> {
        if hundredths > 99_999 {
            return Err(NoValue);
        }
        Ok(Value { hundredths })
    }
}

impl fmt::Display for Value {
    ghost output = { λ x. Some (two_decimals x) };

    fn fmt<W: fmt::Write>(&self, f: &mut fmt::Formatter<W>) -> fmt::Result {
        let value = Hundredths(self.hundredths());
        write!(f, "{value}")
    }
}

// A word that says no value.
#[derive(Clone, Copy, Debug)]
pub(crate) struct NoValue;

impl fmt::Display for NoValue {
    ghost output = { λ x. Some no_value_words };

    fn fmt<W: fmt::Write>(&self, f: &mut fmt::Formatter<W>) -> fmt::Result {
        f.write_str("no value from 0 to 999.99 with at most two decimals")
    }
}

impl Error for NoValue {}

impl FromStr for Value {
    type Err = NoValue;

    ghost from_str_gives = { λ text r. result_ok r ≡ value_in text };

    fn from_str(text: &str) -> Result<Value, NoValue> {
        Value::try_from(hundredths(text.as_bytes()).ok_or(NoValue)?)
    }
}
