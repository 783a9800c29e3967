// What a rulebook answers.
ghost use Rattle.std.specs.Prelude.{◌≡◌, Some};
ghost use Rattle.rulebook.specs.Verdicts.{severity, higher, verdict_word};

use std::fmt;

// The higher, the graver.
#[derive(Clone, Copy, Debug, PartialEq, Eq, PartialOrd, Ord)]
pub enum Verdict {
    // nothing to note
    Fit = 0,
    // to be noted
    Warning = 1,
    // the assay is stopped
    Alarm = 2,
}

impl Verdict {
    pub fn number(self) -> u32
        ensures { result ≡ severity self }
    {
        self as u32
    }

    // The higher of two verdicts.
    pub fn higher(self, other: Verdict) -> Verdict
        ensures { result ≡ higher self other }
    {
        self.max(other)
    }
}

impl fmt::Display for Verdict {
    ghost output = { λ v. Some (verdict_word v) };

    fn fmt<W: fmt::Write>(&self, f: &mut fmt::Formatter<W>) -> fmt::Result {
        f.write_str(match self {
            Verdict::Fit => "fit",
            Verdict::Warning => "warning",
            Verdict::Alarm => "alarm",
        })
    }
}
