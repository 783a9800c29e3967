// A guideline chosen at run time.
ghost use Rattle.std.specs.Prelude.{◌≡◌};
ghost use Rattle.pile.specs.Guidelines.{guideline_meaning};
ghost use Rattle.std.proofs.Common.{rules};

use rulebook::{German, Rulebook, Swiss, Verdict};

#[derive(Clone, Copy, Debug, PartialEq, Eq)]
pub enum Guideline {
    Swiss,
    German,
}

impl Rulebook for Guideline {
    ghost meaning = { guideline_meaning };

    ghost lawful = { Prim.search rules };

    fn judge(&mut self, unit: u32, window: &[i32]) -> Verdict {
        match self {
            Guideline::Swiss => Swiss.judge(unit, window),
            Guideline::German => German.judge(unit, window),
        }
    }
}
