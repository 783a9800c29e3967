// The interface of every rulebook: one question, and what an implementation owes.
ghost use Rattle.std.specs.Prelude.{◌≡◌};
ghost use Rattle.rulebook.specs.Meanings.{Meaning, SameMeaning};
ghost use Rattle.rulebook.specs.Lawful.{Lawful};

use crate::verdict::Verdict;

// A rulebook judges the newest control of an assay. The unit stands for three standard deviations; the window has the
// deviations of the controls, newest first.
// Unit and window are two parameters, here and in what a rulebook calls: others write rulebooks for this question as it is.
pub trait Rulebook {
    // What the rulebook means: a verdict for each unit and window.
    ghost meaning: { Self → Meaning };

    // The one question. It answers the meaning, and leaves it as it was.
    fn judge(&mut self, unit: u32, window: &[i32]) -> Verdict
        ensures answer { result ≡ meaning self.old unit window.now }
        ensures same { SameMeaning (meaning self.old) (meaning self.new) };

    // What every rulebook owes, over units and deviations of 32 bits.
    ghost lawful: { (b : Self) → Lawful (meaning b) };
}
