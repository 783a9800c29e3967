// A series of controls, judged one after the other.
ghost use Rattle.std.specs.Prelude.{◌≡◌, take};
ghost use Rattle.rulebook.specs.Meanings.{SameMeaning};
ghost use Rattle.rulebook.specs.Series.{series, over};

use crate::interface::Rulebook;
use crate::verdict::Verdict;

// The most deviations that a rulebook looks at.
const WINDOW: usize = 12;

// The newest twelve deviations of a window: no others count.
fn newest(window: &[i32]) -> &[i32]
    ensures { result.now ≡ take 12 window.now }
{
    window.get(..WINDOW).unwrap_or(window)
}

// Judges each control of a series with the older ones in its window, the oldest control first. Deviations and verdicts go
// newest first. As many are judged as there are deviations and places; the places behind stay as they were.
pub fn judge_series<B: Rulebook>(
    rulebook: &mut B,
    unit: u32,
    deviations: &[i32],
    verdicts: &mut [Verdict],
)
    ensures verdicts { verdicts.new ≡ over (series (B.meaning rulebook.old) unit deviations.now) verdicts.old }
    ensures same { SameMeaning (B.meaning rulebook.old) (B.meaning rulebook.new) }
{
    // read first, since only then does a proof know that a signed number of a slice has 32 bits; in a loop of its own, which
    // the compiler drops, so that a call costs by the places and not by all deviations
    for deviation in deviations {
        let _deviation = *deviation;
    }
    // by place, since each control is judged by the deviations from its place on; over `iter().enumerate().rev()` the proof
    // stays open, and lent slices are what a caller without a heap has
    let count = deviations.len().min(verdicts.len());
    for place in (0..count).rev() {
        verdicts[place] = rulebook.judge(unit, newest(&deviations[place..]));
    }
}
