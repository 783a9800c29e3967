// The verdicts of a series of control values, in the order in which they were measured.
ghost use Rattle.std.specs.Prelude.{◌≡◌, IfOk};
ghost use Rattle.tolerance.specs.Deviations.{deviation_of};
ghost use Rattle.rulebook.specs.Series.{deviations_of, verdicts_of};

use crate::value::Value;
use rulebook::{Rulebook, Verdict, judge_series};
use std::alloc::{AllocError, Global};
use tolerance::deviation;

// The deviation of a value from a target: it has 32 bits.
fn control_deviation(value: Value, target: Value) -> i32
    ensures { result ≡ deviation_of value target }
{
    deviation(value.hundredths(), target.hundredths()) as i32
}

// The deviations of the values, newest first.
fn deviations(heap: Global, target: Value, values: &[Value]) -> Result<Vec<i32>, AllocError>
    ensures { IfOk result (λ v. v.items ≡ deviations_of target values.now) }
{
    values
        .iter()
        .rev()
        .map(|value| control_deviation(*value, target))
        .collect(heap)
}

// Each value's verdict, judged with the values before it.
pub(crate) fn verdicts<B: Rulebook>(
    heap: Global,
    rules: &mut B,
    limit: u32,
    target: Value,
    values: &[Value],
) -> Result<Vec<Verdict>, AllocError>
    ensures { IfOk result (λ v. v.items ≡ verdicts_of (B.meaning rules.old) limit target values.now) }
{
    let window = deviations(heap, target, values)?;
    let mut verdicts = vec![in heap; Verdict::Fit; window.len()]?;
    judge_series(rules, limit, &window, &mut verdicts);
    verdicts.reverse();
    Ok(verdicts)
}
