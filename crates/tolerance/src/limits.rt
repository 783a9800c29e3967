// The limit of an assay: how far a control may lie from its target. It stands for three standard deviations.
ghost use Rattle.std.specs.Prelude.{◌≡◌};
ghost use Rattle.tolerance.specs.Limits.{nearer_end, limit_of};

use crate::table::lookup;

// The distance from the target to the nearer end of the range that the package insert states.
fn distance_to_nearer_end(target: u32, lower: u32, upper: u32) -> u32
    ensures { result ≡ nearer_end target lower upper }
{
    target.abs_diff(lower).min(target.abs_diff(upper))
}

// The limit in thousandths of a hundredth of the unit: the smaller of the table's tolerance and the range's. Its four numbers
// come one by one: a type for them would ask more of callers, who may give any.
pub fn limit(number: u16, target: u32, lower: u32, upper: u32) -> u64
    ensures { result ≡ limit_of number target lower upper }
{
    let by_range = 1_000 * u64::from(distance_to_nearer_end(target, lower, upper));
    match lookup(number, target) {
        Some(row) => by_range.min(u64::from(row.permille) * u64::from(target)),
        None => by_range,
    }
}
