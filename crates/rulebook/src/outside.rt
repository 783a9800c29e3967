// Whether the newest deviations are outside so many units.
ghost use Rattle.std.specs.Prelude.{◌≡◌};
ghost use Rattle.rulebook.specs.Outside.{newest_outside, newest_two_outside};

use tolerance::is_outside;

// Whether the newest deviation is outside k units: its size exceeds them. A unit of 0 is read as 1; an empty window has none.
pub fn is_newest_outside(k: u32, unit: u32, window: &[i32]) -> bool
    ensures { result ≡ newest_outside k unit window.now }
{
    match window {
        [newest, ..] => is_outside(k, i64::from(*newest), u64::from(unit.max(1))),
        [] => false,
    }
}

// Whether the newest two are both outside k units, each on either side.
pub(crate) fn are_newest_two_outside(k: u32, unit: u32, window: &[i32]) -> bool
    ensures { result ≡ newest_two_outside k unit window.now }
{
    match window {
        [_, older @ ..] => is_newest_outside(k, unit, window) && is_newest_outside(k, unit, older),
        [] => false,
    }
}
