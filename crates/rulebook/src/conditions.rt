// What a layer looks for in the newest deviations: all on one side of the target, or a drift.
ghost use Rattle.std.specs.Prelude.{◌≡◌, Bool, List, reverse, ℤ};
ghost use Rattle.std.specs.List.{list_all};
ghost use Rattle.std.specs.Int.{is_positive, is_negative};
ghost use Rattle.rulebook.specs.Conditions.{one_sided, rising, falling, drifting};

// A condition on the newest deviations. They come newest first.
pub trait Condition {
    ghost found: { Self → List ℤ → Bool };

    fn holds(&self, newest: &[i32]) -> bool
        ensures { result ≡ found self.now newest.now };
}

// All above 0, or all below 0.
#[derive(Clone, Copy)]
pub struct Side;

impl Condition for Side {
    ghost found = { λ _. one_sided };

    fn holds(&self, newest: &[i32]) -> bool {
        are_above(newest) || are_below(newest)
    }
}

// Each chain has a function of its own: of two in one function, joined by `||`, the proof stays open.
fn are_above(newest: &[i32]) -> bool
    ensures { result ≡ list_all is_positive newest.now }
{
    newest.iter().all(|deviation| deviation.is_positive())
}

fn are_below(newest: &[i32]) -> bool
    ensures { result ≡ list_all is_negative newest.now }
{
    newest.iter().all(|deviation| deviation.is_negative())
}

// From oldest to newest, strictly rising or strictly falling.
#[derive(Clone, Copy)]
pub struct Drift;

impl Condition for Drift {
    ghost found = { λ _. drifting };

    fn holds(&self, newest: &[i32]) -> bool {
        are_rising(newest) || are_falling(newest)
    }
}

// The newest come first, so each that rises is above the one behind it. Again each chain has its own function.
fn are_rising(newest: &[i32]) -> bool
    ensures { result ≡ rising (reverse newest.now) }
{
    newest.is_sorted_by(|newer, older| newer > older)
}

fn are_falling(newest: &[i32]) -> bool
    ensures { result ≡ falling (reverse newest.now) }
{
    newest.is_sorted_by(|newer, older| newer < older)
}
