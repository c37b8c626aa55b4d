// What the events read: whether a length fits the budget left; and that the columns of a state have their lengths.
ghost use Rattle.std.specs.Prelude.{◌≡◌};
ghost use Rattle.state.specs.Sized.{Sized};
ghost use Rattle.step.specs.Events.{length_fits_budget};

use plan::Plan;
use state::State;

// The length of task k at global r is at most the budget left of its subsystem.
#[tactic(auto, unfolding(crate::specs::Events::length_fits_budget))]
pub fn length_fits_budget(p: &Plan, s: &State, k: u8, r: u8) -> bool
    ensures { result ≡ length_fits_budget p.now s.now k r }
{
    p.length(k, r) <= s.left_of(p.owner(k)).0
}

// The columns of a state have the lengths of their arrays: a proof knows it of a state by value, not of one that is lent. There is nothing to do.
pub fn sized(s: State)
    ensures { Sized s }
{
    let _ = s;
}
