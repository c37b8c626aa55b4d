// A legal state, "State": what is asked of the counts of each subsystem.
ghost use Rattle.std.specs.Prelude.{◌≡◌};
ghost use Rattle.below.specs.Below.{all};
ghost use Rattle.plan.specs.Limits.{most_subsystems};
ghost use Rattle.legal.specs.Legal.{counts_legal, absent_subsystem};
ghost use Rattle.legal.specs.Parts.{counts_fit};

use plan::Plan;
use state::State;

// Budget left is at most the budget; ticks to refill are 1 to the period.
#[tactic(auto, unfolding(crate::specs::Legal::counts_legal))]
fn counts_legal(p: &Plan, s: &State, c: u8) -> bool
    ensures { result ≡ counts_legal p.now s.now c }
{
    s.left_of(c).0 <= p.budget(c) && 1 <= s.refill_of(c) && s.refill_of(c) <= p.period(c)
}

// An absent subsystem is all 0.
#[tactic(auto, unfolding(crate::specs::Legal::absent_subsystem))]
fn counts_absent(s: &State, c: u8) -> bool
    ensures { result ≡ absent_subsystem s.now c }
{
    s.left_of(c).0 == 0 && s.refill_of(c) == 0 && s.used_of(c) == 0
}

#[tactic(auto, unfolding(crate::specs::Parts::counts_fit, crate::specs::Legal::implies))]
fn counts_fit(p: &Plan, s: &State, c: u8) -> bool
    ensures { result ≡ counts_fit p.now s.now c }
{
    if c < p.subsystems {
        counts_legal(p, s, c)
    } else {
        counts_absent(s, c)
    }
}

pub fn all_counts_fit(p: &Plan, s: &State) -> bool
    ensures { result ≡ all most_subsystems (counts_fit p.now s.now) }
{
    (0..8).all(|c| counts_fit(p, s, c))
}
