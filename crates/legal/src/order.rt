// A legal state, "State": how a task that holds or waits stands to the others of its subsystem. Ceilings are read out of a list, which is worked out
// once for a plan.
ghost use Rattle.std.specs.Prelude.{◌≡◌, not};
ghost use Rattle.below.specs.Below.{all};
ghost use Rattle.legal.specs.Legal.{active_before};
ghost use Rattle.legal.specs.Parts.{below_row, below_held, first_held, ordered};

use plan::{CeiledPlan, Plan};
use state::{State, Task};

// A started or waiting task of the same subsystem that is taken before k.
#[tactic(auto, unfolding(crate::specs::Legal::active_before, plan::specs::Plan::taken_before, state::specs::State::is_active, state::specs::State::is_started, state::specs::State::is_waiting))]
fn active_before(p: &Plan, s: &State, k: u8, j: u8) -> bool
    ensures { result ≡ active_before p.now s.now k j }
{
    j < k && p.owner(j) == p.owner(k) && matches!(s.task(j).condition, 2 | 3)
}

// Such a task lies below a row.
#[tactic(auto, unfolding(crate::specs::Parts::below_row, crate::specs::Legal::implies, plan::specs::Plan::taken_before))]
fn below_row(p: &Plan, s: &State, k: u8, row: u8, j: u8) -> bool
    ensures { result ≡ below_row p.now s.now k row j }
{
    !active_before(p, s, k, j) || j < row
}

fn all_below_row(p: &Plan, s: &State, k: u8, row: u8) -> bool
    ensures { result ≡ all p.now.tasks (below_row p.now s.now k row) }
{
    (0..p.tasks).all(|j| below_row(p, s, k, row, j))
}

// If k holds a local resource, each such task lies below its ceiling number.
#[tactic(auto, unfolding(crate::specs::Parts::below_held))]
fn below_held(c: &CeiledPlan, s: &State, k: u8, t: &Task, i: u8) -> bool
    ensures { result ≡ below_held c.now.plan c.now.ceilings s.now k t.now i }
{
    let r = t.held_at(i);
    c.plan.is_global(r) || all_below_row(&c.plan, s, k, c.ceiling(r))
}

fn all_below_held(c: &CeiledPlan, s: &State, k: u8, t: &Task) -> bool
    ensures { result ≡ all t.now.count (below_held c.now.plan c.now.ceilings s.now k t.now) }
{
    (0..t.count).all(|i| below_held(c, s, k, t, i))
}

// There is no such task.
fn none_before(p: &Plan, s: &State, k: u8) -> bool
    ensures { result ≡ all p.now.tasks (λ j. not (active_before p.now s.now k j)) }
{
    (0..p.tasks).all(|j| !active_before(p, s, k, j))
}

// If k waits or holds a global, there is no such task.
#[tactic(auto, unfolding(crate::specs::Parts::first_held, crate::specs::Legal::implies, state::specs::State::is_waiting))]
fn first_held(p: &Plan, s: &State, k: u8, t: &Task) -> bool
    ensures { result ≡ first_held p.now s.now k t.now }
{
    (t.condition != 3 && !t.in_section(p)) || none_before(p, s, k)
}

// An idle task holds nothing and does not wait, so it is passed at once.
#[tactic(auto, unfolding(crate::specs::Parts::ordered))]
fn task_ordered(c: &CeiledPlan, s: &State, k: u8) -> bool
    ensures { result ≡ ordered c.now.plan c.now.ceilings s.now k }
{
    let t = s.task(k);
    all_below_held(c, s, k, &t) && first_held(&c.plan, s, k, &t)
}

pub fn all_ordered(c: &CeiledPlan, s: &State) -> bool
    ensures { result ≡ all c.now.plan.tasks (ordered c.now.plan c.now.ceilings s.now) }
{
    (0..c.plan.tasks).all(|k| task_ordered(c, s, k))
}
