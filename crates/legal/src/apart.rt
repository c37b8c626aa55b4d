// A legal state, "State": how the subsystems that hold globals stand to each other. Ceilings are read out of a list, which is worked out once for a plan.
ghost use Rattle.std.specs.Prelude.{◌≡◌};
ghost use Rattle.below.specs.Below.{all};
ghost use Rattle.legal.specs.Parts.{apart, apart_from};

use plan::CeiledPlan;
use state::State;

// Of two subsystems holding globals, one has its row below the other's ceiling number.
#[tactic(auto, unfolding(crate::specs::Parts::apart, crate::specs::Legal::implies, plan::specs::Plan::level))]
fn sections_apart(c: &CeiledPlan, s: &State, j: u8, k: u8) -> bool
    ensures { result ≡ apart c.now.plan c.now.ceilings s.now j k }
{
    let t = s.task(j);
    let u = s.task(k);
    if !t.in_section(&c.plan) || !u.in_section(&c.plan) {
        return true;
    }
    let a = c.plan.owner(j);
    let b = c.plan.owner(k);
    a == b || a < c.ceiling(u.last_held()) || b < c.ceiling(t.last_held())
}

// A task outside a section is apart from all.
fn apart_from(c: &CeiledPlan, s: &State, j: u8) -> bool
    ensures { result ≡ apart_from c.now.plan c.now.ceilings s.now j }
{
    if !s.task(j).in_section(&c.plan) {
        return true;
    }
    (0..c.plan.tasks).all(|k| sections_apart(c, s, j, k))
}

pub fn all_apart(c: &CeiledPlan, s: &State) -> bool
    ensures { result ≡ all c.now.plan.tasks (apart_from c.now.plan c.now.ceilings s.now) }
{
    (0..c.plan.tasks).all(|j| apart_from(c, s, j))
}
