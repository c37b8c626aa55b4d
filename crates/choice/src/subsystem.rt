// "Subsystem": the system ceiling, and who is chosen by it.
ghost use Rattle.std.specs.Prelude.{◌≡◌, get_or};
ghost use Rattle.below.specs.Below.{first};
ghost use Rattle.state.specs.State.{task_at, has_budget, last_held};
ghost use Rattle.choice.specs.Columns.{section_ceiling, Found, chosen_by};

use crate::rows::in_section;
use plan::{CeiledPlan, Plan};
use state::State;

// The system ceiling and the task that holds its resource; the number of subsystems and 255 if no global is held.
#[derive(Clone, Copy)]
pub struct Section {
    pub ceiling: u8,
    pub holder: u8,
}

// The ceiling of the resource that a task took last.
fn last_ceiling(c: &CeiledPlan, s: &State, k: u8) -> u8
    ensures { result ≡ get_or c.now.ceilings (last_held (task_at s.now k)) 0 }
{
    c.ceiling(s.task(k).last_held())
}

// "Subsystem": the system ceiling, with the holder of its resource.
pub fn system_section(c: &CeiledPlan, s: &State) -> Section
    ensures { Found c.now.plan.subsystems c.now.plan.tasks (section_ceiling c.now s.now) result.ceiling result.holder }
{
    let mut ceiling = c.plan.subsystems;
    let mut holder: u8 = 255;
    for k in 0..c.plan.tasks {
        if in_section(&c.plan, s, k) {
            let l = last_ceiling(c, s, k);
            if l < ceiling {
                ceiling = l;
                holder = k;
            }
        }
    }
    Section { ceiling, holder }
}

// "Subsystem": the first of n rows with budget left; n if none has.
fn first_with_budget(s: &State, n: u8) -> u8
    ensures { result ≡ first n (has_budget s.now) }
{
    (0..n).find(|r| 0 < s.left_of(*r).0).unwrap_or(n)
}

// "Subsystem": the smallest row with budget left below the system ceiling, else the holder, even with no budget left.
#[tactic(auto, unfolding(crate::specs::Columns::chosen_by, crate::specs::Columns::owner_of))]
pub fn subsystem_of(p: &Plan, s: &State, x: Section) -> u8
    ensures { result ≡ chosen_by p.now s.now x.ceiling x.holder }
{
    let first = first_with_budget(s, x.ceiling);
    if first < x.ceiling {
        return first;
    }
    if x.holder == 255 {
        return 255;
    }
    p.owner(x.holder)
}
