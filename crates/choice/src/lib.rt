// Who is chosen, of any plan with ceilings and any state. A row or a resource that is not there reads as the definitions read it.
#![tactic(auto)]

ghost use Rattle.std.specs.Prelude.{◌≡◌};
ghost use Rattle.choice.specs.Choice.{chosen, chosen_task, runs};
ghost use Rattle.choice.specs.Lent.{Lent};

mod rows;
mod subsystem;
mod task;

use plan::CeiledPlan;
use rows::condition_of;
use state::State;
use subsystem::{subsystem_of, system_section};
use task::{ready_below, task_of};

// The subsystem chosen and the task taken in it, waiting or not; 255 for none.
#[derive(Clone, Copy)]
pub struct Choice {
    pub subsystem: u8,
    pub task: u8,
}

// "Who is chosen": the subsystem and the task.
pub fn choose(c: &CeiledPlan, s: &State) -> Choice
    ensures { Lent c.now s.now → (result.subsystem ≡ chosen c.now.plan s.now) × (result.task ≡ chosen_task c.now.plan s.now) }
{
    let section = system_section(c, s);
    let subsystem = subsystem_of(&c.plan, s, section);
    let low = ready_below(c, s, subsystem);
    let task = task_of(&c.plan, s, subsystem, low);
    Choice { subsystem, task }
}

// "Task": a waiting task taken means that nothing runs.
#[tactic(auto, unfolding(crate::specs::Choice::runs, state::specs::State::is_waiting))]
pub fn runs(s: &State, k: u8) -> u8
    ensures { result ≡ runs s.now k }
{
    if condition_of(s, k) == 3 { 255 } else { k }
}
