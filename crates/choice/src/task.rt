// "Task": the task taken in a subsystem.
ghost use Rattle.std.specs.Prelude.{◌≡◌, ◌&&◌, ◌||◌, ℕ, ◌<◌, ltb};
ghost use Rattle.below.specs.Below.{first};
ghost use Rattle.plan.specs.Limits.{no_row};
ghost use Rattle.state.specs.State.{task_at, is_waiting, in_section};
ghost use Rattle.choice.specs.Choice.{or_no_row};
ghost use Rattle.choice.specs.Columns.{local_at, below_held, unbarred, taken_below};

use crate::rows::{condition_of, count_of, in_section};
use plan::{CeiledPlan, Plan};
use state::State;

// The ceiling of the i-th resource that a task holds if that is local; 255 otherwise.
#[tactic(auto, unfolding(crate::specs::Columns::local_at))]
fn local_at(c: &CeiledPlan, s: &State, k: u8, i: u8) -> u8
    ensures { result ≡ local_at c.now s.now k i }
{
    let r = s.task(k).held_at(i);
    if c.plan.is_global(r) {
        255
    } else {
        c.ceiling(r)
    }
}

// The smaller of low and the ceilings of the locals that a task holds.
fn lowest_held(c: &CeiledPlan, s: &State, k: u8, low: u8) -> u8
    ensures { (t : ℕ) → ltb t result ≡ (ltb t low && below_held c.now s.now t k) }
{
    let mut lowest = low;
    for i in 0..count_of(s, k) {
        lowest = lowest.min(local_at(c, s, k, i));
    }
    lowest
}

// "Task": a task that waits or holds a global keeps ready tasks of its subsystem from being taken.
#[tactic(auto, unfolding(state::specs::State::is_waiting))]
fn keeps(p: &Plan, s: &State, k: u8) -> bool
    ensures { result ≡ (is_waiting (task_at s.now k) || in_section p.now (task_at s.now k)) }
{
    condition_of(s, k) == 3 || in_section(p, s, k)
}

// "Task": the row below which a ready task of a subsystem is taken: 0 if a task there keeps all from it, else the lowest ceiling of a local held there.
pub fn ready_below(c: &CeiledPlan, s: &State, subsystem: u8) -> u8
    ensures { (t : ℕ) → t < no_row → ltb t result ≡ unbarred c.now s.now subsystem t }
{
    let mut low: u8 = 255;
    for k in 0..c.plan.tasks {
        if c.plan.owner(k) == subsystem {
            if keeps(&c.plan, s, k) {
                return 0;
            }
            low = lowest_held(c, s, k, low);
        }
    }
    low
}

// A task of a subsystem that is started or waiting, or is ready and below low.
#[tactic(auto, unfolding(crate::specs::Columns::taken_below, state::specs::State::is_active, state::specs::State::is_started, state::specs::State::is_waiting, state::specs::State::is_ready))]
fn may_be_taken(p: &Plan, s: &State, subsystem: u8, low: u8, k: u8) -> bool
    ensures { result ≡ taken_below p.now s.now subsystem low k }
{
    let condition = condition_of(s, k);
    p.owner(k) == subsystem && ((condition == 2 || condition == 3) || (condition == 1 && k < low))
}

// "Task": the smallest such row; 255 if there is none.
pub fn task_of(p: &Plan, s: &State, subsystem: u8, low: u8) -> u8
    ensures { result ≡ or_no_row p.now.tasks (first p.now.tasks (taken_below p.now s.now subsystem low)) }
{
    (0..p.tasks)
        .find(|k| may_be_taken(p, s, subsystem, low, *k))
        .unwrap_or(255)
}
