// A legal state, "State": what is asked of each task by itself.
ghost use Rattle.std.specs.Prelude.{◌≡◌};
ghost use Rattle.below.specs.Below.{all};
ghost use Rattle.plan.specs.Limits.{most_tasks};
ghost use Rattle.state.specs.State.{most_held};
ghost use Rattle.legal.specs.Legal.{well_written, absent_task, held_legal, resting_legal, waiting_legal};
ghost use Rattle.legal.specs.Parts.{free_at, unlike_at, held_one, alone_legal, task_fits};

use plan::Plan;
use state::{State, Task};

#[tactic(auto, unfolding(crate::specs::Parts::free_at, crate::specs::Legal::implies))]
fn free_from(t: &Task, i: u8) -> bool
    ensures { result ≡ free_at t.now i }
{
    i < t.count || t.held_at(i) == 255
}

// Places that hold nothing say so.
fn rest_free(t: &Task) -> bool
    ensures { result ≡ all most_held (free_at t.now) }
{
    (0..4).all(|i| free_from(t, i))
}

// So does a task that does not wait.
#[tactic(auto, unfolding(crate::specs::Legal::well_written, crate::specs::Legal::implies, crate::specs::Parts::free_at, state::specs::State::is_waiting))]
fn well_written(t: &Task) -> bool
    ensures { result ≡ well_written t.now }
{
    t.condition <= 3 && t.count <= 4 && rest_free(t) && (t.condition == 3 || t.waits == 255)
}

// An absent task looks idle.
#[tactic(auto, unfolding(crate::specs::Legal::absent_task, state::specs::State::is_idle))]
fn task_absent(t: &Task) -> bool
    ensures { result ≡ absent_task t.now }
{
    well_written(t) && t.condition == 0 && t.count == 0
}

fn unlike_before(t: &Task, i: u8) -> bool
    ensures { result ≡ all i (unlike_at t.now i) }
{
    (0..i).all(|j| t.held_at(j) != t.held_at(i))
}

// A held resource is there, declared and new, and a global one is the last.
#[tactic(auto, unfolding(crate::specs::Parts::held_one, crate::specs::Legal::implies))]
fn held_one(p: &Plan, k: u8, t: &Task, i: u8) -> bool
    ensures { result ≡ held_one p.now k t.now i }
{
    let r = t.held_at(i);
    r < p.resources
        && p.declares(k, r)
        && unlike_before(t, i)
        && (!p.is_global(r) || (i as u16) + 1 == (t.count as u16))
}

fn held_legal(p: &Plan, k: u8, t: &Task) -> bool
    ensures { result ≡ held_legal p.now k t.now }
{
    (0..t.count).all(|i| held_one(p, k, t, i))
}

// Idle and ready tasks hold nothing.
#[tactic(auto, unfolding(crate::specs::Legal::resting_legal, crate::specs::Legal::implies, state::specs::State::is_idle, state::specs::State::is_ready))]
fn resting_legal(t: &Task) -> bool
    ensures { result ≡ resting_legal t.now }
{
    match t.condition {
        0 | 1 => t.count == 0,
        _ => true,
    }
}

// A waiting task waits for a global that it declares, holds no global and at most 3 others.
#[tactic(auto, unfolding(crate::specs::Legal::waiting_legal, crate::specs::Legal::implies, state::specs::State::is_waiting))]
fn waiting_legal(p: &Plan, k: u8, t: &Task) -> bool
    ensures { result ≡ waiting_legal p.now k t.now }
{
    if t.condition != 3 {
        return true;
    }
    let r = t.waits;
    r < p.resources && p.is_global(r) && p.declares(k, r) && !t.in_section(p) && t.count <= 3
}

#[tactic(auto, unfolding(crate::specs::Parts::alone_legal))]
fn task_legal(p: &Plan, k: u8, t: &Task) -> bool
    ensures { result ≡ alone_legal p.now k t.now }
{
    well_written(t) && held_legal(p, k, t) && resting_legal(t) && waiting_legal(p, k, t)
}

#[tactic(auto, unfolding(crate::specs::Parts::task_fits, crate::specs::Legal::implies))]
fn task_fits(p: &Plan, s: &State, k: u8) -> bool
    ensures { result ≡ task_fits p.now s.now k }
{
    let t = s.task(k);
    if k < p.tasks {
        task_legal(p, k, &t)
    } else {
        task_absent(&t)
    }
}

pub fn all_tasks_fit(p: &Plan, s: &State) -> bool
    ensures { result ≡ all most_tasks (task_fits p.now s.now) }
{
    (0..32).all(|k| task_fits(p, s, k))
}
