// What the choice reads of a task row, a number at a time: most rows hold nothing, and no task is made of them.
ghost use Rattle.std.specs.Prelude.{◌≡◌};
ghost use Rattle.state.specs.State.{task_at, in_section};

use plan::Plan;
use state::State;

#[tactic(auto, unfolding(state::specs::State::task_at))]
pub fn condition_of(s: &State, k: u8) -> u8
    ensures { result ≡ (task_at s.now k).condition }
{
    s.conditions.get(k as usize).copied().unwrap_or(0)
}

// How many resources it holds.
#[tactic(auto, unfolding(state::specs::State::task_at))]
pub fn count_of(s: &State, k: u8) -> u8
    ensures { result ≡ (task_at s.now k).count }
{
    s.counts.get(k as usize).copied().unwrap_or(0)
}

// It holds a global resource.
#[tactic(auto, unfolding(state::specs::State::in_section))]
pub fn in_section(p: &Plan, s: &State, k: u8) -> bool
    ensures { result ≡ in_section p.now (task_at s.now k) }
{
    1 <= count_of(s, k) && s.task(k).in_section(p)
}
