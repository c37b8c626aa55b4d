// "Events", tick: (a) to (d). The state is lent and altered where it lies.
ghost use Rattle.std.specs.Prelude.{◌≡◌, ◌+◌, ◌-◌, ◌<◌, ◌^◌};
ghost use Rattle.below.specs.Listed.{listed};
ghost use Rattle.plan.specs.Plan.{owner};
ghost use Rattle.state.specs.State.{task_at, used_of};
ghost use Rattle.state.specs.Sized.{Sized};
ghost use Rattle.state.specs.Update.{with_used};
ghost use Rattle.choice.specs.Lent.{Lent};
ghost use Rattle.step.specs.Events.{ended_task};
ghost use Rattle.step.specs.Lent.{Answers, spent_at, Settles, left_next, refill_next};
ghost use Rattle.step.specs.Tick.{given_waited, charged, ran, refilled, tick_answer, ticked};

use crate::Answer;
use crate::shared::length_fits_budget;
use choice::{choose, runs};
use plan::{CeiledPlan, Plan};
use state::{BudgetLeft, State, Task};

// What (a) leaves beside the state: the tasks ended, and the choice that is made then.
#[derive(Clone, Copy)]
struct Settled {
    ended: u32,
    subsystem: u8,
    task: u8,
}

// (a) Task k holds a global whose length is used up.
#[tactic(auto, unfolding(crate::specs::Lent::spent_at))]
fn is_spent(p: &Plan, s: &State, k: u8) -> bool
    ensures { result ≡ spent_at p.now s.now k }
{
    s.task(k).in_section(p) && s.section_left(p, k).0 == 0
}

// A set of tasks with one more. A task that is in it already would not fit, and the set stays.
fn with_ended(ended: u32, k: u8) -> u32
    ensures { k < 32 → ended + 2 ^ k < 2 ^ 32 → result ≡ ended + 2 ^ k }
{
    if 32 <= k {
        return ended;
    }
    ended.checked_add(1u32 << (k as u32)).unwrap_or(ended)
}

// (a) Task k is ended, all it holds is freed and used is set to 0.
#[tactic(auto, unfolding(crate::specs::Events::ended_task))]
fn shut_one(p: &Plan, s: &mut State, k: u8)
    ensures { s.new ≡ with_used (ended_task s.old k) (owner p.now k) 0 }
{
    s.put_task(k, Task::idle());
    s.set_used(p.owner(k), 0);
}

// (a) while it is so, the choice being made again.
fn settle(c: &CeiledPlan, s: &mut State) -> Settled
    ensures { Lent c.now s.old → Sized s.old → Settles c.now.plan s.old s.new result }
{
    let mut ended: u32 = 0;
    let mut x = choose(c, s);
    for _turn in 0..c.plan.subsystems {
        if !is_spent(&c.plan, s, x.task) {
            break;
        }
        shut_one(&c.plan, s, x.task);
        ended = with_ended(ended, x.task);
        x = choose(c, s);
    }
    Settled {
        ended,
        subsystem: x.subsystem,
        task: x.task,
    }
}

// (b) If task k waits and its length is at most the budget left, it takes the resource.
#[tactic(auto, unfolding(crate::specs::Tick::given_waited, crate::specs::Events::with_taken, state::specs::State::is_waiting))]
fn give_waited(p: &Plan, s: &mut State, k: u8)
    ensures { (task_at s.old k).count < 255 → s.new ≡ given_waited p.now s.old k }
{
    let t = s.task(k);
    if t.condition == 3 && length_fits_budget(p, s, k, t.waits) {
        s.put_task(k, t.taking(t.waits));
    }
}

// (c) Subsystem c is charged one tick.
#[tactic(auto, unfolding(crate::specs::Tick::charged))]
fn charge(s: &mut State, c: u8)
    ensures { s.new ≡ charged s.old c }
{
    let left = s.left_of(c);
    s.set_left(c, BudgetLeft(left.0.saturating_sub(1)));
}

// (c) The running task k, if any, is started and, inside a global section, its used count rises by one.
#[tactic(auto, unfolding(crate::specs::Tick::ran), using(state::proofs::Update::used_of_with_task))]
fn run(p: &Plan, s: &mut State, k: u8)
    ensures { used_of s.old (owner p.now k) < 65535 → s.new ≡ ran p.now s.old k }
{
    if p.tasks <= k {
        return;
    }
    let t = s.task(k).started();
    s.put_task(k, t);
    if t.in_section(p) {
        let c = p.owner(k);
        s.set_used(c, s.used_of(c).saturating_add(1));
    }
}

// (d) Budget left of subsystem c when its ticks to refill fall by one: at 0 it is full again.
#[tactic(auto, unfolding(crate::specs::Lent::left_next))]
fn left_next(p: &Plan, s: &State, c: u8) -> BudgetLeft
    ensures { result ≡ left_next p.now s.now c }
{
    if s.refill_of(c) <= 1 {
        BudgetLeft(p.budget(c))
    } else {
        s.left_of(c)
    }
}

// (d) Its ticks to refill: at 0 the period is full again.
#[tactic(auto, unfolding(crate::specs::Lent::refill_next))]
fn refill_next(p: &Plan, s: &State, c: u8) -> u16
    ensures { result ≡ refill_next p.now s.now c }
{
    let n = s.refill_of(c);
    if n <= 1 { p.period(c) } else { n - 1 }
}

fn refilled_left(p: &Plan, s: &State) -> [BudgetLeft; 8]
    ensures { result ≡ listed 8 (left_next p.now s.now) }
{
    std::array::from_fn(|c| left_next(p, s, c as u8))
}

fn refilled_refill(p: &Plan, s: &State) -> [u16; 8]
    ensures { result ≡ listed 8 (refill_next p.now s.now) }
{
    std::array::from_fn(|c| refill_next(p, s, c as u8))
}

// (d) for every subsystem.
#[tactic(auto, unfolding(crate::specs::Tick::refilled, crate::specs::Lent::left_next, crate::specs::Lent::refill_next))]
fn refill(p: &Plan, s: &mut State)
    ensures { s.new ≡ refilled p.now s.old }
{
    let left = refilled_left(p, s);
    let refill = refilled_refill(p, s);
    s.left = left;
    s.refill = refill;
}

// 0, or 10 where a section was shut.
#[tactic(auto, unfolding(crate::specs::Tick::tick_answer))]
fn tick_answer(ended: u32) -> u8
    ensures { result ≡ tick_answer ended }
{
    if ended == 0 { 0 } else { 10 }
}

// A tick. With no subsystem chosen, after (a) too, only (d) follows.
pub fn tick(c: &CeiledPlan, s: &mut State) -> Answer
    ensures { Lent c.now s.old → Sized s.old → Answers (ticked c.now.plan s.old) result s.new }
{
    let x = settle(c, s);
    let mut task: u8 = 255;
    if x.subsystem != 255 {
        give_waited(&c.plan, s, x.task);
        task = runs(s, x.task);
        charge(s, x.subsystem);
        run(&c.plan, s, task);
    }
    refill(&c.plan, s);
    Answer {
        answer: tick_answer(x.ended),
        subsystem: x.subsystem,
        task,
        ended: x.ended,
    }
}
