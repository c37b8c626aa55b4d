// "Events": release, lock, unlock and end, and an event of any kind. The state is lent and altered where it lies.
ghost use Rattle.std.specs.Prelude.{◌≡◌, ◌<◌};
ghost use Rattle.state.specs.State.{task_at};
ghost use Rattle.state.specs.Sized.{Sized};
ghost use Rattle.choice.specs.Lent.{Lent};
ghost use Rattle.step.specs.Lent.{row_kind_number, narrow, Answers};
ghost use Rattle.step.specs.Kinds.{kind_number};
ghost use Rattle.step.specs.Events.{answered, locked, unlocked};
ghost use Rattle.step.specs.Step.{done, stepped, answer_of};

use crate::order::{Asked, RowKind};
use crate::shared::{length_fits_budget, sized};
use crate::tick::tick;
use crate::{Answer, Kind};
use choice::{choose, runs};
use plan::{CeiledPlan, Plan};
use state::{State, Task};

// An answer with the subsystem chosen and the task running in the state left behind.
#[tactic(auto, unfolding(crate::specs::Step::answer_of, crate::specs::Events::answered, choice::specs::Choice::running))]
fn answered(c: &CeiledPlan, s: &State, n: u8) -> Answer
    ensures { Lent c.now s.now → result ≡ answer_of (answered c.now.plan s.now n) }
{
    let x = choose(c, s);
    Answer {
        answer: n,
        subsystem: x.subsystem,
        task: runs(s, x.task),
        ended: 0,
    }
}

// A local resource is taken; a global one if its length is at most the budget left, otherwise the task waits, answer 1.
#[tactic(auto, unfolding(crate::specs::Events::locked, crate::specs::Events::with_taken))]
fn locked(p: &Plan, s: &mut State, k: u8, r: u8) -> u8
    ensures { (task_at s.old k).count < 255 → answered p.now s.new result ≡ locked p.now s.old k r }
{
    let t = s.task(k);
    if !p.is_global(r) || length_fits_budget(p, s, k, r) {
        s.put_task(k, t.taking(r));
        return 0;
    }
    s.put_task(k, t.waiting_for(r));
    1
}

// The resource taken last is given back; used becomes 0 if it was global.
#[tactic(auto, unfolding(crate::specs::Events::unlocked))]
fn unlocked(p: &Plan, s: &mut State, k: u8, r: u8)
    ensures { s.new ≡ unlocked p.now s.old k r }
{
    s.put_task(k, s.task(k).giving_back());
    if p.is_global(r) {
        s.set_used(p.owner(k), 0);
    }
}

// An event at rows that no refusal applies to: it alters the state, and its answer is 0 or 1.
#[tactic(auto, unfolding(crate::specs::Step::done, crate::specs::Events::released, crate::specs::Events::ended_task))]
fn done(p: &Plan, s: &mut State, kind: RowKind, k: u8, r: u8) -> u8
    ensures { (task_at s.old k).count < 255 → answered p.now s.new result ≡ done p.now s.old (row_kind_number kind) k r }
{
    match kind {
        RowKind::Release => s.put_task(k, s.task(k).readied()),
        RowKind::Lock => return locked(p, s, k, r),
        RowKind::Unlock => unlocked(p, s, k, r),
        RowKind::End => s.put_task(k, Task::idle()),
    }
    0
}

// An event at rows: a refusal keeps the state.
fn at_rows(c: &CeiledPlan, s: &mut State, kind: RowKind, k: u8, r: u8) -> Answer
    ensures { Lent c.now s.old → Sized s.old → Answers (stepped c.now.plan s.old (row_kind_number kind) k r) result s.new }
{
    let x = choose(c, s);
    let running = runs(s, x.task);
    let asked = Asked {
        kind,
        row: k,
        resource: r,
        task: s.task(k),
        running,
    };
    if let Some(refusal) = asked.refusal(&c.plan) {
        return Answer {
            answer: refusal.number(),
            subsystem: x.subsystem,
            task: running,
            ended: 0,
        };
    }
    let n = done(&c.plan, s, kind, k, r);
    answered(c, s, n)
}

// A row as a byte. No plan has a row past 254, so a number past it is as good as 255, which no conversion of the library gives.
#[tactic(auto, unfolding(crate::specs::Lent::narrow))]
fn narrow(row: u32) -> u8
    ensures { result ≡ narrow row }
{
    if row < 255 { row as u8 } else { 255 }
}

// An event on an accepted plan and a legal state, by its kind.
pub fn stepped_as(c: &CeiledPlan, s: &mut State, kind: Kind, task: u32, resource: u32) -> Answer
    ensures { Lent c.now s.old → (result ≡ answer_of (stepped c.now.plan s.old (kind_number kind) task resource)) × (s.new ≡ (stepped c.now.plan s.old (kind_number kind) task resource).state) }
{
    sized(*s);
    let kind = match kind {
        Kind::Release => RowKind::Release,
        Kind::Lock => RowKind::Lock,
        Kind::Unlock => RowKind::Unlock,
        Kind::End => RowKind::End,
        Kind::Tick => return tick(c, s),
    };
    at_rows(c, s, kind, narrow(task), narrow(resource))
}

// What is no event is answered 11, and the state is kept.
pub fn unknown(c: &CeiledPlan, s: &State) -> Answer
    ensures { Lent c.now s.now → result ≡ answer_of (answered c.now.plan s.now 11) }
{
    answered(c, s, 11)
}

// The same by the number of a kind: 0 to 4, anything else is unknown.
pub fn stepped(c: &CeiledPlan, s: &mut State, kind: u32, task: u32, resource: u32) -> Answer
    ensures { Lent c.now s.old → (result ≡ answer_of (stepped c.now.plan s.old kind task resource)) × (s.new ≡ (stepped c.now.plan s.old kind task resource).state) }
{
    match Kind::of(kind) {
        Some(kind) => stepped_as(c, s, kind, task, resource),
        None => unknown(c, s),
    }
}
