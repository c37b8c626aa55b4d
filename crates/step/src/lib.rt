// The step: what an event gives on a plan and a state ("Events").
#![tactic(auto)]

ghost use Rattle.std.specs.Prelude.{◌≡◌};
ghost use Rattle.state.specs.declared.State.{State};
ghost use Rattle.step.specs.Step.{unread, step, answer_of};
ghost use Rattle.step.specs.Kinds.{NumberOf};

pub mod event;
mod order;
mod shared;
mod tick;

use event::stepped;
use plan::Plan;
use state::State;

// The kinds of events.
#[derive(Clone, Copy, PartialEq, Eq)]
pub enum Kind {
    Release,
    Lock,
    Unlock,
    End,
    Tick,
}

impl Kind {
    // The kind of a number, 0 to 4; no other number is one of a kind.
    pub fn of(n: u32) -> Option<Kind>
        ensures { NumberOf n result }
    {
        match n {
            0 => Some(Kind::Release),
            1 => Some(Kind::Lock),
            2 => Some(Kind::Unlock),
            3 => Some(Kind::End),
            4 => Some(Kind::Tick),
            _ => None,
        }
    }
}

// What an event gives. answer is the number of the answer; subsystem and task are rows, 255 for none; ended has bit i set where task i was ended.
#[derive(Clone, Copy)]
pub struct Outcome {
    pub answer: u8,
    pub subsystem: u8,
    pub task: u8,
    pub ended: u32,
    pub state: State,
}

// What an event answers, beside the state that it alters: an outcome without its state.
#[derive(Clone, Copy)]
pub struct Answer {
    pub answer: u8,
    pub subsystem: u8,
    pub task: u8,
    pub ended: u32,
}

// "Calls from C": a plan or a state lent as a record gets 31 and 32 too, and nothing is chosen.
#[tactic(auto, unfolding(crate::specs::Step::unread, crate::specs::Step::answer_of))]
fn unread(n: u8) -> Answer
    ensures { (s : State) → result ≡ answer_of (unread s n) }
{
    Answer {
        answer: n,
        subsystem: 255,
        task: 255,
        ended: 0,
    }
}

// An event on any plan and state record: 31, then 32, then the event. It alters the state, and answers with the rest of the outcome.
pub fn step_lent(p: &Plan, s: &mut State, kind: u32, task: u32, resource: u32) -> Answer
    ensures { (result ≡ answer_of (step p.now s.old kind task resource)) × (s.new ≡ (step p.now s.old kind task resource).state) }
{
    if !p.is_accepted() {
        return unread(31);
    }
    let c = p.with_ceilings();
    if !legal::legal(&c, s) {
        return unread(32);
    }
    stepped(&c, s, kind, task, resource)
}

// The step on a state by value.
pub fn step(p: &Plan, s: State, kind: u32, task: u32, resource: u32) -> Outcome
    ensures { result ≡ step p.now s kind task resource }
{
    let mut state = s;
    let a = step_lent(p, &mut state, kind, task, resource);
    Outcome {
        answer: a.answer,
        subsystem: a.subsystem,
        task: a.task,
        ended: a.ended,
        state,
    }
}
