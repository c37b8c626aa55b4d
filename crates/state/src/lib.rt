// The state of a run: its types, a fresh one, one with a thing changed, and what is read of one.
#![tactic(auto)]

ghost use Rattle.std.specs.Prelude.{◌≡◌, ◌-◌};

mod one_task;
mod rows;

// Budget left and section length left are two counts, of two types: one never stands for the other.
#[derive(Clone, Copy)]
pub struct BudgetLeft(pub u16);

#[derive(Clone, Copy)]
pub struct SectionLeft(pub u16);

impl SectionLeft {
    // What is left of a section of this length.
    pub fn remaining(length: u16, used: u16) -> SectionLeft
        ensures { result ≡ record { 0 = length - used } }
    {
        SectionLeft(length.saturating_sub(used))
    }
}

// One task. condition: 0 idle, 1 ready, 2 started, 3 waiting. waits: the resource waited for, or 255. The first count entries of held
// are the resources held, in the order taken; the others are 255.
#[derive(Clone, Copy)]
pub struct Task {
    pub condition: u8,
    pub waits: u8,
    pub count: u8,
    pub held: [u8; 4],
}

// A state in columns. Per subsystem: budget left, ticks to the next refill, ticks used of its global section. Per task: what Task has, with
// its four held resources at 4 * task. Absent subsystems are all 0, absent tasks look idle.
#[derive(Clone, Copy)]
pub struct State {
    pub left: [BudgetLeft; 8],
    pub refill: [u16; 8],
    pub used: [u16; 8],
    pub conditions: [u8; 32],
    pub waits: [u8; 32],
    pub counts: [u8; 32],
    pub held: [u8; 128],
}
