// pace PLAN: steps 1,000,000 events on a plan's fresh state, made up by a small generator, without the tests of plan and state that a call from C
// makes, and prints a sum over the answers. It is there to be timed: the benchmark makes the same events for the second program.
#![tactic(auto)]

use files::{argument, argument_count, open_file, read_file};
use plan::{CeiledPlan, Plan};
use reader::read_listed;
use state::State;
use std::fs::File;
use step::Answer;
use step::event::stepped;

const KINDS: [u32; 16] = [4, 4, 4, 4, 4, 4, 4, 0, 0, 0, 1, 1, 1, 2, 2, 3];

// What a refused plan is paced as.
const NO_ROWS: Plan = Plan {
    subsystems: 0,
    tasks: 0,
    resources: 0,
    periods: [0; 8],
    budgets: [0; 8],
    owners: [0; 32],
    kinds: [0; 16],
    lengths: [0; 512],
};

// The next number of the generator.
fn next(x: u64) -> u64 {
    (x % 4294967296 * 1664525 + 1013904223) % 4294967296
}

// The sum with one more answer.
fn summed(sum: u64, a: Answer) -> u64 {
    (sum % 4294967296 * 31
        + (a.answer as u64) * 65536
        + (a.subsystem as u64) * 256
        + (a.task as u64))
        % 4294967296
}

fn paced(c: &CeiledPlan, s: State) -> u64 {
    let mut state = s;
    let mut x: u64 = 1;
    let mut sum: u64 = 0;
    for _ in 0..1_000_000 {
        x = next(x);
        let kind = KINDS[(x / 65536 % 16) as usize];
        let task = (x / 1048576 % 32) as u32;
        let resource = (x / 4096 % 16) as u32;
        sum = summed(sum, stepped(c, &mut state, kind, task, resource));
    }
    sum
}

fn pace(rt: &HostRuntime, p: Plan) {
    let c = p.with_ceilings();
    let sum = paced(&c, State::fresh(&c.plan));
    let _ = println!(rt; "{sum}");
}

fn pace_file(rt: &HostRuntime, file: &mut File, path: &[u8]) {
    let mut buf = [0u8; 16385];
    let Ok(n) = read_file(rt, file, path, &mut buf) else {
        return;
    };
    pace(rt, read_listed(&buf[..n]).unwrap_or(NO_ROWS));
}

fn main(rt: HostRuntime) {
    if argument_count(&rt) != 2 {
        let _ = eprintln!(rt; "usage: pace PLAN");
        return;
    }
    let mut path = [0u8; 4096];
    let Some(length) = argument(&rt, 1, b"pace: PLAN", &mut path) else {
        return;
    };
    let Some(mut file) = open_file(&rt, &path[..length]) else {
        return;
    };
    pace_file(&rt, &mut file, &path[..length]);
}
