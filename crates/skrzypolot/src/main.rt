// skrzypolot PLAN EVENTS: prints a line an event, or the refusal of the plan ("The run program"). Without arguments it runs plan P of document 01.
// What cannot be opened or read is named on standard error, and then nothing is printed. The event file is read in pieces, and never held whole.
#![tactic(auto)]

mod events;
mod pieces;

use files::{argument, argument_count, write_out};
use run::fill_of;

// Plan P and its events.
fn run_sample(rt: &HostRuntime) {
    let mut out = [0u8; 1024];
    let r = run::run(
        b"S\t10\t4\nS\t20\t6\nT\t0\nT\t0\nT\t1\nR\tG\nR\tL\nU\t0\t0\t2\nU\t0\t1\t0\nU\t1\t1\t0\nU\t2\t0\t3\n",
        b"release\t2\ntick\nrelease\t1\nlock\t1\t1\nrelease\t0\ntick\ntick\nunlock\t1\t1\nlock\t0\t0\ntick\nlock\t2\t0\ntick\ntick\ntick\ntick\nend\t2\ntick\ntick\ntick\n",
        &mut out,
        0,
    );
    let _ = write_out(rt, &out[..fill_of(r)]);
}

fn main(rt: HostRuntime) {
    let arguments = argument_count(&rt);
    if arguments == 1 {
        run_sample(&rt);
        return;
    }
    if arguments != 3 {
        let _ = eprintln!(rt; "usage: skrzypolot [PLAN EVENTS]");
        return;
    }
    let mut plan = [0u8; 4096];
    let Some(plan_length) = argument(&rt, 1, b"skrzypolot: PLAN", &mut plan) else {
        return;
    };
    let mut events = [0u8; 4096];
    let Some(events_length) = argument(&rt, 2, b"skrzypolot: EVENTS", &mut events) else {
        return;
    };
    events::run_files(&rt, &plan[..plan_length], &events[..events_length]);
}
