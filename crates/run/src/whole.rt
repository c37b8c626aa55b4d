// "The run program": a whole run, from a plan text and an event text to the printed text, as far as the buffer goes.
ghost use Rattle.std.specs.Prelude.{◌≡◌, ◌+◌, ◌<◌, length, take, drop};
ghost use Rattle.text.specs.Lines.{lines};
ghost use Rattle.choice.specs.Lent.{Lent};
ghost use Rattle.line.specs.Run.{most_lines, outcomes};
ghost use Rattle.run.specs.AsFar.{as_far, as_far_out};
ghost use Rattle.run.specs.Fed.{first_line};
ghost use Rattle.run.specs.Running.{printed_lines, run_lines};

use crate::Full;
use crate::lines::line_step;
use crate::refusal::put_refusal;
use plan::CeiledPlan;
use reader::read;
use state::State;
use text::find;

// Where the line at a place ends: behind its line feed, or with the text.
fn line_end(events: &[u8], at: usize) -> usize
    requires { at < length events.now }
    ensures { result ≡ at + length (first_line (drop at events.now)) }
{
    let end = find(events, at, b'\n');
    if end < events.len() { end + 1 } else { end }
}

// The lines of an event text one after the other, up to the first whose printed line has no room, and 9,999,999 at most.
fn run_lines(
    c: &CeiledPlan,
    s: State,
    events: &[u8],
    out: &mut [u8],
    fill: usize,
) -> Result<usize, Full>
    ensures { Lent c.now s
        → (result ≡ as_far (printed_lines 1 (outcomes c.now.plan s (take most_lines (lines events.now)))) out.old fill)
        × (out.new ≡ as_far_out (printed_lines 1 (outcomes c.now.plan s (take most_lines (lines events.now)))) out.old fill) }
{
    let mut state = s;
    let mut filled = fill;
    let mut at = 0;
    for number in 1..10_000_000 {
        if at == events.len() {
            break;
        }
        let end = line_end(events, at);
        let line = &events[at..end];
        let l = line_step(c, &mut state, number, line, out, filled).ok_or(Full { fill: filled })?;
        filled = l.fill;
        at = end;
    }
    Ok(filled)
}

// A whole run: a refused plan prints its refusal, an accepted one runs from its fresh state.
pub fn run(plan: &[u8], events: &[u8], out: &mut [u8], fill: usize) -> Result<usize, Full>
    ensures { (result ≡ as_far (run_lines plan.now events.now) out.old fill)
        × (out.new ≡ as_far_out (run_lines plan.now events.now) out.old fill) }
{
    match read(plan) {
        Ok(p) => {
            let c = p.with_ceilings();
            run_lines(&c, State::fresh(&c.plan), events, out, fill)
        }
        Err(e) => put_refusal(e, out, fill),
    }
}
