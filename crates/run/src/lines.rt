// "The run program", one line: an event line is read, its event is stepped, and the answer is printed behind the fill of a buffer.
ghost use Rattle.std.specs.Prelude.{◌≡◌, ◌+◌, ◌≤◌, IfSome, length};
ghost use Rattle.choice.specs.Lent.{Lent};
ghost use Rattle.step.specs.Step.{answer_of};
ghost use Rattle.line.specs.Run.{line_gives};
ghost use Rattle.run.specs.Lined.{LinePut, lined, lined_state, lined_out};

use crate::Lined;
use line::{event_of, print};
use plan::CeiledPlan;
use state::State;
use step::Answer;
use step::event::{stepped_as, unknown};

// A line is read, and its event is stepped. A line that is no event is answered 11.
fn line_answer(c: &CeiledPlan, s: &mut State, line: &[u8]) -> Answer
    ensures { Lent c.now s.old → (result ≡ answer_of (line_gives c.now.plan s.old line.now)) × (s.new ≡ (line_gives c.now.plan s.old line.now).state) }
{
    match event_of(line) {
        Some(e) => stepped_as(c, s, e.kind, e.task, e.resource),
        None => unknown(c, s),
    }
}

// The n-th event line on a legal state, which it alters where it lies, so that no state is copied. The buffer has room for any printed line, 128 bytes
// (line/proofs/Short), so that the fill always moves on.
pub fn line_in(
    c: &CeiledPlan,
    s: &mut State,
    number: u32,
    line: &[u8],
    out: &mut [u8],
    fill: usize,
) -> usize
    requires { fill + 128 ≤ length out.old }
    ensures within { result ≤ length out.old }
    ensures put { Lent c.now s.old → LinePut c.now.plan s.old number line.now out.old fill s.new result out.new }
{
    let a = line_answer(c, s, line);
    print(out, fill, number, a).unwrap_or(fill)
}

// The n-th event line on a legal state, its answer printed behind the fill. Where that has no room, state and buffer are as before.
pub fn line_step(
    c: &CeiledPlan,
    s: &mut State,
    number: u32,
    line: &[u8],
    out: &mut [u8],
    fill: usize,
) -> Option<Lined>
    ensures within { fill ≤ length out.old → IfSome result (λ l. l.fill ≤ length out.old) }
    ensures lined { Lent c.now s.old → (result ≡ lined c.now.plan s.old number line.now out.old fill)
        × (s.new ≡ lined_state c.now.plan s.old number line.now out.old fill) × (out.new ≡ lined_out c.now.plan s.old number line.now out.old fill) }
{
    let mut next = *s;
    let a = line_answer(c, &mut next, line);
    let end = print(out, fill, number, a)?;
    *s = next;
    Some(Lined {
        answer: a.answer,
        fill: end,
    })
}
