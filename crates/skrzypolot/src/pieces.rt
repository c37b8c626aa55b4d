// The output of a run goes through one buffer, by the writer's own answer that a line has no room: then the buffer is written out, and the run goes on.
ghost use Rattle.std.specs.Prelude.{◌≤◌, IfOk, length, take};
ghost use Rattle.run.specs.Standing.{Stands};
ghost use Rattle.run.specs.Fed.{at_of};
ghost use Rattle.skrzypolot.specs.Went.{Went};

use files::{Unwritten, write_out};
use plan::CeiledPlan;
use run::stream::Stream;

// One piece of the event file, and the fill of the buffer behind it. Where a line has no room, the buffer is written out. Any line has room in an empty
// buffer of 128 bytes (line/proofs/Short), so that such a line is then taken, and only a write that failed ends a piece early.
pub fn answer_piece(
    rt: &HostRuntime,
    c: &CeiledPlan,
    s: &mut Stream,
    piece: &[u8],
    out: &mut [u8],
    fill: usize,
) -> Result<usize, Unwritten>
    requires { (fill ≤ length out.old) × (128 ≤ length out.old) × Stands c.now s.old.state }
    ensures fill_in_bounds { IfOk result (λ n. n ≤ length out.new) }
    ensures stands { Stands c.now s.new.state }
    ensures went { IfOk result (λ n. Went c.now.plan (at_of s.old) (take fill out.old) piece.now (at_of s.new) (take n out.new)) }
{
    let mut filled = fill;
    let mut at = 0;
    // a while, since each turn says how much of the piece it took, and nothing where the buffer is full
    while at < piece.len() {
        let f = s.feed(c, &piece[at..], out, filled);
        if f.taken == 0 {
            write_out(rt, &out[..filled])?;
            filled = 0;
        } else {
            filled = f.fill;
            at += f.taken;
        }
    }
    Ok(filled)
}

// The last line alone, in a buffer that was written out.
fn answer_last(
    rt: &HostRuntime,
    c: &CeiledPlan,
    s: &Stream,
    out: &mut [u8],
) -> Result<(), Unwritten> {
    let Some(end) = s.finish(c, out, 0) else {
        return Ok(());
    };
    write_out(rt, &out[..end])
}

// The end of the file: the last line, and then all that the buffer holds.
pub fn answer_end(
    rt: &HostRuntime,
    c: &CeiledPlan,
    s: &Stream,
    out: &mut [u8],
    fill: usize,
) -> Result<(), Unwritten>
    requires { fill ≤ length out.old }
{
    let Some(end) = s.finish(c, out, fill) else {
        write_out(rt, &out[..fill])?;
        return answer_last(rt, c, s, out);
    };
    write_out(rt, &out[..end])
}
