// A run on two files. Both are opened and read from before anything is printed.
ghost use Rattle.std.specs.Prelude.{◌≡◌, ◌≤◌, IfOk, IfErr, length};
ghost use Rattle.std.specs.Counts.{IsPrefixLen};
ghost use Rattle.plan.specs.Facts.{Accepted};
ghost use Rattle.run.specs.Standing.{Stands};

use crate::pieces::{answer_end, answer_piece};
use files::{open_file, read_file, read_piece, write_out};
use line::print_refusal;
use plan::{CeiledPlan, Plan};
use reader::Refusal;
use run::stream::Stream;
use std::fs::File;

// Where a run stands before a piece: the fill of the buffer, and how many bytes the piece has. A piece without bytes is the end.
#[derive(Clone, Copy)]
struct Going {
    fill: usize,
    count: usize,
}

// A read or a write failed, which ended the run. The fill is what the buffer holds that is still to be written: nothing behind a write that failed.
#[derive(Clone, Copy)]
struct Broken {
    fill: usize,
}

// One piece is answered, and the next one is read. Past 9,999,999 lines none is.
fn next_piece(
    rt: &HostRuntime,
    c: &CeiledPlan,
    s: &mut Stream,
    g: Going,
    file: &mut File,
    path: &[u8],
    piece: &mut [u8],
    out: &mut [u8],
) -> Result<Going, Broken>
    requires { IsPrefixLen g.count piece.old × (g.fill ≤ length out.old) × (128 ≤ length out.old) × Stands c.now s.old.state }
    ensures going { IfOk result (λ n. IsPrefixLen n.count piece.new × (n.fill ≤ length out.new)) }
    ensures broken { IfErr result (λ b. b.fill ≤ length out.new) }
    ensures stands { Stands c.now s.new.state }
{
    let Ok(fill) = answer_piece(rt, c, s, &piece[..g.count], out, g.fill) else {
        return Err(Broken { fill: 0 });
    };
    if 9999999 < s.number {
        return Ok(Going { fill, count: 0 });
    }
    let Ok(count) = read_piece(rt, file, path, piece) else {
        return Err(Broken { fill });
    };
    Ok(Going { fill, count })
}

// The pieces from the first one on. A proved loop has to end, and nothing says that a file does: its turns are counted, up to a number that no run reaches.
fn run_pieces(
    rt: &HostRuntime,
    c: &CeiledPlan,
    s: &mut Stream,
    first: Going,
    file: &mut File,
    path: &[u8],
    piece: &mut [u8],
    out: &mut [u8],
) -> Result<(), Broken>
    requires { IsPrefixLen first.count piece.old × (first.fill ≤ length out.old) × (128 ≤ length out.old) × Stands c.now s.old.state }
    ensures broken { IfErr result (λ b. b.fill ≤ length out.new) }
{
    let mut g = first;
    for _ in 0..u64::MAX {
        if g.count == 0 {
            break;
        }
        g = next_piece(rt, c, s, g, file, path, piece, out)?;
    }
    let _ = answer_end(rt, c, s, out, g.fill);
    Ok(())
}

// The line of a refused plan.
fn print_refused(rt: &HostRuntime, e: Refusal) {
    let mut out = [0u8; 128];
    let Some(end) = print_refusal(&mut out, 0, e.number(), e.beside()) else {
        return;
    };
    let _ = write_out(rt, &out[..end]);
}

// What the plan file was read to, and the event file. Its first piece is read before anything is printed, also for a refused plan.
fn run_events(rt: &HostRuntime, r: Result<Plan, Refusal>, file: &mut File, path: &[u8])
    requires { IfOk r Accepted }
{
    let mut piece = [0u8; 65536];
    let Ok(count) = read_piece(rt, file, path, &mut piece) else {
        return;
    };
    let p = match r {
        Ok(p) => p,
        Err(e) => {
            print_refused(rt, e);
            return;
        }
    };
    let c = p.with_ceilings();
    let mut stream = Stream::begin(&c.plan);
    let mut out = [0u8; 65536];
    let first = Going { fill: 0, count };
    if let Err(broken) = run_pieces(rt, &c, &mut stream, first, file, path, &mut piece, &mut out) {
        let _ = write_out(rt, &out[..broken.fill]);
    }
}

fn open_events(rt: &HostRuntime, r: Result<Plan, Refusal>, path: &[u8])
    requires { IfOk r Accepted }
{
    let Some(mut file) = open_file(rt, path) else {
        return;
    };
    run_events(rt, r, &mut file, path);
}

// "Admission", 20: a longer plan file is refused for its length, so no more than 16,385 bytes are read.
pub fn run_files(rt: &HostRuntime, plan: &[u8], events: &[u8]) {
    let Some(mut file) = open_file(rt, plan) else {
        return;
    };
    let mut buf = [0u8; 16385];
    let Ok(n) = read_file(rt, &mut file, plan, &mut buf) else {
        return;
    };
    drop(file);
    open_events(rt, reader::read(&buf[..n]), events);
}
