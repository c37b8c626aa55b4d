// The calls from C ("Calls from C"). Each says in one equation what it returns and what it leaves behind of everything it is lent.
#![tactic(auto)]

ghost use Rattle.std.specs.Prelude.{◌≡◌};
ghost use Rattle.host.specs.Read.{read_left, read_call};
ghost use Rattle.host.specs.Margin.{margin_left, margin_call};
ghost use Rattle.host.specs.Fresh.{fresh_left, fresh_call};
ghost use Rattle.host.specs.Step.{step_left, step_call};
ghost use Rattle.host.specs.Line.{line_left, line_call};

use image::{open, read_block, write_block, write_image};
use state::State;
use step::event::stepped;

// A plan text to its block. 34 where the block has another length than 1,108 bytes; otherwise 0 and the block, or the refusal with the
// block as it was. The number beside is part of the answer, and kept only with 34.
pub fn skrzypolot_read(text: &[u8], block: &mut [u8], beside: &mut u32) -> u32
    ensures { read_left result block.new beside.new ≡ read_call text.now block.old beside.old }
{
    if block.len() != 1108 {
        return 34;
    }
    let plan = match reader::read(text) {
        Ok(plan) => plan,
        Err(refused) => {
            *beside = refused.beside();
            return refused.number();
        }
    };
    write_block(&plan, block);
    *beside = 0;
    0
}

// The margin of a row of a plan text: 0 and the margin, or a refusal with the number beside it in the margin's place.
#[tactic(auto, unfolding(crate::specs::Margin::margin_call))]
pub fn skrzypolot_margin(text: &[u8], row: u32, margin: &mut i64) -> u32
    ensures { margin_left result margin.new ≡ margin_call text.now row }
{
    match reader::ask(text, row) {
        Ok(m) => {
            *margin = m;
            0
        }
        Err(refused) => {
            *margin = refused.beside() as i64;
            refused.number()
        }
    }
}

// The image of the state that a run of the block's plan starts in. 34 where a buffer has the wrong length, 31 where no accepted plan has the
// block; both keep the image.
pub fn skrzypolot_fresh(block: &[u8], image: &mut [u8]) -> u32
    ensures { fresh_left result image.new ≡ fresh_call block.now image.old }
{
    if image.len() != 320 {
        return 34;
    }
    let plan = match read_block(block) {
        Ok(plan) => plan,
        Err(refused) => return refused.number(),
    };
    write_image(&State::fresh(&plan), image);
    0
}

// An event on the state that the image writes. 34, 31 and 32 keep everything, the numbers behind pointers too; any answer of the event
// fills all of them, a refusal with the image as it was.
pub fn skrzypolot_step(
    block: &[u8],
    image: &mut [u8],
    kind: u32,
    task: u32,
    resource: u32,
    subsystem: &mut u32,
    running: &mut u32,
    ended: &mut u32,
) -> u32
    ensures { step_left result image.new subsystem.new running.new ended.new
        ≡ step_call block.now image.old kind task resource subsystem.old running.old ended.old }
{
    let lent = match open(block, image) {
        Ok(lent) => lent,
        Err(refused) => return refused.number(),
    };
    let mut state = lent.state;
    let a = stepped(&lent.plan, &mut state, kind, task, resource);
    write_image(&state, image);
    *subsystem = a.subsystem as u32;
    *running = a.task as u32;
    *ended = a.ended;
    a.answer as u32
}

// One event line on the state that the image writes, its printed line written behind the fill, which moves on. 34, 31, 32 and 33 keep
// everything.
pub fn skrzypolot_line(
    block: &[u8],
    image: &mut [u8],
    number: u32,
    line: &[u8],
    out: &mut [u8],
    fill: &mut usize,
) -> u32
    ensures { line_left result image.new out.new fill.new
        ≡ line_call block.now image.old number line.now out.old fill.old }
{
    let lent = match open(block, image) {
        Ok(lent) => lent,
        Err(refused) => return refused.number(),
    };
    let mut state = lent.state;
    let at = *fill;
    let Some(put) = run::line_step(&lent.plan, &mut state, number, line, out, at) else {
        return 33;
    };
    write_image(&state, image);
    *fill = put.fill;
    put.answer as u32
}
