// The calls from C ("Calls from C") under their names in C, as include/skrzypolot.h declares them. Each is the call of host, and says what that says.
#![tactic(auto)]

ghost use Rattle.std.specs.Prelude.{◌≡◌};
ghost use Rattle.host.specs.Read.{read_left, read_call};
ghost use Rattle.host.specs.Margin.{margin_left, margin_call};
ghost use Rattle.host.specs.Fresh.{fresh_left, fresh_call};
ghost use Rattle.host.specs.Step.{step_left, step_call};
ghost use Rattle.host.specs.Line.{line_left, line_call};

// A plan text to its block.
#[unsafe(no_mangle)]
pub extern "C" fn skrzypolot_read(text: &[u8], block: &mut [u8], beside: &mut u32) -> u32
    ensures { read_left result block.new beside.new ≡ read_call text.now block.old beside.old }
{
    host::skrzypolot_read(text, block, beside)
}

// The margin of a row of a plan text.
#[unsafe(no_mangle)]
pub extern "C" fn skrzypolot_margin(text: &[u8], row: u32, margin: &mut i64) -> u32
    ensures { margin_left result margin.new ≡ margin_call text.now row }
{
    host::skrzypolot_margin(text, row, margin)
}

// The image of the state that a run of the block's plan starts in.
#[unsafe(no_mangle)]
pub extern "C" fn skrzypolot_fresh(block: &[u8], image: &mut [u8]) -> u32
    ensures { fresh_left result image.new ≡ fresh_call block.now image.old }
{
    host::skrzypolot_fresh(block, image)
}

// An event on the state that the image writes.
#[unsafe(no_mangle)]
pub extern "C" fn skrzypolot_step(
    block: &[u8],
    image: &mut [u8],
    kind: u32,
    task: u32,
    resource: u32,
    subsystem: &mut u32,
    running: &mut u32,
    ended: &mut u32,
) -> u32
    ensures { step_left result image.new subsystem.new running.new ended.new
        ≡ step_call block.now image.old kind task resource subsystem.old running.old ended.old }
{
    host::skrzypolot_step(
        block, image, kind, task, resource, subsystem, running, ended,
    )
}

// One event line on the state that the image writes, its printed line written behind the fill, which moves on.
#[unsafe(no_mangle)]
pub extern "C" fn skrzypolot_line(
    block: &[u8],
    image: &mut [u8],
    number: u32,
    line: &[u8],
    out: &mut [u8],
    fill: &mut usize,
) -> u32
    ensures { line_left result image.new out.new fill.new
        ≡ line_call block.now image.old number line.now out.old fill.old }
{
    host::skrzypolot_line(block, image, number, line, out, fill)
}
