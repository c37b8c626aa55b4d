// "The run program": the printed lines. Each is composed in a scratch of its own, from its last field to its first, and then written behind
// the fill. The longest has 109 bytes (proofs/Short): 10 digits, 3, two rows of 3, 32 rows with 31 commas, 4 spaces and the line feed.
ghost use Rattle.std.specs.Prelude.{◌≡◌, []};
ghost use Rattle.line.specs.Filled.{fill_after, out_after};
ghost use Rattle.line.specs.Printed.{answer_line, printed_refusal};
ghost use Rattle.line.specs.Reported.{report_text};

use crate::put::add;
use crate::scratch::Scratch;
use step::Answer;

// Event number, answer, subsystem, task, tasks ended.
#[tactic(auto, unfolding(crate::specs::Printed::answer_line, crate::specs::Printed::spaced, crate::specs::Before::parted), using(crate::proofs::Decimal::digit_counts))]
fn compose_answer(line: &mut Scratch, number: u32, a: Answer)
    requires { line.old ≡ [] }
    ensures { line.new ≡ answer_line number a.answer a.subsystem a.task a.ended }
{
    line.byte(b'\n');
    line.ended(a.ended);
    line.row_field(a.task);
    line.row_field(a.subsystem);
    line.number_field(a.answer as u64);
    line.number_field(number as u64);
}

// The printed line of an event.
#[tactic(auto, unfolding(crate::specs::Printed::answer_line), using(crate::proofs::Spaced::spaced_some))]
pub fn print(out: &mut [u8], fill: usize, number: u32, a: Answer) -> Option<usize>
    ensures { (result ≡ fill_after out.old fill (answer_line number a.answer a.subsystem a.task a.ended))
        × (out.new ≡ out_after out.old fill (answer_line number a.answer a.subsystem a.task a.ended)) }
{
    let mut line = Scratch::new();
    compose_answer(&mut line, number, a);
    add(out, fill, line.text())
}

// The word plan, the number and the number beside it.
#[tactic(auto, unfolding(crate::specs::Printed::printed_refusal, crate::specs::Printed::spaced, crate::specs::Before::parted, text::specs::Bytes::bytes), using(crate::proofs::Decimal::digit_counts))]
fn compose_refusal(line: &mut Scratch, number: u32, beside: u32)
    requires { line.old ≡ [] }
    ensures { line.new ≡ printed_refusal number beside }
{
    line.byte(b'\n');
    line.decimal(beside as u64);
    line.number_field(number as u64);
    line.word(b"plan ");
}

// The line of a refused plan.
#[tactic(auto, unfolding(crate::specs::Printed::printed_refusal), using(crate::proofs::Spaced::spaced_some))]
pub fn print_refusal(out: &mut [u8], fill: usize, number: u32, beside: u32) -> Option<usize>
    ensures { (result ≡ fill_after out.old fill (printed_refusal number beside))
        × (out.new ≡ out_after out.old fill (printed_refusal number beside)) }
{
    let mut line = Scratch::new();
    compose_refusal(&mut line, number, beside);
    add(out, fill, line.text())
}

// Row, period, budget, blocking, demand, margin.
#[tactic(auto, using(crate::proofs::Decimal::digit_counts))]
fn compose_report(
    line: &mut Scratch,
    row: u8,
    period: u16,
    budget: u16,
    blocking: u16,
    demand: u64,
    margin: i64,
)
    requires { line.old ≡ [] }
    ensures { line.new ≡ report_text row period budget blocking demand margin }
{
    line.byte(b'\n');
    line.signed(margin);
    line.number_field(demand);
    line.number_field(blocking as u64);
    line.number_field(budget as u64);
    line.number_field(period as u64);
    line.number_field(row as u64);
}

// A line of the admission report.
#[tactic(auto, unfolding(crate::specs::Reported::report_text), using(crate::proofs::Spaced::spaced_some))]
pub fn report_line(
    out: &mut [u8],
    fill: usize,
    row: u8,
    period: u16,
    budget: u16,
    blocking: u16,
    demand: u64,
    margin: i64,
) -> Option<usize>
    ensures { (result ≡ fill_after out.old fill (report_text row period budget blocking demand margin))
        × (out.new ≡ out_after out.old fill (report_text row period budget blocking demand margin)) }
{
    let mut line = Scratch::new();
    compose_report(&mut line, row, period, budget, blocking, demand, margin);
    add(out, fill, line.text())
}
