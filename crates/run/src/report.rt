// The admission report of a plan text.
ghost use Rattle.std.specs.Prelude.{◌≡◌};
ghost use Rattle.line.specs.Filled.{fill_after, out_after};
ghost use Rattle.line.specs.Report.{report_line};
ghost use Rattle.run.specs.AsFar.{as_far, as_far_out};
ghost use Rattle.run.specs.Reporting.{report_from, reported_lines};

use crate::Full;
use crate::refusal::put_refusal;
use plan::Plan;
use reader::read_listed;

// The line of a row.
fn report_row(p: &Plan, s: u8, out: &mut [u8], fill: usize) -> Option<usize>
    ensures { (result ≡ fill_after out.old fill (report_line p.now s)) × (out.new ≡ out_after out.old fill (report_line p.now s)) }
{
    line::report_line(
        out,
        fill,
        s,
        p.period(s),
        p.budget(s),
        p.blocking(s),
        p.demand(s),
        p.margin(s),
    )
}

// The lines of all rows.
fn report_rows(p: &Plan, out: &mut [u8], fill: usize) -> Result<usize, Full>
    ensures { (result ≡ as_far (report_from p.now p.now.subsystems 0) out.old fill) × (out.new ≡ as_far_out (report_from p.now p.now.subsystems 0) out.old fill) }
{
    let mut at = fill;
    for s in 0..p.subsystems {
        at = report_row(p, s, out, at).ok_or(Full { fill: at })?;
    }
    Ok(at)
}

// The report of a plan text behind the fill of a buffer: a line a row, or the refusal of a plan that has no margins.
pub fn report(text: &[u8], out: &mut [u8], fill: usize) -> Result<usize, Full>
    ensures { (result ≡ as_far (reported_lines text.now) out.old fill) × (out.new ≡ as_far_out (reported_lines text.now) out.old fill) }
{
    match read_listed(text) {
        Ok(p) => report_rows(&p, out, fill),
        Err(e) => put_refusal(e, out, fill),
    }
}
