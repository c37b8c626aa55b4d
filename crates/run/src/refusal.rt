// "The run program": the line of a refused plan, in a run and in a report.
ghost use Rattle.std.specs.Prelude.{◌≡◌, [], ◌∷◌};
ghost use Rattle.reader.specs.Numbers.{number, beside};
ghost use Rattle.line.specs.Printed.{printed_refusal};
ghost use Rattle.run.specs.AsFar.{as_far, as_far_out};

use crate::Full;
use line::print_refusal;
use reader::Refusal;

// A refused plan prints its refusal alone.
pub fn put_refusal(e: Refusal, out: &mut [u8], fill: usize) -> Result<usize, Full>
    ensures { (result ≡ as_far (printed_refusal (number e) (beside e) ∷ []) out.old fill) × (out.new ≡ as_far_out (printed_refusal (number e) (beside e) ∷ []) out.old fill) }
{
    print_refusal(out, fill, e.number(), e.beside()).ok_or(Full { fill })
}
