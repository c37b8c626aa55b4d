#![tactic(auto)]

ghost use Rattle.std.specs.Prelude.{◌≡◌};
ghost use Rattle.reader.specs.Reading.{listed_reading, reading};
ghost use Rattle.reader.specs.Margin.{asked};

mod build;
pub mod grammar;
mod judge;
mod lines;
pub mod numbers;
mod refusals;

use lines::read_lines;
use plan::Plan;
pub use refusals::{Refusal, Unasked};

// One line of a plan text, with the numbers as written.
#[derive(Clone, Copy)]
pub enum Line {
    Subsystem {
        period: u32,
        budget: u32,
    },
    Task {
        subsystem: u32,
    },
    Resource {
        kind: u8,
    },
    Uses {
        task: u32,
        resource: u32,
        length: u32,
    },
}

// "Admission": 20 is judged first, then the first bad line, then 29. So this is the plan as it is listed, whatever its margins.
#[tactic(auto, using(crate::proofs::Answers::listed_long, crate::proofs::Answers::listed_bad, crate::proofs::Answers::listed_none, crate::proofs::Answers::listed_some))]
pub fn read_listed(text: &[u8]) -> Result<Plan, Refusal>
    ensures { result ≡ listed_reading text.now }
{
    if 16384 < text.len() {
        return Err(Refusal::TooLong);
    }
    let p = read_lines(text)?;
    if p.subsystems == 0 {
        return Err(Refusal::NoSubsystem);
    }
    Ok(p)
}

// "Admission": what is listed is judged first, then 30: a margin is negative, and the first such row.
#[tactic(auto, using(crate::proofs::Answers::reading_unlisted, crate::proofs::Answers::reading_negative, crate::proofs::Answers::reading_fine))]
pub fn read(text: &[u8]) -> Result<Plan, Refusal>
    ensures { result ≡ reading text.now }
{
    let p = read_listed(text)?;
    let row = p.first_negative();
    if row < p.subsystems {
        return Err(Refusal::NegativeMargin(row as u32));
    }
    Ok(p)
}

// "Admission": the margin of a row of a plan that meets no refusal but 30. A row the plan lacks gives 24 and 0, any other plan its refusal.
#[tactic(auto, unfolding(crate::specs::Margin::asked, crate::specs::Margin::asked_by, crate::specs::Margin::asked_of))]
pub fn ask(text: &[u8], row: u32) -> Result<i64, Unasked>
    ensures { result ≡ asked text.now row }
{
    let p = read_listed(text)?;
    if row < (p.subsystems as u32) {
        return Ok(p.margin(row as u8));
    }
    Err(Unasked::NoRow)
}
