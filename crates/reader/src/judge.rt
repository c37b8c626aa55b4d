// "Admission", its table: what is said of one line over the plan read so far. The tests stand in the order of the table.
#![tactic(auto, using(std::proofs::lemmas::Bool::Decides::nat_tests), unfolding(crate::specs::Reading::judged, crate::specs::Judged::judged_rows, crate::specs::Reading::first_of, crate::specs::Conditions::not_grammar, crate::specs::Conditions::kind_order, crate::specs::Conditions::too_many_rows, crate::specs::Conditions::no_such_row, crate::specs::Conditions::out_of_range, crate::specs::Conditions::twice, crate::specs::Conditions::two_subsystems, crate::specs::Conditions::above_budget))]

ghost use Rattle.std.specs.Prelude.{◌≡◌, ℕ, Some};
ghost use Rattle.reader.specs.Conditions.{out_of_range, two_subsystems, above_budget};
ghost use Rattle.reader.specs.Reading.{judged};
ghost use Rattle.reader.specs.Judged.{judged_rows};

use crate::grammar::kind_of;
use crate::{Line, Refusal};
use plan::Plan;

// S
fn judge_subsystem(p: &Plan, n: u32, period: u32, budget: u32) -> Result<(), Refusal>
    ensures { result ≡ judged_rows p.now n (Some (Line.Subsystem period budget)) }
{
    if 8 <= p.subsystems {
        return Err(Refusal::TooManyRows(n));
    }
    if period < 1 || 10000 < period || budget < 1 || period < budget {
        return Err(Refusal::OutOfRange(n));
    }
    Ok(())
}

// T
fn judge_task(p: &Plan, n: u32, subsystem: u32) -> Result<(), Refusal>
    ensures { result ≡ judged_rows p.now n (Some (Line.Task subsystem)) }
{
    if 32 <= p.tasks {
        return Err(Refusal::TooManyRows(n));
    }
    if (p.subsystems as u32) <= subsystem {
        return Err(Refusal::NoSuchRow(n));
    }
    Ok(())
}

// R
fn judge_resource(p: &Plan, n: u32, kind: u8) -> Result<(), Refusal>
    ensures { result ≡ judged_rows p.now n (Some (Line.Resource kind)) }
{
    if 16 <= p.resources {
        return Err(Refusal::TooManyRows(n));
    }
    Ok(())
}

// 25: the length of a global resource is 1 to 10000, of a local one 0.
fn out_of_range(p: &Plan, r: u8, length: u32) -> bool
    ensures { (t : ℕ) → result ≡ out_of_range p.now (Some (Line.Uses t r length)) }
{
    if p.is_global(r) {
        length < 1 || 10000 < length
    } else {
        length != 0
    }
}

// 27: a local resource that a task of another subsystem declared before.
fn two_subsystems(p: &Plan, t: u8, r: u8) -> bool
    ensures { (l : ℕ) → result ≡ two_subsystems p.now (Some (Line.Uses t r l)) }
{
    let owner = p.owner(t);
    !p.is_global(r) && (0..p.tasks).any(|k| p.declares(k, r) && p.owner(k) != owner)
}

// 28: longer than the budget of the task's subsystem.
fn above_budget(p: &Plan, t: u8, length: u32) -> bool
    ensures { (r : ℕ) → result ≡ above_budget p.now (Some (Line.Uses t r length)) }
{
    (p.budget(p.owner(t)) as u32) < length
}

// U
fn judge_use(p: &Plan, n: u32, task: u32, resource: u32, length: u32) -> Result<(), Refusal>
    ensures { result ≡ judged_rows p.now n (Some (Line.Uses task resource length)) }
{
    if (p.tasks as u32) <= task || (p.resources as u32) <= resource {
        return Err(Refusal::NoSuchRow(n));
    }
    let t = task as u8;
    let r = resource as u8;
    if out_of_range(p, r, length) {
        return Err(Refusal::OutOfRange(n));
    }
    if p.declares(t, r) {
        return Err(Refusal::Twice(n));
    }
    if two_subsystems(p, t, r) {
        return Err(Refusal::TwoSubsystems(n));
    }
    if above_budget(p, t, length) {
        return Err(Refusal::AboveBudget(n));
    }
    Ok(())
}

// 23 to 28, by the kind of the line.
fn judge_rows(p: &Plan, n: u32, l: Line) -> Result<(), Refusal>
    ensures { result ≡ judged_rows p.now n (Some l) }
{
    match l {
        Line::Subsystem { period, budget } => judge_subsystem(p, n, period, budget),
        Line::Task { subsystem } => judge_task(p, n, subsystem),
        Line::Resource { kind } => judge_resource(p, n, kind),
        Line::Uses {
            task,
            resource,
            length,
        } => judge_use(p, n, task, resource, length),
    }
}

// 22, then the others, over the plan read so far. last is the kind of the line before, n the number of this one.
pub fn judge(p: &Plan, last: u8, n: u32, l: Line) -> Result<(), Refusal>
    ensures { result ≡ judged p.now last n (Some l) }
{
    if kind_of(Some(l)) < last {
        return Err(Refusal::KindOrder(n));
    }
    judge_rows(p, n, l)
}
