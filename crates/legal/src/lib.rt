// A legal state: every condition of "State", those of subsystems and of tasks by themselves first. So what is held is there when its ceiling is read.
#![tactic(auto)]

ghost use Rattle.std.specs.Prelude.{true, ◌≡◌};
ghost use Rattle.below.specs.Listed.{listed};
ghost use Rattle.plan.specs.Accepted.{accepted};
ghost use Rattle.plan.specs.Ceiling.{ceiling};
ghost use Rattle.legal.specs.Legal.{legal};
ghost use Rattle.legal.specs.Parts.{subsystems_pass, tasks_pass, order_pass};

mod alone;
mod apart;
mod budgets;
mod order;
mod sections;

use alone::all_tasks_fit;
use apart::all_apart;
use budgets::all_counts_fit;
use order::all_ordered;
use plan::{CeiledPlan, Plan};
use sections::{all_unused_legal, sections_legal};
use state::State;

#[tactic(auto, unfolding(crate::specs::Parts::subsystems_pass))]
fn subsystems_pass(p: &Plan, s: &State) -> bool
    ensures { result ≡ subsystems_pass p.now s.now }
{
    all_counts_fit(p, s) && all_unused_legal(p, s)
}

#[tactic(auto, unfolding(crate::specs::Parts::tasks_pass))]
fn tasks_pass(p: &Plan, s: &State) -> bool
    ensures { result ≡ tasks_pass p.now s.now }
{
    all_tasks_fit(p, s) && sections_legal(p, s)
}

#[tactic(auto, unfolding(crate::specs::Parts::order_pass))]
fn order_passes(c: &CeiledPlan, s: &State) -> bool
    ensures { result ≡ order_pass c.now.plan c.now.ceilings s.now }
{
    all_ordered(c, s) && all_apart(c, s)
}

// Ceilings are those of the plan's resources, worked out once. A count that passes its table is no harm: a place that is not there reads as none.
#[tactic(auto, using(crate::proofs::CodeLegal::legal_tested))]
pub fn legal(c: &CeiledPlan, s: &State) -> bool
    ensures { accepted c.now.plan ≡ true → c.now.ceilings ≡ listed 16 (ceiling c.now.plan) → result ≡ legal c.now.plan s.now }
{
    subsystems_pass(&c.plan, s) && tasks_pass(&c.plan, s) && order_passes(c, s)
}
