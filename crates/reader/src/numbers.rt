// "Admission": the numbers that a host is told of a plan or a margin, as of their refusals.
ghost use Rattle.std.specs.Prelude.{◌≡◌};
ghost use Rattle.reader.specs.Told.{number_read, beside_read, asked_number, asked_value};

use crate::{Refusal, Unasked};
use plan::Plan;

// 0 for a plan.
#[tactic(auto, unfolding(crate::specs::Told::number_read))]
pub fn number(r: &Result<Plan, Refusal>) -> u32
    ensures { result ≡ number_read r.now }
{
    match r {
        Ok(_) => 0,
        Err(refused) => refused.number(),
    }
}

// 0 for a plan.
#[tactic(auto, unfolding(crate::specs::Told::beside_read))]
pub fn beside(r: &Result<Plan, Refusal>) -> u32
    ensures { result ≡ beside_read r.now }
{
    match r {
        Ok(_) => 0,
        Err(refused) => refused.beside(),
    }
}

// 0 for a margin.
#[tactic(auto, unfolding(crate::specs::Told::asked_number))]
pub fn asked_number(a: Result<i64, Unasked>) -> u32
    ensures { result ≡ asked_number a }
{
    match a {
        Ok(_) => 0,
        Err(unasked) => unasked.number(),
    }
}

// The margin, or the number beside its refusal.
#[tactic(auto, unfolding(crate::specs::Told::asked_value))]
pub fn asked_value(a: Result<i64, Unasked>) -> i64
    ensures { result ≡ asked_value a }
{
    match a {
        Ok(m) => m,
        Err(unasked) => unasked.beside() as i64,
    }
}
