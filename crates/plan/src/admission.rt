// "Admission": B, the demand, and the rows whose margin is negative.
ghost use Rattle.std.specs.Prelude.{◌≡◌, ◌<◌, ◌^◌};
ghost use Rattle.below.specs.Below.{greatest, sum};
ghost use Rattle.below.specs.Quotient.{rounded_up};
ghost use Rattle.plan.specs.Admission.{blocking, demand, margin, first_negative};
ghost use Rattle.plan.specs.Parts.{blocking_at, demand_by};

use crate::Plan;

// Periods of 0 are read too: the definition divides by 0 to 0.
#[tactic(auto, unfolding(below::specs::Quotient::rounded_up))]
fn rounded_up(m: u16, p: u16) -> u64
    ensures value { result ≡ rounded_up m p }
    ensures upper_bound { result < 2 ^ 17 }
{
    if p == 0 {
        return 0;
    }
    ((m as u64) + ((p as u64) - 1)) / (p as u64)
}

impl Plan {
    // What one pair of a task and a resource counts in B of row s: the length declared, of a global resource by a task of row s or of a later one.
    #[tactic(auto, unfolding(crate::specs::Parts::blocking_at, crate::specs::Plan::level))]
    fn blocking_at(&self, s: u8, t: u8, r: u8) -> u16
        ensures { result ≡ blocking_at self.now s t r }
    {
        if s <= self.owner(t) && self.is_global(r) && self.declares(t, r) {
            self.length(t, r)
        } else {
            0
        }
    }

    // What one task counts in it.
    fn blocking_by(&self, s: u8, t: u8) -> u16
        ensures { result ≡ greatest self.now.resources (blocking_at self.now s t) }
    {
        (0..self.resources)
            .map(|r| self.blocking_at(s, t, r))
            .max()
            .unwrap_or(0)
    }

    // B of a row.
    pub fn blocking(&self, s: u8) -> u16
        ensures { result ≡ blocking self.now s }
    {
        (0..self.tasks)
            .map(|t| self.blocking_by(s, t))
            .max()
            .unwrap_or(0)
    }

    // What row h counts in the demand of row s: if it is smaller, its budget once for each of its periods begun in a period of s.
    #[tactic(auto, unfolding(crate::specs::Parts::demand_by, crate::specs::Plan::level))]
    fn demand_by(&self, s: u8, h: u8) -> u64
        ensures value { result ≡ demand_by self.now s h }
        ensures upper_bound { result < 2 ^ 33 }
    {
        if h < s {
            let times = rounded_up(self.period(s), self.period(h));
            (self.budget(h) as u64) * times
        } else {
            0
        }
    }

    // What the rows below `rows` add to the demand of row s.
    fn demand_before(&self, rows: u8, s: u8) -> u64
        ensures value { result ≡ sum rows (demand_by self.now s) }
        ensures upper_bound { result < 2 ^ 41 }
    {
        (0..rows).map(|h| self.demand_by(s, h)).sum()
    }

    // The demand of a row, far below what a number holds.
    #[tactic(auto, unfolding(crate::specs::Admission::demand, crate::specs::Parts::demand_by))]
    fn bounded_demand(&self, s: u8) -> u64
        ensures value { result ≡ demand self.now s }
        ensures upper_bound { result < 2 ^ 42 }
    {
        (self.budget(s) as u64) + (self.blocking(s) as u64) + self.demand_before(self.subsystems, s)
    }

    // The demand of a row.
    pub fn demand(&self, s: u8) -> u64
        ensures { result ≡ demand self.now s }
    {
        self.bounded_demand(s)
    }

    // The period of a row minus its demand.
    #[tactic(auto, unfolding(crate::specs::Admission::margin), using(crate::proofs::Bounds::difference_fits, crate::proofs::Bounds::difference_is))]
    pub fn margin(&self, s: u8) -> i64
        ensures { result ≡ margin self.now s }
    {
        (self.period(s) as i64) - (self.bounded_demand(s) as i64)
    }

    // The first row whose margin is negative; the number of subsystems if none is.
    pub fn first_negative(&self) -> u8
        ensures { result ≡ first_negative self.now }
    {
        (0..self.subsystems)
            .find(|s| (self.period(*s) as u64) < self.demand(*s))
            .unwrap_or(self.subsystems)
    }
}
