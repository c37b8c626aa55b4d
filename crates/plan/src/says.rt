// "The plan text": what a plan says of its rows. A row that is not there reads 0.
ghost use Rattle.std.specs.Prelude.{◌≡◌, get_or};
ghost use Rattle.plan.specs.Plan.{period, budget, owner, is_global, length_of, declares};

use crate::{CeiledPlan, Plan};

impl Plan {
    #[tactic(auto, unfolding(crate::specs::Plan::period))]
    pub fn period(&self, s: u8) -> u16
        ensures { result ≡ period self.now s }
    {
        self.periods.get(s as usize).copied().unwrap_or(0)
    }

    #[tactic(auto, unfolding(crate::specs::Plan::budget))]
    pub fn budget(&self, s: u8) -> u16
        ensures { result ≡ budget self.now s }
    {
        self.budgets.get(s as usize).copied().unwrap_or(0)
    }

    // The subsystem of a task.
    #[tactic(auto, unfolding(crate::specs::Plan::owner))]
    pub fn owner(&self, t: u8) -> u8
        ensures { result ≡ owner self.now t }
    {
        self.owners.get(t as usize).copied().unwrap_or(0)
    }

    #[tactic(auto, unfolding(crate::specs::Plan::is_global))]
    pub fn is_global(&self, r: u8) -> bool
        ensures { result ≡ is_global self.now r }
    {
        self.kinds.get(r as usize).copied().unwrap_or(0) == 1
    }

    // The length of a task at a resource; 65535 is undeclared.
    #[tactic(auto, unfolding(crate::specs::Plan::length_of, crate::specs::Plan::place))]
    pub fn length(&self, t: u8, r: u8) -> u16
        ensures { result ≡ length_of self.now t r }
    {
        let place = (t as usize) * 16 + (r as usize);
        self.lengths.get(place).copied().unwrap_or(0)
    }

    #[tactic(auto, unfolding(crate::specs::Plan::declares))]
    pub fn declares(&self, t: u8, r: u8) -> bool
        ensures { result ≡ declares self.now t r }
    {
        self.length(t, r) != 65535
    }
}

impl CeiledPlan {
    // The ceiling of a resource, as the list has it.
    pub fn ceiling(&self, r: u8) -> u8
        ensures { result ≡ get_or self.now.ceilings r 0 }
    {
        self.ceilings.get(r as usize).copied().unwrap_or(0)
    }
}
