// The plan record and what is asked of it. Every method takes any record of the type: a count may pass its table, a period may be 0.
#![tactic(auto)]

ghost use Rattle.std.specs.Prelude.{◌≡◌};
ghost use Rattle.plan.specs.Accepted.{accepted};

mod admission;
mod ceiling;
mod rows;
mod says;
mod uses;

// A plan that was read. Rows past the counts are all 0. The length of task t at resource r stands at t * 16 + r; 65535 is undeclared.
#[derive(Clone, Copy)]
pub struct Plan {
    pub subsystems: u8,
    pub tasks: u8,
    pub resources: u8,
    pub periods: [u16; 8],
    pub budgets: [u16; 8],
    pub owners: [u8; 32],
    pub kinds: [u8; 16],
    pub lengths: [u16; 512],
}

// A plan with the ceilings of its resources, worked out once.
#[derive(Clone, Copy)]
pub struct CeiledPlan {
    pub plan: Plan,
    pub ceilings: [u8; 16],
}

impl Plan {
    // Every condition of the table of refusals, as it reads on a record: rows, pairs, and then 30.
    #[tactic(auto, unfolding(crate::specs::Accepted::accepted, crate::specs::Admission::admitted))]
    pub fn is_accepted(&self) -> bool
        ensures { result ≡ accepted self.now }
    {
        self.counts_fit()
            && self.subsystems_fit()
            && self.tasks_fit()
            && self.resources_fit()
            && self.lengths_fit()
            && self.one_subsystem_each()
            && self.subsystems <= self.first_negative()
    }
}
