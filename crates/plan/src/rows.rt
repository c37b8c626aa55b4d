// The listed conditions on the rows of a plan: 23 and 29 on the counts, 25 on subsystems, 24 on tasks, and the kinds of resources.
ghost use Rattle.std.specs.Prelude.{◌≡◌};
ghost use Rattle.below.specs.Below.{all};
ghost use Rattle.plan.specs.Limits.{most_subsystems, most_tasks, most_resources};
ghost use Rattle.plan.specs.Accepted.{counts_fit, subsystem_fits, task_fits, resource_fits};

use crate::Plan;

impl Plan {
    #[tactic(auto, unfolding(crate::specs::Accepted::counts_fit))]
    pub(crate) fn counts_fit(&self) -> bool
        ensures { result ≡ counts_fit self.now }
    {
        1 <= self.subsystems && self.subsystems <= 8 && self.tasks <= 32 && self.resources <= 16
    }

    #[tactic(auto, unfolding(crate::specs::Accepted::subsystem_fits))]
    fn subsystem_fits(&self, s: u8) -> bool
        ensures { result ≡ subsystem_fits self.now s }
    {
        let period = self.period(s);
        let budget = self.budget(s);
        if s < self.subsystems {
            (1..=10000).contains(&period) && (1..=period).contains(&budget)
        } else {
            period == 0 && budget == 0
        }
    }

    pub(crate) fn subsystems_fit(&self) -> bool
        ensures { result ≡ all most_subsystems (subsystem_fits self.now) }
    {
        (0..8).all(|s| self.subsystem_fits(s))
    }

    #[tactic(auto, unfolding(crate::specs::Accepted::task_fits))]
    fn task_fits(&self, t: u8) -> bool
        ensures { result ≡ task_fits self.now t }
    {
        let owner = self.owner(t);
        if t < self.tasks {
            owner < self.subsystems
        } else {
            owner == 0
        }
    }

    pub(crate) fn tasks_fit(&self) -> bool
        ensures { result ≡ all most_tasks (task_fits self.now) }
    {
        (0..32).all(|t| self.task_fits(t))
    }

    #[tactic(auto, unfolding(crate::specs::Accepted::resource_fits))]
    fn resource_fits(&self, r: u8) -> bool
        ensures { result ≡ resource_fits self.now r }
    {
        let kind = self.kinds.get(r as usize).copied().unwrap_or(0);
        if r < self.resources {
            kind <= 1
        } else {
            kind == 0
        }
    }

    pub(crate) fn resources_fit(&self) -> bool
        ensures { result ≡ all most_resources (resource_fits self.now) }
    {
        (0..16).all(|r| self.resource_fits(r))
    }
}
