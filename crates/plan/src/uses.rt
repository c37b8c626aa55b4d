// The listed conditions on pairs of a task and a resource: 25 and 28 on declared lengths, and 27.
ghost use Rattle.std.specs.Prelude.{◌≡◌};
ghost use Rattle.below.specs.Below.{all};
ghost use Rattle.plan.specs.Limits.{most_tasks, most_resources};
ghost use Rattle.plan.specs.Accepted.{length_fits, use_fits, one_subsystem};
ghost use Rattle.plan.specs.Parts.{used_from};

use crate::Plan;

impl Plan {
    #[tactic(auto, unfolding(crate::specs::Accepted::length_fits))]
    fn length_fits(&self, t: u8, r: u8) -> bool
        ensures { result ≡ length_fits self.now t r }
    {
        let length = self.length(t, r);
        if self.is_global(r) {
            (1..=10000).contains(&length) && length <= self.budget(self.owner(t))
        } else {
            length == 0
        }
    }

    #[tactic(auto, unfolding(crate::specs::Accepted::use_fits))]
    fn use_fits(&self, t: u8, r: u8) -> bool
        ensures { result ≡ use_fits self.now t r }
    {
        if t < self.tasks && r < self.resources {
            !self.declares(t, r) || self.length_fits(t, r)
        } else {
            self.length(t, r) == 0
        }
    }

    fn task_uses_fit(&self, t: u8) -> bool
        ensures { result ≡ all most_resources (use_fits self.now t) }
    {
        (0..16).all(|r| self.use_fits(t, r))
    }

    pub(crate) fn lengths_fit(&self) -> bool
        ensures { result ≡ all most_tasks (λ t. all most_resources (use_fits self.now t)) }
    {
        (0..32).all(|t| self.task_uses_fit(t))
    }

    #[tactic(auto, unfolding(crate::specs::Parts::used_from))]
    fn used_from(&self, r: u8, s: u8, t: u8) -> bool
        ensures { result ≡ used_from self.now r s t }
    {
        !self.declares(t, r) || s == self.owner(t)
    }

    fn all_used_from(&self, r: u8, s: u8) -> bool
        ensures { result ≡ all self.now.tasks (used_from self.now r s) }
    {
        (0..self.tasks).all(|t| self.used_from(r, s, t))
    }

    // The first task that declares a local resource has some subsystem, and every other that declares it has the same.
    #[tactic(auto, using(crate::proofs::OneSubsystem::one_pass))]
    fn one_subsystem(&self, r: u8) -> bool
        ensures { result ≡ one_subsystem self.now r }
    {
        self.is_global(r) || self.all_used_from(r, self.owner(self.local_ceiling(r)))
    }

    pub(crate) fn one_subsystem_each(&self) -> bool
        ensures { result ≡ all self.now.resources (one_subsystem self.now) }
    {
        (0..self.resources).all(|r| self.one_subsystem(r))
    }
}
