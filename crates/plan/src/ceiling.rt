// "Ceilings".
ghost use Rattle.std.specs.Prelude.{◌≡◌};
ghost use Rattle.below.specs.Below.{any};
ghost use Rattle.below.specs.Listed.{listed};
ghost use Rattle.plan.specs.Ceiling.{local_ceiling, global_ceiling, ceiling};
ghost use Rattle.plan.specs.Ceiled.{ceiled};
ghost use Rattle.plan.specs.Parts.{declares_at};

use crate::{CeiledPlan, Plan};

impl Plan {
    // Of a local resource: the smallest task row that declares it.
    pub(crate) fn local_ceiling(&self, r: u8) -> u8
        ensures { result ≡ local_ceiling self.now r }
    {
        (0..self.tasks)
            .find(|t| self.declares(*t, r))
            .unwrap_or(self.tasks)
    }

    #[tactic(auto, unfolding(crate::specs::Parts::declares_at, crate::specs::Plan::level))]
    fn declares_at(&self, r: u8, l: u8, t: u8) -> bool
        ensures { result ≡ declares_at self.now r l t }
    {
        self.owner(t) == l && self.declares(t, r)
    }

    fn declared_at(&self, r: u8, l: u8) -> bool
        ensures { result ≡ any self.now.tasks (declares_at self.now r l) }
    {
        (0..self.tasks).any(|t| self.declares_at(r, l, t))
    }

    // Of a global resource: the smallest subsystem row with a task that declares it.
    fn global_ceiling(&self, r: u8) -> u8
        ensures { result ≡ global_ceiling self.now r }
    {
        (0..self.subsystems)
            .find(|l| self.declared_at(r, *l))
            .unwrap_or(self.subsystems)
    }

    #[tactic(auto, unfolding(crate::specs::Ceiling::ceiling))]
    fn ceiling(&self, r: u8) -> u8
        ensures { result ≡ ceiling self.now r }
    {
        if self.is_global(r) {
            self.global_ceiling(r)
        } else {
            self.local_ceiling(r)
        }
    }

    // Of all resources, by their rows.
    pub fn ceilings(&self) -> [u8; 16]
        ensures { result ≡ listed 16 (ceiling self.now) }
    {
        std::array::from_fn(|r| self.ceiling(r as u8))
    }

    // The plan beside them.
    pub fn with_ceilings(self) -> CeiledPlan
        ensures { result ≡ ceiled self }
    {
        let ceilings = self.ceilings();
        CeiledPlan {
            plan: self,
            ceilings,
        }
    }
}
