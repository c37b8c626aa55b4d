// One task: what it holds, and the task with one thing changed. A place that is not there reads 255, as the definitions read it.
ghost use Rattle.std.specs.Prelude.{◌≡◌, ◌&&◌, ◌<◌, leb, eqb, get_or};
ghost use Rattle.state.specs.State.{idle_task, held_at, holds, last_held, in_section};
ghost use Rattle.state.specs.Update.{readied, started, waiting_for, taking, giving_back};

use crate::Task;
use plan::Plan;

impl Task {
    // How an idle and an absent task look.
    #[tactic(auto, unfolding(crate::specs::State::idle_task))]
    pub fn idle() -> Task
        ensures { result ≡ idle_task }
    {
        Task {
            condition: 0,
            waits: 255,
            count: 0,
            held: [255; 4],
        }
    }

    // The i-th resource that it took.
    #[tactic(auto, unfolding(crate::specs::State::held_at))]
    pub fn held_at(&self, i: u8) -> u8
        ensures { result ≡ held_at self.now i }
    {
        self.held.get(i as usize).copied().unwrap_or(255)
    }

    // The resource that it took last.
    #[tactic(auto, unfolding(crate::specs::State::last_held))]
    pub fn last_held(&self) -> u8
        ensures { result ≡ last_held self.now }
    {
        self.held_at(self.count.saturating_sub(1))
    }

    // Whether a resource is among those that it holds.
    #[tactic(auto, unfolding(crate::specs::State::holds))]
    pub fn holds(&self, r: u8) -> bool
        ensures { result ≡ holds self.now r }
    {
        (0..self.count).any(|i| self.held_at(i) == r)
    }

    // By a column of kinds, however long: it holds a global resource, which is the last it took.
    pub fn in_section_by(&self, kinds: &[u8]) -> bool
        ensures { result ≡ (leb 1 self.now.count && eqb (get_or kinds.now (last_held self.now) 0) 1) }
    {
        1 <= self.count && kinds.get(self.last_held() as usize).copied().unwrap_or(0) == 1
    }

    // The same by the kinds of a plan.
    #[tactic(auto, unfolding(crate::specs::State::in_section, plan::specs::Plan::is_global))]
    pub fn in_section(&self, p: &Plan) -> bool
        ensures { result ≡ in_section p.now self.now }
    {
        self.in_section_by(&p.kinds)
    }

    #[tactic(auto, unfolding(crate::specs::Update::readied))]
    pub fn readied(self) -> Task
        ensures { result ≡ readied self }
    {
        Task {
            condition: 1,
            waits: 255,
            ..self
        }
    }

    #[tactic(auto, unfolding(crate::specs::Update::started))]
    pub fn started(self) -> Task
        ensures { result ≡ started self }
    {
        Task {
            condition: 2,
            waits: 255,
            ..self
        }
    }

    #[tactic(auto, unfolding(crate::specs::Update::waiting_for))]
    pub fn waiting_for(self, r: u8) -> Task
        ensures { result ≡ waiting_for self r }
    {
        Task {
            condition: 3,
            waits: r,
            ..self
        }
    }

    // It takes a resource, and so is started. A fifth has no place. A count of 255 stays, for one more does not fit its byte.
    #[tactic(auto, unfolding(crate::specs::Update::taking), using(crate::proofs::CodeStores::past))]
    pub fn taking(self, r: u8) -> Task
        ensures { self.count < 255 → result ≡ taking self r }
    {
        let mut next = self;
        if self.count < 4 {
            next.held[self.count as usize] = r;
        }
        Task {
            condition: 2,
            waits: 255,
            count: self.count.saturating_add(1),
            ..next
        }
    }

    // It gives back the resource that it took last.
    #[tactic(auto, unfolding(crate::specs::Update::giving_back), using(crate::proofs::CodeStores::past))]
    pub fn giving_back(self) -> Task
        ensures { result ≡ giving_back self }
    {
        let mut next = self;
        let count = self.count.saturating_sub(1);
        if count < 4 {
            next.held[count as usize] = 255;
        }
        Task { count, ..next }
    }
}
