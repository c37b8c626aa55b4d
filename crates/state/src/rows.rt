// A state by its rows: what it says of a subsystem and of a task, and the state with one of these changed. All that the events alter goes through these.
// A row past the end reads as the definitions read it, and changes nothing.
ghost use Rattle.std.specs.Prelude.{◌≡◌, ◌-◌, get_or};
ghost use Rattle.plan.specs.Limits.{no_row};
ghost use Rattle.plan.specs.Plan.{place};
ghost use Rattle.state.specs.State.{last_held, held_place, task_at, left_of, refill_of, used_of, section_left};
ghost use Rattle.state.specs.Update.{with_task, with_left, with_used};
ghost use Rattle.state.specs.Fresh.{fresh};

use crate::{BudgetLeft, SectionLeft, State, Task};
use plan::Plan;

impl State {
    // The state that a run starts in.
    pub fn fresh(p: &Plan) -> State
        ensures { result ≡ fresh p.now }
    {
        let left = p.budgets.map(BudgetLeft);
        State {
            left,
            refill: p.periods,
            used: [0; 8],
            conditions: [0; 32],
            waits: [255; 32],
            counts: [0; 32],
            held: [255; 128],
        }
    }

    // The i-th resource that task k took.
    #[tactic(auto, unfolding(crate::specs::State::held_place))]
    fn held_of(&self, k: u8, i: u8) -> u8
        ensures { result ≡ get_or self.now.held (held_place k i) no_row }
    {
        let at = (k as usize) * 4 + (i as usize);
        self.held.get(at).copied().unwrap_or(255)
    }

    // Task row k; an absent row reads as the idle task.
    pub fn task(&self, k: u8) -> Task
        ensures { result ≡ task_at self.now k }
    {
        let i = k as usize;
        Task {
            condition: self.conditions.get(i).copied().unwrap_or(0),
            waits: self.waits.get(i).copied().unwrap_or(255),
            count: self.counts.get(i).copied().unwrap_or(0),
            held: [
                self.held_of(k, 0),
                self.held_of(k, 1),
                self.held_of(k, 2),
                self.held_of(k, 3),
            ],
        }
    }

    // Budget left of a subsystem; an absent one has none.
    #[tactic(auto, unfolding(crate::specs::State::left_of))]
    pub fn left_of(&self, c: u8) -> BudgetLeft
        ensures { result ≡ left_of self.now c }
    {
        self.left.get(c as usize).copied().unwrap_or(BudgetLeft(0))
    }

    #[tactic(auto, unfolding(crate::specs::State::refill_of))]
    pub fn refill_of(&self, c: u8) -> u16
        ensures { result ≡ refill_of self.now c }
    {
        self.refill.get(c as usize).copied().unwrap_or(0)
    }

    #[tactic(auto, unfolding(crate::specs::State::used_of))]
    pub fn used_of(&self, c: u8) -> u16
        ensures { result ≡ used_of self.now c }
    {
        self.used.get(c as usize).copied().unwrap_or(0)
    }

    // By columns of a plan and of used counts, however long: section length left of task k, whose resources are those of this state.
    #[tactic(auto, unfolding(plan::specs::Plan::place))]
    pub fn section_left_by(
        &self,
        owners: &[u8],
        lengths: &[u16],
        used: &[u16],
        k: u8,
    ) -> SectionLeft
        ensures { result ≡ record { 0 = get_or lengths.now (place k (last_held (task_at self.now k))) 0 - get_or used.now (get_or owners.now k 0) 0 } }
    {
        let owner = owners.get(k as usize).copied().unwrap_or(0);
        let place = (k as usize) * 16 + (self.task(k).last_held() as usize);
        let length = lengths.get(place).copied().unwrap_or(0);
        SectionLeft::remaining(length, used.get(owner as usize).copied().unwrap_or(0))
    }

    // Section length left of task k by a plan and this state: q, a count of its own type.
    #[tactic(auto, unfolding(crate::specs::State::section_left, crate::specs::State::used_of, plan::specs::Plan::length_of, plan::specs::Plan::owner))]
    pub fn section_left(&self, p: &Plan, k: u8) -> SectionLeft
        ensures { result ≡ section_left p.now self.now k }
    {
        self.section_left_by(&p.owners, &p.lengths, &self.used, k)
    }

    // Another task at row k.
    #[tactic(auto, unfolding(crate::specs::Update::with_task, crate::specs::Update::with_held, crate::specs::State::held_place, crate::specs::State::held_at), using(crate::proofs::CodeStores::with_task_past))]
    pub fn put_task(&mut self, k: u8, t: Task)
        ensures { self.new ≡ with_task self.old k t }
    {
        if k < 32 {
            let i = k as usize;
            let at = 4 * i;
            self.conditions[i] = t.condition;
            self.waits[i] = t.waits;
            self.counts[i] = t.count;
            self.held[at] = t.held[0];
            self.held[at + 1] = t.held[1];
            self.held[at + 2] = t.held[2];
            self.held[at + 3] = t.held[3];
        }
    }

    // Another budget left for subsystem c.
    #[tactic(auto, unfolding(crate::specs::Update::with_left), using(crate::proofs::CodeStores::with_left_past))]
    pub fn set_left(&mut self, c: u8, q: BudgetLeft)
        ensures { self.new ≡ with_left self.old c q }
    {
        if c < 8 {
            self.left[c as usize] = q;
        }
    }

    // Another used count for subsystem c.
    #[tactic(auto, unfolding(crate::specs::Update::with_used), using(crate::proofs::CodeStores::with_used_past))]
    pub fn set_used(&mut self, c: u8, n: u16)
        ensures { self.new ≡ with_used self.old c n }
    {
        if c < 8 {
            self.used[c as usize] = n;
        }
    }
}
