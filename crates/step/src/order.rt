// "Events": the refusals 2 to 9, tried in the order of the kind's row of the table.
ghost use Rattle.std.specs.Prelude.{◌≡◌, not, ◌||◌, [], eqb, get_or};
ghost use Rattle.plan.specs.Plan.{declares};
ghost use Rattle.state.specs.declared.State.{State};
ghost use Rattle.state.specs.State.{holds, last_held, in_section};
ghost use Rattle.step.specs.Lent.{row_kind_number, AskedOf};
ghost use Rattle.step.specs.Refused.{refusal_number, numbers_of, refused_number};
ghost use Rattle.step.specs.Refusals.{order_table, uses_resource, no_such_row, refuses, refusal};

use plan::Plan;
use state::Task;

// The kinds of events at rows: all but a tick.
#[derive(Clone, Copy, PartialEq, Eq)]
pub enum RowKind {
    Release,
    Lock,
    Unlock,
    End,
}

// The refusals, with the numbers 2 to 9.
#[derive(Clone, Copy, PartialEq, Eq)]
pub enum Refusal {
    NoSuchRow,
    NotIdle,
    NotRunning,
    NotDeclared,
    HoldsAlready,
    NotLast,
    StillHolding,
    FifthHeld,
}

impl Refusal {
    // The number that an event is answered with.
    pub fn number(self) -> u8
        ensures { result ≡ refusal_number self }
    {
        match self {
            Refusal::NoSuchRow => 2,
            Refusal::NotIdle => 3,
            Refusal::NotRunning => 4,
            Refusal::NotDeclared => 5,
            Refusal::HoldsAlready => 6,
            Refusal::NotLast => 7,
            Refusal::StillHolding => 8,
            Refusal::FifthHeld => 9,
        }
    }
}

// What a refusal is asked of: the kind of the event, its rows, the task as it stands, and the row that runs.
#[derive(Clone, Copy)]
pub struct Asked {
    pub kind: RowKind,
    pub row: u8,
    pub resource: u8,
    pub task: Task,
    pub running: u8,
}

impl RowKind {
    // The table: the refusals that an event of the kind is tried for, in their order.
    #[tactic(auto, unfolding(crate::specs::Refusals::order_table))]
    fn order(self) -> &'static [Refusal]
        ensures { numbers_of result.now ≡ get_or order_table (row_kind_number self) [] }
    {
        match self {
            RowKind::Release => &[Refusal::NoSuchRow, Refusal::NotIdle],
            RowKind::Lock => &[
                Refusal::NoSuchRow,
                Refusal::NotRunning,
                Refusal::NotDeclared,
                Refusal::HoldsAlready,
                Refusal::FifthHeld,
            ],
            RowKind::Unlock => &[Refusal::NoSuchRow, Refusal::NotRunning, Refusal::NotLast],
            RowKind::End => &[
                Refusal::NoSuchRow,
                Refusal::NotRunning,
                Refusal::StillHolding,
            ],
        }
    }

    // Lock and unlock use a resource row.
    #[tactic(auto, unfolding(crate::specs::Refusals::uses_resource))]
    fn uses_resource(self) -> bool
        ensures { result ≡ uses_resource (row_kind_number self) }
    {
        matches!(self, RowKind::Lock | RowKind::Unlock)
    }
}

impl Asked {
    #[tactic(auto, unfolding(crate::specs::Refusals::no_such_row))]
    fn no_such_row(&self, p: &Plan) -> bool
        ensures { result ≡ no_such_row p.now (row_kind_number self.now.kind) self.now.row self.now.resource }
    {
        p.tasks <= self.row || (self.kind.uses_resource() && p.resources <= self.resource)
    }

    // The job holds a global, or holds this one.
    fn holds_already(&self, p: &Plan) -> bool
        ensures { result ≡ (in_section p.now self.now.task || holds self.now.task self.now.resource) }
    {
        self.task.in_section(p) || self.task.holds(self.resource)
    }

    // Not the resource it took last, or it holds none.
    fn not_last(&self) -> bool
        ensures { result ≡ (eqb self.now.task.count 0 || not (eqb (last_held self.now.task) self.now.resource)) }
    {
        self.task.count == 0 || self.task.last_held() != self.resource
    }

    // The refusal applies.
    #[tactic(auto, unfolding(crate::specs::Refusals::refuses, crate::specs::Refusals::tests, crate::specs::Refusals::not_idle, crate::specs::Refusals::not_running, crate::specs::Refusals::not_declared, crate::specs::Refusals::holds_already, crate::specs::Refusals::not_last, crate::specs::Refusals::still_holding, crate::specs::Refusals::fifth_held, state::specs::State::is_idle))]
    fn refuses(&self, p: &Plan, refusal: Refusal) -> bool
        ensures { (s : State) → AskedOf p.now s self.now → result ≡ refuses p.now s (row_kind_number self.now.kind) self.now.row self.now.resource (refusal_number refusal) }
    {
        match refusal {
            Refusal::NoSuchRow => self.no_such_row(p),
            Refusal::NotIdle => self.task.condition != 0,
            Refusal::NotRunning => self.running != self.row,
            Refusal::NotDeclared => !p.declares(self.row, self.resource),
            Refusal::HoldsAlready => self.holds_already(p),
            Refusal::NotLast => self.not_last(),
            Refusal::StillHolding => 1 <= self.task.count,
            Refusal::FifthHeld => 4 <= self.task.count,
        }
    }

    // The first refusal of the kind's row that applies, if one does.
    pub fn refusal(&self, p: &Plan) -> Option<Refusal>
        ensures { (s : State) → AskedOf p.now s self.now → refused_number result ≡ refusal p.now s (row_kind_number self.now.kind) self.now.row self.now.resource }
    {
        self.kind
            .order()
            .iter()
            .copied()
            .find(|x| self.refuses(p, *x))
    }
}
