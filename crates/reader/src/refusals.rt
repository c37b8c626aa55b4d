// "Admission", its table: why a plan text is refused, the number of each refusal, and the number returned beside it.
ghost use Rattle.std.specs.Prelude.{◌≡◌};
ghost use Rattle.reader.specs.Numbers.{number, beside, unasked_number, unasked_beside};

// A number is the line, from 1, or the row.
#[derive(Clone, Copy, PartialEq, Eq)]
pub enum Refusal {
    TooLong,
    NotGrammar(u32),
    KindOrder(u32),
    TooManyRows(u32),
    NoSuchRow(u32),
    OutOfRange(u32),
    Twice(u32),
    TwoSubsystems(u32),
    AboveBudget(u32),
    NoSubsystem,
    NegativeMargin(u32),
}

impl Refusal {
    pub fn number(self) -> u32
        ensures { result ≡ number self }
    {
        match self {
            Refusal::TooLong => 20,
            Refusal::NotGrammar(_) => 21,
            Refusal::KindOrder(_) => 22,
            Refusal::TooManyRows(_) => 23,
            Refusal::NoSuchRow(_) => 24,
            Refusal::OutOfRange(_) => 25,
            Refusal::Twice(_) => 26,
            Refusal::TwoSubsystems(_) => 27,
            Refusal::AboveBudget(_) => 28,
            Refusal::NoSubsystem => 29,
            Refusal::NegativeMargin(_) => 30,
        }
    }

    pub fn beside(self) -> u32
        ensures { result ≡ beside self }
    {
        match self {
            Refusal::TooLong | Refusal::NoSubsystem => 0,
            Refusal::NotGrammar(line)
            | Refusal::KindOrder(line)
            | Refusal::TooManyRows(line)
            | Refusal::NoSuchRow(line)
            | Refusal::OutOfRange(line)
            | Refusal::Twice(line)
            | Refusal::TwoSubsystems(line)
            | Refusal::AboveBudget(line) => line,
            Refusal::NegativeMargin(row) => row,
        }
    }
}

// Why a plan text has no margin for a row: the plan lacks the row, or is refused.
#[derive(Clone, Copy, PartialEq, Eq)]
pub enum Unasked {
    NoRow,
    Refused(Refusal),
}

impl From<Refusal> for Unasked {
    ghost use Rattle.reader.specs.declared.refusals.Unasked.TheVariants.{Refused};
    ghost use Rattle.std.specs.Prelude.{◌≡◌};

    ghost from_gives = { λ e u. u ≡ Refused e };

    fn from(e: Refusal) -> Unasked {
        Unasked::Refused(e)
    }
}

// What a host is told: 24 and 0 for a row the plan lacks, or the plan's refusal.
impl Unasked {
    pub fn number(self) -> u32
        ensures { result ≡ unasked_number self }
    {
        match self {
            Unasked::NoRow => 24,
            Unasked::Refused(e) => e.number(),
        }
    }

    pub fn beside(self) -> u32
        ensures { result ≡ unasked_beside self }
    {
        match self {
            Unasked::NoRow => 0,
            Unasked::Refused(e) => e.beside(),
        }
    }
}
