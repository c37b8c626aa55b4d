// The run program and the admission report as library calls over slices, in whole and in pieces.
#![tactic(auto)]

ghost use Rattle.std.specs.Prelude.{◌≡◌};
ghost use Rattle.run.specs.AsFar.{fill_of};

mod kept;
mod lines;
mod refusal;
pub mod report;
pub mod stream;
mod whole;

pub use lines::line_step;
pub use whole::run;

// What an event line gives whose printed line had room: its answer, and the fill behind the printed line.
#[derive(Clone, Copy, PartialEq, Eq)]
pub struct Lined {
    pub answer: u8,
    pub fill: usize,
}

// The buffer had no room for the next line. The fill is behind the last that had room.
#[derive(Clone, Copy, PartialEq, Eq)]
pub struct Full {
    pub fill: usize,
}

// The fill behind the last line that had room, whether that was the last of all or not.
pub fn fill_of(r: Result<usize, Full>) -> usize
    ensures { result ≡ fill_of r }
{
    match r {
        Ok(fill) => fill,
        Err(full) => full.fill,
    }
}
