// The plan block and the state image, both ways.
#![tactic(auto)]

ghost use Rattle.std.specs.Prelude.{◌≡◌};
ghost use Rattle.image.specs.Numbers.{number_of};

mod blocks;
mod images;
mod opens;
mod words;

pub use blocks::{read_block, write_block};
pub use images::write_image;
pub use opens::open;
use plan::CeiledPlan;
use state::State;

// Why buffers that are lent are not read.
#[derive(Clone, Copy, PartialEq, Eq)]
pub enum Unopened {
    // one has the wrong length
    Length,
    // no accepted plan has the block
    Block,
    // no legal state has the image
    Image,
}

impl Unopened {
    // "Calls from C": its number.
    #[tactic(auto, unfolding(crate::specs::Numbers::number_of))]
    pub fn number(self) -> u32
        ensures { result ≡ number_of self }
    {
        match self {
            Unopened::Length => 34,
            Unopened::Block => 31,
            Unopened::Image => 32,
        }
    }
}

// What a block and an image lent together give: a plan, and a state that is legal for it.
#[derive(Clone, Copy)]
pub struct Opened {
    pub plan: CeiledPlan,
    pub state: State,
}
