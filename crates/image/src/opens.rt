// "Calls from C": a block and an image lent together. Lengths are tested first, 34, then the block, 31, then the image, 32.
ghost use Rattle.std.specs.Prelude.{◌≡◌};
ghost use Rattle.image.specs.Opening.{opened};

use crate::blocks::read_block;
use crate::images::{pads_clear, read_state};
use crate::{Opened, Unopened};

// Both lengths first, before there is room for a plan. Ceilings are worked out once, for the test of the state and for the caller.
pub fn open(block: &[u8], image: &[u8]) -> Result<Opened, Unopened>
    ensures { result ≡ opened block.now image.now }
{
    if block.len() != 1108 {
        return Err(Unopened::Length);
    }
    if image.len() != 320 {
        return Err(Unopened::Length);
    }
    let plan = read_block(block)?;
    if !pads_clear(image) {
        return Err(Unopened::Image);
    }
    let plan = plan.with_ceilings();
    let state = read_state(image);
    if !legal::legal(&plan, &state) {
        return Err(Unopened::Image);
    }
    Ok(Opened { plan, state })
}
