// "Calls from C": the block of a plan, both ways.
ghost use Rattle.std.specs.Prelude.{◌≡◌, eqb, length};
ghost use Rattle.image.specs.Block.{block_bytes, plan_of};
ghost use Rattle.image.specs.BlockCalls.{block_read, block_written};

use crate::Unopened;
use crate::words::{bytes_of, put, word_at};
use plan::Plan;
use std::array::from_fn;

fn read_plan(b: &[u8]) -> Plan
    requires { length b.now ≡ block_bytes }
    ensures { result ≡ plan_of b.now }
{
    Plan {
        subsystems: b[0],
        tasks: b[1],
        resources: b[2],
        periods: from_fn(|s| word_at(b, 4 + 4 * s)),
        budgets: from_fn(|s| word_at(b, 4 + 4 * s + 2)),
        owners: from_fn(|t| b[36 + t]),
        kinds: from_fn(|r| b[68 + r]),
        lengths: from_fn(|i| word_at(b, 84 + 2 * i)),
    }
}

// Byte 3 is 0 in the block of a plan, and all its other bytes are read into the plan.
pub fn read_block(b: &[u8]) -> Result<Plan, Unopened>
    ensures { result ≡ block_read b.now }
{
    if b.len() != 1108 {
        return Err(Unopened::Length);
    }
    if b[3] != 0 {
        return Err(Unopened::Block);
    }
    let plan = read_plan(b);
    if !plan.is_accepted() {
        return Err(Unopened::Block);
    }
    Ok(plan)
}

// A buffer of the block's length is filled, any other is kept.
pub fn write_block(p: &Plan, block: &mut [u8]) -> bool
    ensures { (result ≡ eqb (length block.old) block_bytes) × (block.new ≡ block_written p.now block.old) }
{
    if block.len() != 1108 {
        return false;
    }
    put(&mut *block, 0, &[p.subsystems, p.tasks, p.resources, 0]);
    for s in 0..8 {
        put(&mut *block, 4 + 4 * s, &bytes_of(p.periods[s]));
        put(&mut *block, 4 + 4 * s + 2, &bytes_of(p.budgets[s]));
    }
    put(&mut *block, 36, &p.owners);
    put(&mut *block, 68, &p.kinds);
    for i in 0..512 {
        put(&mut *block, 84 + 2 * i, &bytes_of(p.lengths[i]));
    }
    true
}
