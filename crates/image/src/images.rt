// "Calls from C": the image of a state, both ways. Each subsystem and each task has a row of eight bytes, and the rows stand one behind the other.
ghost use Rattle.std.specs.Prelude.{◌≡◌, ◌+◌, ◌/◌, ◌%◌, ◌<◌, eqb, length};
ghost use Rattle.below.specs.Listed.{listed};
ghost use Rattle.state.specs.State.{task_at};
ghost use Rattle.image.specs.Words.{byte_at};
ghost use Rattle.image.specs.Image.{image_bytes, subsystem_bytes, task_bytes, task_byte_at, state_of};
ghost use Rattle.image.specs.Pads.{pads_zero};
ghost use Rattle.image.specs.Opening.{image_written};

use crate::words::{bytes_of, put, word_at};
use state::{BudgetLeft, State};
use std::array::from_fn;

// The i-th byte of every task.
fn task_bytes(b: &[u8], i: usize) -> [u8; 32]
    requires { (length b.now ≡ image_bytes) × (i < 8) }
    ensures { result ≡ listed 32 (λ k. byte_at b.now (task_byte_at k i)) }
{
    from_fn(|k| b[64 + 8 * k + i])
}

// The four held of every task, which stand behind three other bytes.
fn held_bytes(b: &[u8]) -> [u8; 128]
    requires { length b.now ≡ image_bytes }
    ensures { result ≡ listed 128 (λ i. byte_at b.now (task_byte_at (i / 4) (3 + i % 4))) }
{
    from_fn(|i| b[64 + 8 * (i / 4) + (3 + i % 4)])
}

pub fn read_state(b: &[u8]) -> State
    requires { length b.now ≡ image_bytes }
    ensures { result ≡ state_of b.now }
{
    State {
        left: from_fn(|c| BudgetLeft(word_at(b, 8 * c))),
        refill: from_fn(|c| word_at(b, 8 * c + 2)),
        used: from_fn(|c| word_at(b, 8 * c + 4)),
        conditions: task_bytes(b, 0),
        waits: task_bytes(b, 1),
        counts: task_bytes(b, 2),
        held: held_bytes(b),
    }
}

// The bytes that no state decides: they are 0, and all the others are read into the state.
pub fn pads_clear(b: &[u8]) -> bool
    requires { length b.now ≡ image_bytes }
    ensures { result ≡ pads_zero b.now }
{
    (0..8).all(|c| word_at(b, 8 * c + 6) == 0) && (0..32).all(|k| b[64 + 8 * k + 7] == 0)
}

// Budget left, to refill, used, 0.
#[tactic(auto, unfolding(crate::specs::Image::subsystem_bytes, crate::specs::Words::word))]
fn subsystem_row(s: &State, c: u8) -> [u8; 8]
    ensures { result ≡ subsystem_bytes s.now c }
{
    let left = bytes_of(s.left_of(c).0);
    let refill = bytes_of(s.refill_of(c));
    let used = bytes_of(s.used_of(c));
    [
        left[0], left[1], refill[0], refill[1], used[0], used[1], 0, 0,
    ]
}

// Condition, resource waited for, held count, four held, 0.
fn task_row(s: &State, k: u8) -> [u8; 8]
    ensures { result ≡ task_bytes (task_at s.now k) }
{
    let t = s.task(k);
    let held = t.held;
    [
        t.condition,
        t.waits,
        t.count,
        held[0],
        held[1],
        held[2],
        held[3],
        0,
    ]
}

// A buffer of the image's length is filled, any other is kept.
pub fn write_image(s: &State, image: &mut [u8]) -> bool
    ensures { (result ≡ eqb (length image.old) image_bytes) × (image.new ≡ image_written s.now image.old) }
{
    if image.len() != 320 {
        return false;
    }
    for c in 0..8u8 {
        put(&mut *image, 8 * (c as usize), &subsystem_row(s, c));
    }
    for k in 0..32u8 {
        put(&mut *image, 64 + 8 * (k as usize), &task_row(s, k));
    }
    true
}
