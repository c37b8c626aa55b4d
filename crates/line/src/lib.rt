#![tactic(auto)]

mod events;
mod printed;
mod put;
mod scratch;

pub use events::event_of;
pub use printed::{print, print_refusal, report_line};
use step::Kind;

// An event line that was read: a kind of event and the rows that it uses; other rows are 0 and not read.
#[derive(Clone, Copy, PartialEq, Eq)]
pub struct Event {
    pub kind: Kind,
    pub task: u32,
    pub resource: u32,
}
