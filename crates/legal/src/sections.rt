// A legal state, "State": budget and used counts fit the global sections.
ghost use Rattle.std.specs.Prelude.{◌≡◌, leb};
ghost use Rattle.below.specs.Below.{all, any};
ghost use Rattle.legal.specs.Legal.{section_legal, unused_legal};
ghost use Rattle.legal.specs.Parts.{section_of};

use plan::Plan;
use state::{BudgetLeft, SectionLeft, State};

// Invariant 1 of source 001: budget left is at least section length left.
fn covers(left: BudgetLeft, section: SectionLeft) -> bool
    ensures { result ≡ leb section.0 left.0 }
{
    section.0 <= left.0
}

// Used is at most the length of the section, and budget left at least length minus used.
#[tactic(auto, unfolding(crate::specs::Legal::section_legal, crate::specs::Legal::implies))]
fn section_legal(p: &Plan, s: &State, k: u8) -> bool
    ensures { result ≡ section_legal p.now s.now k }
{
    let t = s.task(k);
    if !t.in_section(p) {
        return true;
    }
    let c = p.owner(k);
    s.used_of(c) <= p.length(k, t.last_held()) && covers(s.left_of(c), s.section_left(p, k))
}

pub fn sections_legal(p: &Plan, s: &State) -> bool
    ensures { result ≡ all p.now.tasks (section_legal p.now s.now) }
{
    (0..p.tasks).all(|k| section_legal(p, s, k))
}

// k is a task of subsystem c in a section.
#[tactic(auto, unfolding(crate::specs::Parts::section_of))]
fn section_of(p: &Plan, s: &State, c: u8, k: u8) -> bool
    ensures { result ≡ section_of p.now s.now c k }
{
    p.owner(k) == c && s.task(k).in_section(p)
}

fn any_section(p: &Plan, s: &State, c: u8) -> bool
    ensures { result ≡ any p.now.tasks (section_of p.now s.now c) }
{
    (0..p.tasks).any(|k| section_of(p, s, c, k))
}

// Used is 0 without a section.
#[tactic(auto, unfolding(crate::specs::Legal::unused_legal, crate::specs::Parts::section_of))]
fn unused_legal(p: &Plan, s: &State, c: u8) -> bool
    ensures { result ≡ unused_legal p.now s.now c }
{
    s.used_of(c) == 0 || any_section(p, s, c)
}

pub fn all_unused_legal(p: &Plan, s: &State) -> bool
    ensures { result ≡ all p.now.subsystems (unused_legal p.now s.now) }
{
    (0..p.subsystems).all(|c| unused_legal(p, s, c))
}
