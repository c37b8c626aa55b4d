// "The plan text", its table: one line, without its line feed.
ghost use Rattle.std.specs.Prelude.{◌≡◌, ℕ, Option, Some, None};
ghost use Rattle.text.specs.Lines.{fields};
ghost use Rattle.text.specs.Numbers.{of_one, of_two, of_three};
ghost use Rattle.reader.specs.Line.{as_subsystem, as_task, as_uses, of_numbers, of_kind_field, of_fields, kind_of};
ghost use Rattle.reader.specs.Pair.{of_pair};
ghost use Rattle.reader.specs.declared.Line.{Line};

use crate::Line;

const TAB: u8 = 9;

// Two numbers. What stands behind the first tab is the second field whole: one tab more, and it writes no number.
fn pair_of(s: &[u8]) -> Option<(u32, u32)>
    ensures { (F : ℕ → ℕ → Option Line) → of_pair F result ≡ of_numbers (of_two None F) (fields s.now) }
{
    let m = text::find(s, 0, TAB);
    let rest = s.get(m + 1..)?;
    let first = text::number_of(&s[..m])?;
    let second = text::number_of(rest)?;
    Some((first, second))
}

// S
fn subsystem_of(s: &[u8]) -> Option<Line>
    ensures { result ≡ of_numbers (of_two None as_subsystem) (fields s.now) }
{
    let (period, budget) = pair_of(s)?;
    Some(Line::Subsystem { period, budget })
}

// T
fn task_of(s: &[u8]) -> Option<Line>
    ensures { result ≡ of_numbers (of_one None as_task) (fields s.now) }
{
    let subsystem = text::number_of(s)?;
    Some(Line::Task { subsystem })
}

// R: L is local, G global.
fn resource_of(s: &[u8]) -> Option<Line>
    ensures { result ≡ of_kind_field (fields s.now) }
{
    if s.len() != 1 {
        return None;
    }
    match s[0] {
        b'L' => Some(Line::Resource { kind: 0 }),
        b'G' => Some(Line::Resource { kind: 1 }),
        _ => None,
    }
}

// U
fn uses_of(s: &[u8]) -> Option<Line>
    ensures { result ≡ of_numbers (of_three None as_uses) (fields s.now) }
{
    let m = text::find(s, 0, TAB);
    let rest = s.get(m + 1..)?;
    let task = text::number_of(&s[..m])?;
    let (resource, length) = pair_of(rest)?;
    Some(Line::Uses {
        task,
        resource,
        length,
    })
}

// A letter and its fields. A line that is empty, or whose first field is not one byte, is none.
pub fn line_of(s: &[u8]) -> Option<Line>
    ensures { result ≡ of_fields (fields s.now) }
{
    if s.len() < 2 || s[1] != TAB {
        return None;
    }
    let rest = &s[2..];
    match s[0] {
        b'S' => subsystem_of(rest),
        b'T' => task_of(rest),
        b'R' => resource_of(rest),
        b'U' => uses_of(rest),
        _ => None,
    }
}

// The place of a line's kind in the order of the kinds; a malformed line stands behind them all.
#[tactic(auto, unfolding(crate::specs::Line::kind_of))]
pub fn kind_of(l: Option<Line>) -> u8
    ensures { result ≡ kind_of l }
{
    match l {
        Some(Line::Subsystem { .. }) => 0,
        Some(Line::Task { .. }) => 1,
        Some(Line::Resource { .. }) => 2,
        Some(Line::Uses { .. }) => 3,
        None => 4,
    }
}
