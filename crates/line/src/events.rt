// "The run program": an event line is a name and exactly the numbers that its kind uses, written and parted as in the plan text.
ghost use Rattle.std.specs.Prelude.{◌≡◌, None};
ghost use Rattle.std.specs.Option.{option_and_then};
ghost use Rattle.text.specs.Lines.{fields};
ghost use Rattle.text.specs.Numbers.{numbers, of_two};
ghost use Rattle.line.specs.Event.{known, event_of, of_fields};
ghost use Rattle.line.specs.Named.{kind_of, of_kind};

use crate::Event;
use step::Kind;
use text::{find, number_of};

// The kind of a name, if it names one. The names are compared as wholes: a match on them goes byte by byte and leaves some thirty returns to prove.
#[tactic(auto, unfolding(crate::specs::Named::kind_of, text::specs::Bytes::bytes), using(crate::proofs::Same::same_slices))]
fn kind_of(name: &[u8]) -> Option<Kind>
    ensures { result ≡ kind_of name.now }
{
    if name == b"release".as_slice() {
        Some(Kind::Release)
    } else if name == b"lock".as_slice() {
        Some(Kind::Lock)
    } else if name == b"unlock".as_slice() {
        Some(Kind::Unlock)
    } else if name == b"end".as_slice() {
        Some(Kind::End)
    } else if name == b"tick".as_slice() {
        Some(Kind::Tick)
    } else {
        None
    }
}

// A task row, a tab and a resource row, which is the rest of the line: a further tab makes it no number.
fn two_rows(kind: Kind, rest: &[u8]) -> Option<Event>
    ensures { result ≡ option_and_then (of_two None (known kind)) (numbers (fields rest.now)) }
{
    let t = find(rest, 0, b'\t');
    if t == rest.len() {
        return None;
    }
    let task = number_of(&rest[..t])?;
    let resource = number_of(&rest[t + 1..])?;
    Some(Event {
        kind,
        task,
        resource,
    })
}

// The rows behind a name and its tab. A task row alone is the rest of the line.
fn rows_of(kind: Kind, rest: &[u8]) -> Option<Event>
    ensures { result ≡ option_and_then (of_kind kind) (numbers (fields rest.now)) }
{
    match kind {
        Kind::Release | Kind::End => {
            let task = number_of(rest)?;
            Some(Event {
                kind,
                task,
                resource: 0,
            })
        }
        Kind::Lock | Kind::Unlock => two_rows(kind, rest),
        Kind::Tick => None,
    }
}

// A line without its line feed: a tick is its name alone.
fn event_in(body: &[u8]) -> Option<Event>
    ensures { result ≡ of_fields (fields body.now) }
{
    let t = find(body, 0, b'\t');
    let kind = kind_of(&body[..t])?;
    if t < body.len() {
        return rows_of(kind, &body[t + 1..]);
    }
    match kind {
        Kind::Tick => Some(Event {
            kind,
            task: 0,
            resource: 0,
        }),
        _ => None,
    }
}

// An event line with its line feed. No event has more than 20 bytes, so that a longer line is not looked into.
pub fn event_of(line: &[u8]) -> Option<Event>
    ensures { result ≡ event_of line.now }
{
    let n = line.len();
    if 20 < n {
        return None;
    }
    let end = find(line, 0, b'\n');
    if end + 1 != n {
        return None;
    }
    event_in(&line[..end])
}
