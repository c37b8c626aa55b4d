// "Admission": the lines of a plan text in file order, up to the first bad one.
ghost use Rattle.std.specs.Prelude.{◌≡◌, ◌≤◌, length};
ghost use Rattle.text.specs.Lines.{lines};
ghost use Rattle.reader.specs.Reading.{most_bytes, empty_plan, read_from};

use crate::Refusal;
use crate::build::{empty_plan, with_line};
use crate::grammar::{kind_of, line_of};
use crate::judge::judge;
use plan::Plan;

const FEED: u8 = 10;

// One pass over the text: each line is found, read, judged and added to the plan in place. A line without its line feed is malformed, and so judged 21.
// A while, since where the next line begins is known only once this one's end was found.
pub fn read_lines(text: &[u8]) -> Result<Plan, Refusal>
    requires { length text.now ≤ most_bytes }
    ensures { result ≡ read_from (lines text.now) 1 0 empty_plan }
{
    let mut plan = empty_plan();
    let mut last: u8 = 0;
    let mut n: u32 = 1;
    let mut at: usize = 0;
    while at < text.len() {
        let end = text::find(text, at, FEED);
        if text.len() <= end {
            return Err(Refusal::NotGrammar(n));
        }
        let Some(l) = line_of(&text[at..end]) else {
            return Err(Refusal::NotGrammar(n));
        };
        judge(&plan, last, n, l)?;
        with_line(&mut plan, l);
        last = kind_of(Some(l));
        n += 1;
        at = end + 1;
    }
    Ok(plan)
}
