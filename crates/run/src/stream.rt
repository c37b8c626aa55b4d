// "The run program": an event file that comes in pieces, cut anywhere. A line of any length takes no more memory than 20 bytes: no event line is
// longer. A line that lies whole in a piece is read where it lies.
ghost use Rattle.std.specs.Prelude.{◌≡◌, true, ◌+◌, ◌≤◌, IfSome, option_map, length};
ghost use Rattle.text.specs.Lines.{line_feed, until};
ghost use Rattle.choice.specs.Lent.{Lent};
ghost use Rattle.line.specs.Filled.{fill_after, out_after};
ghost use Rattle.line.specs.Run.{most_lines};
ghost use Rattle.run.specs.Standing.{Stands};
ghost use Rattle.run.specs.Stream.{start, fed, fed_printed, line_done, line_printed, end_printed};
ghost use Rattle.run.specs.Fed.{at_of, taken_of, Within, Put, from_place, piece_taken, first_line, line_start, whole_line};

use crate::kept::Kept;
use crate::lines::{line_in, line_step};
use plan::{CeiledPlan, Plan};
use state::State;
use text::find;

// Where a run stands: its state, the number of its next line, and what came of that line.
#[derive(Clone, Copy)]
pub struct Stream {
    pub state: State,
    pub number: u32,
    pub kept: Kept,
}

// What a piece gives: how many of its bytes were taken, and the fill of the buffer.
#[derive(Clone, Copy, PartialEq, Eq)]
pub struct Fed {
    pub taken: usize,
    pub fill: usize,
}

// The next line is answered, and the rest of the buffer has room for any printed line: 128 bytes (line/proofs/Short).
fn is_roomy(number: u32, room: usize, fill: usize) -> bool
    ensures { result ≡ true → (number ≤ most_lines) × (fill + 128 ≤ room) }
{
    number <= 9999999 && fill <= room && 128 <= room - fill
}

impl Stream {
    // Before the first byte of an event file.
    pub fn begin(p: &Plan) -> Stream
        ensures { at_of result ≡ start p.now }
    {
        Stream {
            state: State::fresh(p),
            number: 1,
            kept: Kept::nothing(),
        }
    }

    // A line that is whole is answered, if its printed line has room; past 9,999,999 lines it is passed over. The next line begins.
    fn answer(&mut self, c: &CeiledPlan, line: &[u8], out: &mut [u8], fill: usize) -> Option<usize>
        ensures within { fill ≤ length out.old → IfSome result (λ n. n ≤ length out.old) }
        ensures put { Lent c.now self.old.state → Put (at_of self.old) (line_done c.now.plan (whole_line (at_of self.old) line.now))
            (line_printed c.now.plan (whole_line (at_of self.old) line.now)) out.old fill result (at_of self.new) out.new }
    {
        let number = self.number;
        if 9999999 < number {
            self.kept = Kept::nothing();
            return Some(fill);
        }
        let l = line_step(c, &mut self.state, number, line, out, fill)?;
        self.number = number + 1;
        self.kept = Kept::nothing();
        Some(l.fill)
    }

    // The end of a line, with its line feed. A line that lies whole in the piece is read where it lies, any other through the kept bytes.
    fn end_line(
        &mut self,
        c: &CeiledPlan,
        part: &[u8],
        out: &mut [u8],
        fill: usize,
    ) -> Option<usize>
        requires { until line_feed part.now + 1 ≡ length part.now }
        ensures within { fill ≤ length out.old → IfSome result (λ n. n ≤ length out.old) }
        ensures put { Lent c.now self.old.state → Put (at_of self.old) (fed c.now.plan (at_of self.old) part.now)
            (fed_printed c.now.plan (at_of self.old) part.now) out.old fill result (at_of self.new) out.new }
    {
        if self.kept.len() == 0 {
            return self.answer(c, part, out, fill);
        }
        let mut whole = self.kept;
        whole.keep(part);
        self.answer(c, whole.as_slice(), out, fill)
    }

    // The first line of the rest of a piece; if the piece ends within it, its bytes are kept.
    fn feed_line(&mut self, c: &CeiledPlan, rest: &[u8], out: &mut [u8], fill: usize) -> Option<Fed>
        requires { 1 ≤ length rest.now }
        ensures within { IfSome result (λ r. (r.taken ≡ length (first_line rest.now)) × (fill ≤ length out.old → r.fill ≤ length out.old)) }
        ensures put { Lent c.now self.old.state → Put (at_of self.old) (fed c.now.plan (at_of self.old) (first_line rest.now))
            (fed_printed c.now.plan (at_of self.old) (first_line rest.now)) out.old fill (option_map (λ r. r.fill) result) (at_of self.new) out.new }
    {
        let end = find(rest, 0, b'\n');
        if end < rest.len() {
            let fill = self.end_line(c, &rest[..end + 1], out, fill)?;
            return Some(Fed {
                taken: end + 1,
                fill,
            });
        }
        self.kept.keep(rest);
        Some(Fed { taken: end, fill })
    }

    // Whole lines from a place of a piece on, read where they lie, while no byte is kept and the buffer is roomy. The state is altered where it lies: only
    // a line that may have no room needs the state before it, and such a line is left to feed_line.
    fn feed_roomy(
        &mut self,
        c: &CeiledPlan,
        piece: &[u8],
        at: usize,
        out: &mut [u8],
        fill: usize,
    ) -> Fed
        requires { at ≤ length piece.now }
        ensures { (at ≤ result.taken) × Within (length piece.now) (length out.old) fill result × (Stands c.now self.old.state → Stands c.now self.new.state
            × (from_place c.now.plan (at_of self.new) piece.now result.taken out.new result.fill ≡ from_place c.now.plan (at_of self.old) piece.now at out.old fill)) }
    {
        if self.kept.len() != 0 {
            return Fed { taken: at, fill };
        }
        let mut taken = at;
        let mut filled = fill;
        let mut end = find(piece, at, b'\n');
        // a while, since where a line begins is known only once the one before it was found to end
        while end < piece.len() && is_roomy(self.number, out.len(), filled) {
            let number = self.number;
            filled = line_in(
                c,
                &mut self.state,
                number,
                &piece[taken..end + 1],
                out,
                filled,
            );
            self.number += 1;
            taken = end + 1;
            end = find(piece, taken, b'\n');
        }
        Fed {
            taken,
            fill: filled,
        }
    }

    // A piece of an event file, line by line, up to the first line whose printed line has no room: the quick way as far as it goes, then one line that it
    // leaves.
    pub fn feed(&mut self, c: &CeiledPlan, piece: &[u8], out: &mut [u8], fill: usize) -> Fed
        ensures { Within (length piece.now) (length out.old) fill result
            × (Stands c.now self.old.state → taken_of self.new result out.new ≡ piece_taken c.now.plan (at_of self.old) piece.now out.old fill) }
    {
        let mut at = Fed { taken: 0, fill };
        // a while, since each turn says how much of the piece it took
        while at.taken < piece.len() {
            at = self.feed_roomy(c, piece, at.taken, out, at.fill);
            if at.taken == piece.len() {
                return at;
            }
            let Some(line) = self.feed_line(c, &piece[at.taken..], out, at.fill) else {
                return at;
            };
            at = Fed {
                taken: at.taken + line.taken,
                fill: line.fill,
            };
        }
        at
    }

    // The end of the file: a last line without its line feed is answered 11.
    pub fn finish(&self, c: &CeiledPlan, out: &mut [u8], fill: usize) -> Option<usize>
        ensures within { fill ≤ length out.old → IfSome result (λ n. n ≤ length out.old) }
        ensures put { Lent c.now self.now.state → (result ≡ fill_after out.old fill (end_printed c.now.plan (at_of self.now)))
            × (out.new ≡ out_after out.old fill (end_printed c.now.plan (at_of self.now))) }
    {
        let n = self.kept.len();
        if n == 0 || 9999999 < self.number {
            return Some(fill);
        }
        let mut state = self.state;
        let l = line_step(c, &mut state, self.number, self.kept.as_slice(), out, fill)?;
        Some(l.fill)
    }
}
