// "The run program": a printed line is composed from its last byte to its first, since digits come out last first and a row of ended tasks
// is joined from its last. The scratch has room for the longest line. It is composed by hand: a format takes more than three times as long.
ghost use Rattle.std.specs.Prelude.{◌≡◌, List, ℕ, [], ◌∷◌, ◌++◌, ◌+◌, ◌≤◌, ◌<◌, length, drop};
ghost use Rattle.text.specs.Numbers.{decimal};
ghost use Rattle.line.specs.Before.{parted, joined};
ghost use Rattle.line.specs.Printed.{row_text, ended_text, rows_onto};
ghost use Rattle.line.specs.Report.{signed};

use std::marker::Model;

// What stands from `at` on is the line so far.
#[derive(Drop)]
pub struct Scratch {
    bytes: [u8; 128],
    at: usize,
}

impl Model for Scratch {
    ghost Value = { List ℕ };

    ghost view = { λ s. drop s.at s.bytes };

    ghost invariant = { λ s. s.at ≤ 128 };
}

impl Scratch {
    // Nothing stands yet.
    pub fn new() -> Scratch
        ensures { result ≡ [] }
    {
        Scratch {
            bytes: [0; 128],
            at: 128,
        }
    }

    // The line so far.
    pub fn text(&self) -> &[u8]
        ensures { result.now ≡ self.now }
    {
        &self.bytes[self.at..]
    }

    // One byte in front.
    pub fn byte(&mut self, b: u8)
        requires { length self.old < 128 }
        ensures { self.new ≡ b ∷ self.old }
    {
        let at = self.at - 1;
        self.bytes[at] = b;
        self.at = at;
    }

    // A word in front.
    pub fn word(&mut self, word: &[u8])
        requires { length word.now + length self.old ≤ 128 }
        ensures { self.new ≡ word.now ++ self.old }
    {
        let end = self.at;
        let at = end - word.len();
        self.bytes[at..end].copy_from_slice(word);
        self.at = at;
    }

    // A number in decimal digits in front: its last digit is written first. The number is used up by tens, so that nothing is counted.
    pub fn decimal(&mut self, number: u64)
        requires { length (decimal number) + length self.old ≤ 128 }
        ensures text { self.new ≡ decimal number ++ self.old }
        ensures room { length self.new ≡ length (decimal number) + length self.old }
    {
        let mut n = number;
        // a while: the digits end where the number does, and no index counts them
        while 9 < n {
            self.byte(b'0' + (n % 10) as u8);
            n /= 10;
        }
        self.byte(b'0' + n as u8);
    }

    // A row in front, or a dash for none.
    #[tactic(auto, unfolding(crate::specs::Printed::row_text, text::specs::Bytes::bytes), using(crate::proofs::Decimal::digit_counts))]
    pub fn row(&mut self, row: u8)
        requires { 3 + length self.old ≤ 128 }
        ensures text { self.new ≡ row_text row ++ self.old }
        ensures room { length self.new ≤ 3 + length self.old }
    {
        if row == 255 {
            return self.byte(b'-');
        }
        self.decimal(row as u64);
    }

    // A signed number in front: its size, and a dash in front of a negative number's.
    pub fn signed(&mut self, number: i64)
        requires { 20 + length self.old ≤ 128 }
        ensures text { self.new ≡ signed number ++ self.old }
        ensures room { length self.new ≤ 20 + length self.old }
    {
        self.decimal(number.unsigned_abs());
        if number < 0 {
            self.byte(b'-');
        }
    }

    // A row of a set in front, with a comma behind it where others follow.
    #[tactic(auto, unfolding(crate::specs::Before::joined, text::specs::Bytes::bytes), using(crate::proofs::Decimal::digit_counts))]
    fn joined(&mut self, row: u32, others: bool)
        requires { (3 + length self.old ≤ 128) × (row < 32) }
        ensures { self.new ≡ joined row others ++ self.old }
    {
        if others {
            self.byte(b',');
        }
        self.decimal(row as u64);
    }

    // The rows of a set in front, from the last to the first: rising, joined by commas.
    fn rows(&mut self, set: u32)
        requires { 96 + length self.old ≤ 128 }
        ensures { self.new ≡ rows_onto 32 set [] ++ self.old }
    {
        let mut others = false;
        for row in (0..32u32).rev() {
            if (set >> row) % 2 == 1 {
                self.joined(row, others);
                others = true;
            }
        }
    }

    // The tasks ended in front, or a dash for none.
    #[tactic(auto, unfolding(crate::specs::Printed::ended_text, text::specs::Bytes::bytes))]
    pub fn ended(&mut self, set: u32)
        requires { 96 + length self.old ≤ 128 }
        ensures text { self.new ≡ ended_text set ++ self.old }
        ensures room { length self.new ≤ 85 + length self.old }
    {
        if set == 0 {
            return self.byte(b'-');
        }
        self.rows(set);
    }

    // A row and the space behind it.
    #[tactic(auto, unfolding(crate::specs::Before::parted))]
    pub fn row_field(&mut self, row: u8)
        requires { 4 + length self.old ≤ 128 }
        ensures text { self.new ≡ parted (row_text row) ++ self.old }
        ensures room { length self.new ≤ 4 + length self.old }
    {
        self.byte(b' ');
        self.row(row);
    }

    // A number and the space behind it.
    #[tactic(auto, unfolding(crate::specs::Before::parted))]
    pub fn number_field(&mut self, number: u64)
        requires { length (decimal number) + 1 + length self.old ≤ 128 }
        ensures text { self.new ≡ parted (decimal number) ++ self.old }
        ensures room { length self.new ≡ length (decimal number) + 1 + length self.old }
    {
        self.byte(b' ');
        self.decimal(number);
    }
}
