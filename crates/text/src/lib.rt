#![tactic(auto)]

ghost use Rattle.std.specs.Prelude.{◌≡◌, ◌+◌, ◌≤◌, length, drop};
ghost use Rattle.text.specs.Lines.{until};
ghost use Rattle.text.specs.Numbers.{number};
ghost use Rattle.text.specs.Digits.{behind};

// How many bytes stand before the first b; all of them if there is none.
fn bytes_before(s: &[u8], b: u8) -> usize
    ensures { result ≡ until b s.now }
{
    s.iter().position(|x| *x == b).unwrap_or(s.len())
}

// "The plan text": where a line or a field ends. The place of the first b at or after at, or the end.
pub fn find(s: &[u8], at: usize, b: u8) -> usize
    ensures { result ≡ at + until b (drop at s.now) }
{
    let Some(rest) = s.get(at..) else {
        return at;
    };
    at + bytes_before(rest, b)
}

// The worth of at most 5 digits; a byte that is no digit makes it nothing.
fn digits_of(s: &[u8]) -> Option<u32>
    requires { length s.now ≤ 5 }
    ensures { result ≡ behind s.now 0 }
{
    let mut n: u32 = 0;
    for &b in s {
        if !b.is_ascii_digit() {
            return None;
        }
        n = 10 * n + (b - b'0') as u32;
    }
    Some(n)
}

// "The plan text": a number has 1 to 5 digits and no leading zero. The length comes first, so that no text makes the worth overflow.
pub fn number_of(s: &[u8]) -> Option<u32>
    ensures { result ≡ number s.now }
{
    let n = s.len();
    if n == 0 || 5 < n {
        return None;
    }
    if n != 1 && s[0] == b'0' {
        return None;
    }
    digits_of(s)
}
