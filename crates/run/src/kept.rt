// What is kept of a line that is not whole yet: no event line is longer than 20 bytes, so its first 20 are enough.
ghost use Rattle.std.specs.Prelude.{◌≡◌, ◌≤◌, [], ◌++◌, length, take};
ghost use Rattle.run.specs.Stream.{most_kept};
ghost use Rattle.run.specs.Fed.{kept_of};

// The first bytes of the line. A length past 20 means 20.
#[derive(Clone, Copy)]
pub struct Kept {
    pub bytes: [u8; 20],
    pub length: u8,
}

impl Kept {
    // No bytes.
    pub fn nothing() -> Kept
        ensures { kept_of result ≡ [] }
    {
        Kept {
            bytes: [0; 20],
            length: 0,
        }
    }

    // How many bytes are kept.
    pub fn len(&self) -> usize
        ensures count { result ≡ length (kept_of self.now) }
        ensures upper_bound { result ≤ 20 }
    {
        (self.length as usize).min(20)
    }

    // The bytes that are kept.
    pub fn as_slice(&self) -> &[u8]
        ensures { result.now ≡ kept_of self.now }
    {
        let kept = &self.bytes[..self.len()];
        kept
    }

    // More bytes of the line behind those that are kept, up to 20.
    pub fn keep(&mut self, part: &[u8])
        ensures { kept_of self.new ≡ take most_kept (kept_of self.old ++ part.now) }
    {
        let n = self.len();
        let count = part.len().min(20 - n);
        self.bytes[n..n + count].copy_from_slice(&part[..count]);
        self.length = (n + count) as u8;
    }
}
