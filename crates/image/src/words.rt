// Bytes and numbers of 16 bits, little-endian, in buffers.
ghost use Rattle.std.specs.Prelude.{◌≡◌, ◌+◌, ◌≤◌, ◌<◌, length};
ghost use Rattle.std.proofs.Math.Seq.{paste};
ghost use Rattle.image.specs.Words.{word, word_at};

#[tactic(auto, unfolding(crate::specs::Words::word_at, crate::specs::Words::byte_at))]
pub fn word_at(b: &[u8], at: usize) -> u16
    requires { at + 1 < length b.now }
    ensures { result ≡ word_at b.now at }
{
    u16::from_le_bytes([b[at], b[at + 1]])
}

#[tactic(auto, unfolding(crate::specs::Words::word))]
pub fn bytes_of(n: u16) -> [u8; 2]
    ensures { result ≡ word n }
{
    n.to_le_bytes()
}

// Bytes in the place of as many of a buffer, from at on.
pub fn put(buffer: &mut [u8], at: usize, bytes: &[u8])
    requires { at + length bytes.now ≤ length buffer.old }
    ensures { buffer.new ≡ paste buffer.old at bytes.now (length bytes.now) }
{
    let end = at + bytes.len();
    buffer[at..end].copy_from_slice(bytes);
}
