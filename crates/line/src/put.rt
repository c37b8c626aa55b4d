// "The run program": each line is written into the unfilled rest of the output buffer.
ghost use Rattle.std.specs.Prelude.{◌≡◌, ◌≤◌, length};
ghost use Rattle.line.specs.Filled.{fill_after, out_after};

// Copies a line behind what is filled, unless it is longer than the rest, and answers the new fill. A fill past the end leaves no rest.
pub fn add(out: &mut [u8], fill: usize, line: &[u8]) -> Option<usize>
    requires { 1 ≤ length line.now }
    ensures { (result ≡ fill_after out.old fill line.now)
        × (out.new ≡ out_after out.old fill line.now) }
{
    if out.len() < fill {
        return None;
    }
    let n = line.len();
    if out.len() - fill < n {
        return None;
    }
    let end = fill + n;
    out[fill..end].copy_from_slice(line);
    Some(end)
}
