// Bytes copied into lent memory, lent memory cleared, and the lesser of two lengths.
ghost use Rattle.std.specs.Prelude.{◌≡◌, min, length, replicate};
ghost use Rattle.disc.specs.Moves.{over};

// The lesser of two lengths.
pub fn least(a: usize, b: usize) -> usize
    ensures { result ≡ min a b }
{
    a.min(b)
}

// Copies text over the front of out; what doesn't fit is left out.
pub fn copy(text: &[u8], out: &mut [u8])
    ensures { out.new ≡ over text.now out.old }
{
    let n = text.len().min(out.len());
    out[..n].copy_from_slice(&text[..n]);
}

// Zeroes `out`.
pub fn clear(out: &mut [u8])
    ensures { out.new ≡ replicate (length out.old) 0 }
{
    out.fill(0);
}
