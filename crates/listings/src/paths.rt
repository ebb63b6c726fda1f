// A path's components.
ghost use Rattle.std.specs.Prelude.{◌≡◌, ◌+◌, length, drop};
ghost use Rattle.listings.specs.Paths.{front, slashes};

// The place after the slashes at `at`.
pub fn component_from(path: &[u8], at: usize) -> usize
    ensures { result ≡ at + slashes (drop at path.now) }
{
    let rest = path.get(at..).unwrap_or(&[]);
    at + rest.iter().position(|b| *b != 0x2f).unwrap_or(rest.len())
}

// Where the component that starts at `at` ends.
pub fn component_end(path: &[u8], at: usize) -> usize
    ensures { result ≡ at + length (front (drop at path.now)) }
{
    let rest = path.get(at..).unwrap_or(&[]);
    at + rest.iter().position(|b| *b == 0x2f).unwrap_or(rest.len())
}
