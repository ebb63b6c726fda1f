// The items of a list of paths, separated by zero bytes.
ghost use Rattle.std.specs.Prelude.{◌≡◌, ◌+◌, length, drop};
ghost use Rattle.cue_stacks.specs.Stacks.{item, items_behind};

// Where the item that starts at `at` ends.
pub(crate) fn item_end(paths: &[u8], at: usize) -> usize
    ensures { result ≡ at + length (item (drop at paths.now)) }
{
    let rest = paths.get(at..).unwrap_or(&[]);
    at + rest.iter().position(|b| *b == 0).unwrap_or(rest.len())
}

// How many items follow the first: one for each zero.
pub(crate) fn items_behind(paths: &[u8]) -> usize
    ensures { result ≡ length (items_behind paths.now) }
{
    paths.iter().filter(|b| **b == 0).count()
}
