// A path's components, one at a time, for a caller that walks a path itself.
ghost use Rattle.std.specs.Prelude.{◌≡◌};
ghost use Rattle.vault.specs.Calls.{next_component};

use listings::paths::{component_end, component_from};

// The place of a component in a path.
#[repr(C)]
#[derive(Clone, Copy)]
pub struct Component {
    // Its offset in the path.
    pub at: usize,
    // Its length; 0 if there is none.
    pub length: usize,
}

// The first component at `at` or after it. Look for the next one from its end on.
pub fn next_component(path: &[u8], at: usize) -> Component
    ensures { result ≡ next_component path.now at }
{
    let from = component_from(path, at);
    let end = component_end(path, from);
    Component {
        at: from,
        length: end - from,
    }
}
