// Counts of sectors, capped at 2^64 - 1; what is left of a budget of them; and the lesser of two numbers.
ghost use Rattle.std.specs.Prelude.{◌≡◌, ◌+◌, min};
ghost use Rattle.disc.specs.Budgets.{left_of};
ghost use Rattle.disc.specs.Counts.{reported};

// No budget: as many sectors as a call wants.
pub const UNLIMITED: u64 = 0xffff_ffff_ffff_ffff;

// The sum of two counts.
pub fn add_counts(a: u64, b: u64) -> u64
    ensures { result ≡ reported (a + b) }
{
    a.saturating_add(b)
}

// What is left of a budget of `most` sectors after `count` of them. No budget stays no budget.
pub fn left_of(most: u64, count: u64) -> u64
    ensures { result ≡ left_of most count }
{
    if most == UNLIMITED {
        return most;
    }
    most.saturating_sub(count)
}

// The lesser of two numbers.
pub fn lesser(a: u64, b: u64) -> u64
    ensures { result ≡ min a b }
{
    a.min(b)
}
