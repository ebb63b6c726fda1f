// How what was parsed crosses to C.
ghost use Rattle.std.specs.Prelude.{◌≡◌};
ghost use Rattle.disc.specs.Replies.{answer_from};

use disc::answers::DONE;
use disc::refusals::Refusal;

// The answer number, and what was read, or zeros where it is refused.
pub(crate) fn told<T: Copy>(r: Result<T, Refusal>, zeros: T) -> (u64, T)
    ensures { record { number = result.0; value = result.1 } ≡ answer_from zeros r }
{
    match r {
        Ok(value) => (DONE, value),
        Err(why) => (why.number(), zeros),
    }
}
