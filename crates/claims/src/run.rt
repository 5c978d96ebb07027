// A run of claims as the file has it, and what the loss limit leaves of an accident's sum. The loop over the claims of a risk gives
// the one and uses the other.
ghost use Rattle.std.specs.Prelude.{◌≡◌};
ghost use Rattle.plan.specs.Losses.{limited_to};

use bits::BitPlace;
use group::Losses;

// A run of claims as the file has it: L and A, and the place after it.
#[derive(Clone, Copy)]
pub struct ClaimRun {
    pub losses: Losses,
    pub next: BitPlace,
}

// The lesser of an accident's sum and the loss limit. A limit of 0 is none, as the file and C have it: nothing else looks at it.
pub fn limited_to(limit: u32, sum: u32) -> u32
    ensures { result ≡ limited_to limit sum }
{
    if limit == 0 { sum } else { sum.min(limit) }
}
