// The sums of edition 1, where each claim is its own accident: what a claim more does to them.
ghost use Rattle.plan.specs.Claim.{dollars};
ghost use Rattle.claims.specs.Claim.{claim_of};
ghost use Rattle.losses.specs.Singles.{ClaimRoom, ClaimAdded, ClaimsSummed};

use bits::{BitPlace, Front};
use claims::claim::{FileClaim, LARGEST_CLAIM, claim_on};
use claims::run::{ClaimRun, limited_to};
use claims::sums::Sums;
use group::Losses;

// The sums of some claims of a risk, each an accident of its own: L and A of them. `most` is what the limit leaves of the largest claim.
#[derive(Clone, Copy)]
pub struct ClaimSums {
    pub total: u32,
    pub limited: u32,
    pub most: u32,
}

impl ClaimSums {
    // With one claim more.
    fn with_claim(self, claim: FileClaim) -> ClaimSums
        requires { ClaimRoom self }
        ensures { ClaimAdded self (dollars (claim_of claim)) result }
    {
        let dollars = claim.dollars();
        let total = self.total + dollars;
        let limited = self.limited + dollars.min(self.most);
        ClaimSums {
            total,
            limited,
            ..self
        }
    }
}

impl Sums for ClaimSums {
    const BITS: u32 = 0;

    ghost BITS = { 0 };

    ghost Are = { ClaimsSummed };

    fn none(limit: u32) -> ClaimSums {
        let most = limited_to(limit, LARGEST_CLAIM);
        ClaimSums {
            total: 0,
            limited: 0,
            most,
        }
    }

    fn add_claim(self, claim: FileClaim) -> ClaimSums {
        self.with_claim(claim)
    }

    fn add_pair(self, pair: Front) -> ClaimSums {
        let first = claim_on(pair, Self::BITS);
        let second = claim_on(first.next, Self::BITS);
        let one = self.with_claim(first.value);
        one.with_claim(second.value)
    }

    fn ended(self, next: BitPlace) -> ClaimRun {
        ClaimRun {
            losses: Losses {
                total: self.total,
                limited: self.limited,
            },
            next,
        }
    }
}
