// Some claims as they lie one after another: where the first begins and how many they are.
ghost use Rattle.std.specs.Prelude.{◌≡◌, ◌+◌, ◌*◌};
ghost use Rattle.plan.specs.Claim.{claim_width};
ghost use Rattle.claims.specs.Claim.{ClaimReach, RunReach};
ghost use Rattle.group.specs.Edition.{edition_number};

use bits::BitPlace;
use group::edition::Edition;
use group::widths::{MOST_CLAIM_WIDTH, claim_width};

// The place of the first claim, and as many as a risk has at most, from where one of a file can begin.
#[derive(Clone, Copy)]
pub struct ClaimSpan {
    pub first: BitPlace,
    pub count: u32,
    pub ghost reach: { RunReach first.at count },
}

impl ClaimSpan {
    // The place after the claims, where they are of an edition: it is known by their number alone.
    pub fn end(self, edition: Edition) -> BitPlace
        ensures { result.at ≡ self.first.at + claim_width (edition_number edition) * self.count }
    {
        self.first.past(self.count as usize, claim_width(edition))
    }

    // A byte that no word of the claims, of either edition, ends after: one test of the file's length will do for all of them.
    pub fn last_byte(self) -> usize
        ensures { ClaimReach self.first.at self.count result }
    {
        self.first
            .past(self.count as usize, MOST_CLAIM_WIDTH)
            .reach()
    }
}
