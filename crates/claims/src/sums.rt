// The sums over claims of a risk, as the claims of one edition add to them. An edition says what one claim does to its sums, what a
// pair on one front does, and what they come to; the loop over the claims is one for all.
ghost use Rattle.std.specs.Prelude.{◌≡◌, List, [], ◌∷◌, ℕ, ◌+◌, ◌*◌, ◌^◌, ◌<◌};
ghost use Rattle.plan.specs.Sizes.{most_claim_width};
ghost use Rattle.plan.specs.Claim.{Claim, joined_width};
ghost use Rattle.plan.specs.Header.{edition_of};
ghost use Rattle.claims.specs.Run.{ClaimsAre};
ghost use Rattle.claims.specs.Claim.{claim_of, ClaimFits, first_on, second_on};
ghost use Rattle.claims.specs.Sums.{RoomFor, Added, LossesAre};

use crate::claim::{FileClaim, claim_on};
use crate::run::ClaimRun;
use crate::span::ClaimSpan;
use bits::{BitPlace, Front};
use group::widths::DOLLARS_WIDTH;

pub trait Sums: Copy {
    // Bits of the field before a claim's dollars.
    const BITS: u32;

    ghost BITS: { ℕ };

    // The sums are of these claims, by this loss limit.
    ghost Are: { List Claim → ℕ → Self → Type 0 };

    // The sums of no claims.
    fn none(limit: u32) -> Self
        ensures { Are [] limit result };

    // With one claim more.
    fn add_claim(self, claim: FileClaim) -> Self
        requires { RoomFor Are 1 self × ClaimFits BITS claim }
        ensures { Added Are self (claim_of claim ∷ []) result };

    // With two claims more, the one on a front and the one behind it.
    fn add_pair(self, pair: Front) -> Self
        requires { RoomFor Are 2 self × (pair.place.at + 2 * most_claim_width < 2 ^ 64) }
        ensures { Added Are self (claim_of (first_on BITS pair) ∷ claim_of (second_on BITS pair) ∷ []) result };

    // What they come to where no claim follows, and the place after the claims.
    fn ended(self, next: BitPlace) -> ClaimRun
        requires { RoomFor Are 0 self }
        ensures { LossesAre Are self next result };
}

// The claims of an edition. Two are taken from one front; an odd one is the last.
pub fn run_of<S: Sums>(file: &[u8], span: ClaimSpan, limit: u32) -> ClaimRun
    requires { joined_width (edition_of file.now) ≡ S.BITS }
    ensures { ClaimsAre file.now span.first.at span.count limit result }
{
    let width = S::BITS + DOLLARS_WIDTH;
    let reach = span.last_byte();
    let count = span.count;
    let mut sums = S::none(limit);
    let mut next = span.first;
    for _ in 0..count / 2 {
        sums = sums.add_pair(next.front(file, reach));
        next = next.past(2, width);
    }
    if count % 2 == 0 {
        return sums.ended(next);
    }
    let last = claim_on(next.front(file, reach), S::BITS);
    sums.add_claim(last.value).ended(last.next.place)
}
