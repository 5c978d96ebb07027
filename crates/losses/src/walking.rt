// The walk over a file's claims, a risk a turn: step 1's losses of each risk and of the group, whether every risk's first claim opens
// an accident, and where the last field ends. It is taken whatever the file's length, since bits past the end are 0, so it is a
// matter of the bytes alone.
ghost use Rattle.std.specs.Prelude.{◌≡◌, ◌≤◌};
ghost use Rattle.plan.specs.Header.{header_bits};
ghost use Rattle.plan.specs.Sizes.{most_risks};
ghost use Rattle.losses.specs.Walks.{WalkIs};

use crate::risks::{SumsSoFar, pass_risk};
use bits::BitPlace;
use claims::counts::Counted;
use group::edition::ClaimFile;
use group::{GroupLosses, Losses, MOST_RISKS};

// What the walk gives: what the counts tell, and the losses.
#[derive(Drop)]
pub struct Walked {
    pub counted: Counted,
    pub losses: GroupLosses,
}

// The walk over so many risks, 255 at most (`group` says why that is no type), one after another, from a place on, which is the header's
// end.
pub fn walk(file: &ClaimFile<'_>, place: BitPlace, risks: u32, limit: u32) -> Walked
    requires { (risks ≤ most_risks) × (place.at ≡ header_bits) }
    ensures { WalkIs file.now.bytes.now risks limit result }
{
    let mut of_risks = [Losses::default(); MOST_RISKS];
    let mut sums = SumsSoFar {
        risks: 0,
        claims: 0,
        each_opens: true,
        total: 0,
        limited: 0,
        next: place,
    };
    for i in 0..risks as usize {
        let risk = pass_risk(file, sums, limit);
        of_risks[i] = risk.losses;
        sums = risk.sums;
    }
    Walked {
        counted: Counted {
            end: sums.next,
            claims: sums.claims,
            each_opens: sums.each_opens,
        },
        losses: GroupLosses {
            risks,
            of_risks,
            total: sums.total,
            limited: sums.limited,
        },
    }
}
