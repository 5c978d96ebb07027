// A cursor over a file's claims, risk by risk: each step takes a count or a claim, and hands the cursor back behind it.
ghost use Rattle.std.specs.Prelude.{◌≡◌, ◌+◌, ◌≤◌, ◌<◌};
ghost use Rattle.plan.specs.Sizes.{most_file_bits};
ghost use Rattle.plan.specs.Risk.{count_width};
ghost use Rattle.claims.specs.Claim.{ClaimReach};

use crate::claim::{FileClaim, claim_at};
use crate::counts::count_at;
use crate::span::ClaimSpan;
use bits::{BitPlace, Taken};
use group::edition::ClaimFile;

// The place of the next claim of a risk, or behind its last, how many of its claims are left, and a byte that no word of theirs ends after.
#[derive(Clone, Copy)]
pub struct Cursor {
    pub place: BitPlace,
    pub left: u32,
    pub reach: usize,
    pub ghost within: { ClaimReach place.at left reach },
}

impl Cursor {
    ghost use Rattle.claims.specs.Cursor.{NextRisk, NextClaim};

    // At a place where a risk begins, or behind the last.
    pub fn new(place: BitPlace) -> Cursor
        requires { place.at ≤ most_file_bits }
        ensures { (result.place ≡ place) × (result.left ≡ 0) }
    {
        Cursor {
            place,
            left: 0,
            reach: place.reach(),
        }
    }

    // The count of the risk that begins here, and the cursor at its first claim.
    pub fn next_risk(self, file: &ClaimFile<'_>) -> Taken<u32, Cursor>
        requires { self.place.at + count_width ≤ most_file_bits }
        ensures { NextRisk file.now.bytes.now self result }
    {
        let count = count_at(file.bytes, self.place);
        let claims = ClaimSpan {
            first: count.next,
            count: count.value,
        };
        Taken {
            value: claims.count,
            next: Cursor {
                place: claims.first,
                left: claims.count,
                reach: claims.last_byte(),
            },
        }
    }

    // The next claim of the risk, and the cursor behind it.
    pub fn next_claim(self, file: &ClaimFile<'_>) -> Taken<FileClaim, Cursor>
        requires { 0 < self.left }
        ensures { NextClaim file.now.bytes.now self result }
    {
        let claim = claim_at(file, self.place, self.reach);
        Taken {
            value: claim.value,
            next: Cursor {
                place: claim.next.place,
                left: self.left - 1,
                reach: self.reach,
            },
        }
    }
}
