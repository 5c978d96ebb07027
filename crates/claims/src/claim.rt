// One claim as it lies in a file of either edition, taken from a front. How claims are put is `putting::runs`.
ghost use Rattle.std.specs.Prelude.{◌≡◌, ◌+◌, ◌^◌, ◌≤◌, ◌<◌};
ghost use Rattle.plan.specs.Sizes.{most_claim_width};
ghost use Rattle.plan.specs.Claim.{joins, dollars};
ghost use Rattle.claims.specs.Claim.{claim_of, ClaimOn, ClaimReach, ClaimTaken};

use bits::words::extract;
use bits::{BitPlace, Front, Taken};
use group::edition::{ClaimFile, Edition};
use group::widths::{DOLLARS_WIDTH, JOINED_WIDTH};

// The largest claim.
pub const LARGEST_CLAIM: u32 = 1048575;

// A claim's fields taken as one: the dollars, and above them the bit. The bit stays the number that the file has and that Read stores.
#[derive(Clone, Copy)]
pub struct FileClaim {
    pub number: u32,
}

impl FileClaim {
    // Its bit.
    pub fn joins(self) -> u32
        ensures { result ≡ joins (claim_of self) }
    {
        self.number >> DOLLARS_WIDTH
    }

    // Its dollars.
    pub fn dollars(self) -> u32
        ensures { result ≡ dollars (claim_of self) }
    {
        extract(u64::from(self.number), 0, DOLLARS_WIDTH) as u32
    }
}

// The claim on a front, with so many bits before its dollars, and the front behind it.
pub fn claim_on(front: Front, bits: u32) -> Taken<FileClaim, Front>
    requires { (bits ≤ 1) × (front.place.at + most_claim_width < 2 ^ 64) }
    ensures { ClaimOn front bits result }
{
    let taken = front.take(bits + DOLLARS_WIDTH);
    Taken {
        value: FileClaim {
            number: taken.value as u32,
        },
        next: taken.next,
    }
}

// The claim at a place, and the front behind it; its word ends at byte `reach` or before. Each number of bits is one of its own here, so that
// a loop over claims can compile to one for each edition: by one call with `joined_width` Read takes 322,069 instructions in place of 199,591.
pub fn claim_at(file: &ClaimFile<'_>, place: BitPlace, reach: usize) -> Taken<FileClaim, Front>
    requires { ClaimReach place.at 0 reach }
    ensures { ClaimTaken file.now.bytes.now place.at result }
{
    match file.edition {
        Edition::First => claim_on(place.front(file.bytes, reach), 0),
        Edition::Second => claim_on(place.front(file.bytes, reach), JOINED_WIDTH),
    }
}
