// The counts of a group file: a risk's claims, whether the first opens an accident, and both of all risks, with the
// place where the last field ends. No claim is looked at but for the bit of each risk's first. They are taken whatever the file's
// length, since bits past the end are 0, so it is a matter of the bytes alone.
ghost use Rattle.std.specs.Prelude.{◌≡◌, ◌+◌, ◌≤◌};
ghost use Rattle.plan.specs.Header.{header_bits};
ghost use Rattle.plan.specs.Risk.{count_width};
ghost use Rattle.plan.specs.Sizes.{most_risks, most_file_bits};
ghost use Rattle.claims.specs.Counts.{CountIs, HeadIs, CountedIs};

use crate::span::ClaimSpan;
use bits::{BitPlace, Taken};
use group::edition::{ClaimFile, Edition};
use group::widths::{COUNT_WIDTH, JOINED_WIDTH};

// What a risk begins with tells: where its claims are, and whether the first of them opens an accident.
#[derive(Clone, Copy)]
pub struct RiskHead {
    pub claims: ClaimSpan,
    pub first_opens: bool,
}

// What the counts of risks tell, and the bits of their first claims: the place where the last field ends, how many claims there are,
// and whether each risk's first claim opens an accident.
#[derive(Clone, Copy)]
pub struct Counted {
    pub end: BitPlace,
    pub claims: u32,
    pub each_opens: bool,
}

// The number of claims of the risk that begins at a place, and the place of its first claim.
pub fn count_at(file: &[u8], place: BitPlace) -> Taken<u32, BitPlace>
    requires { place.at + count_width ≤ most_file_bits }
    ensures { CountIs file.now place.at result }
{
    place.take(file, COUNT_WIDTH)
}

// The claims of the risk that begins at a place, and whether the first opens an accident: there is none, or it has no bit, or its bit,
// which lies behind the count in the same word, is 0. A bit of no width would do in edition 1, but it took a walk some eight
// instructions a risk.
pub fn head_at(file: &ClaimFile<'_>, place: BitPlace) -> RiskHead
    requires { place.at + count_width ≤ most_file_bits }
    ensures { HeadIs file.now.bytes.now place.at result }
{
    let front = place.front(file.bytes, place.reach());
    let count = front.take(COUNT_WIDTH);
    let first_opens = match file.edition {
        Edition::First => true,
        Edition::Second => {
            let bit = count.next.take(JOINED_WIDTH);
            (count.value == 0) | (bit.value == 0)
        }
    };
    RiskHead {
        claims: ClaimSpan {
            first: count.next.place,
            count: count.value as u32,
        },
        first_opens,
    }
}

// Goes over the counts of so many risks, 255 at most (`group` says why that is no type), from a place on, which is the header's end,
// and looks at no claim but for the bit of each risk's first.
pub fn count_claims(file: &ClaimFile<'_>, place: BitPlace, risks: u32) -> Counted
    requires { (risks ≤ most_risks) × (place.at ≡ header_bits) }
    ensures { CountedIs file.now.bytes.now risks result }
{
    let mut claims: u32 = 0;
    let mut each_opens = true;
    let mut next = place;
    for _ in 0..risks {
        let head = head_at(file, next);
        claims += head.claims.count;
        each_opens &= head.first_opens;
        next = head.claims.end(file.edition);
    }
    Counted {
        end: next,
        claims,
        each_opens,
    }
}
