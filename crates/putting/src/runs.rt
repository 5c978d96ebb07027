// A run of claims of either edition put by pairs: the fields of a pair are put one after another, and five whole bytes of the bits held are
// stored. In edition 1 two claims are five bytes, so after each pair as many bits are held as before it. In edition 2 they have two bits
// more; where eight or more are held, one byte more is stored. One loop is for both; whether its claims have bits is a const parameter, so
// that it compiles to one for each. What a function that puts fields asks of space is a fact of those fields, of the buffer and of the
// place, and of no value of its own.
ghost use Rattle.std.specs.Prelude.{◌≡◌};
ghost use Rattle.plan.specs.Claim.{slots_of_claims};
ghost use Rattle.bits.specs.Runs.{Space, Wrote};
ghost use Rattle.group.specs.Edition.{edition_number};
ghost use Rattle.putting.specs.Edition.{edition_by};
ghost use Rattle.putting.specs.Claims.{claims_are};
ghost use Rattle.putting.specs.ClaimPut.{RoomForClaim, ClaimPut};

use crate::given::GivenClaims;
use bits::BitPlace;
use bits::begun::Begun;
use group::edition::Edition;
use group::widths::{DOLLARS_WIDTH, JOINED_WIDTH};

// Bits of a byte.
const BYTE_WIDTH: u32 = 8;

// Bytes of a pair of claims without bits.
const PAIR_BYTES: usize = 5;

// Puts a claim of an edition: of edition 1 its dollars alone, without a look at its bit.
fn put_claim<const JOINS: bool>(begun: Begun, joins: u8, dollars: u32) -> Begun
    requires { RoomForClaim begun (edition_by JOINS) joins dollars }
    ensures { ClaimPut begun (edition_by JOINS) joins dollars result }
{
    if JOINS {
        let bit = begun.put(JOINED_WIDTH, u32::from(joins));
        return bit.put(DOLLARS_WIDTH, dollars);
    }
    begun.put(DOLLARS_WIDTH, dollars)
}

// Puts claims, each with its bit before it, and gives the place after them.
fn put_run<const JOINS: bool>(out: &mut [u8], place: BitPlace, claims: GivenClaims<'_>) -> BitPlace
    requires { Space out.old place.at (slots_of_claims (edition_by JOINS) (claims_are claims)) }
    ensures { Wrote out.old place.at (slots_of_claims (edition_by JOINS) (claims_are claims.entry))
        out.new result.at }
{
    let mut begun = Begun::at(place, out);
    let (bit_pairs, last_bit) = claims.joined.as_chunks::<2>();
    let (claim_pairs, last_claim) = claims.dollars.as_chunks::<2>();
    for (bit_pair, claim_pair) in bit_pairs.iter().zip(claim_pairs) {
        let first = put_claim::<JOINS>(begun, bit_pair[0], claim_pair[0]);
        let second = put_claim::<JOINS>(first, bit_pair[1], claim_pair[1]);
        // what a pair has beyond its five bytes is held
        begun = second.store::<PAIR_BYTES>(out);
        if BYTE_WIDTH <= begun.bits {
            begun = begun.store::<1>(out);
        }
    }
    if last_claim.is_empty() {
        return begun.end(out);
    }
    put_claim::<JOINS>(begun, last_bit[0], last_claim[0]).end(out)
}

// Puts claims as their edition has them, and gives the place after them.
pub fn put_claims(out: &mut [u8], place: BitPlace, claims: GivenClaims<'_>) -> BitPlace
    requires { Space out.old place.at (slots_of_claims (edition_number claims.edition) (claims_are claims)) }
    ensures { Wrote out.old place.at
        (slots_of_claims (edition_number claims.entry.edition) (claims_are claims.entry)) out.new result.at }
{
    match claims.edition {
        Edition::First => put_run::<false>(out, place, claims),
        Edition::Second => put_run::<true>(out, place, claims),
    }
}
