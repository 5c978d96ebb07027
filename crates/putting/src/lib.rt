// The fields of a group file put one after another: the header's in two runs, the risks', and the fill. That the
// values fit and the buffer has room was asked before: each function asks for the space of its own fields, which is a fact of those
// fields, of the buffer and of the place, and of no value of its own.
#![tactic(auto)]

ghost use Rattle.std.specs.Prelude.{◌≡◌, ◌≤◌, length};
ghost use Rattle.plan.specs.Arithmetic.{sum};
ghost use Rattle.plan.specs.Risk.{slots_of_risks};
ghost use Rattle.plan.specs.File.{file_of};
ghost use Rattle.bits.specs.Runs.{Space, Wrote};
ghost use Rattle.group.specs.Edition.{edition_number};
ghost use Rattle.group.specs.Values.{header_is};
ghost use Rattle.putting.specs.Claims.{claims_are};
ghost use Rattle.group.specs.Given.{group_is};
ghost use Rattle.putting.specs.Putting.{first_slots, last_slots, slots_of_risk, Ready};

pub mod given;
pub mod runs;

use crate::given::GivenClaims;
use crate::runs::put_claims;
use bits::BitPlace;
use group::Header;
use group::edition::Edition;
use group::given::GroupValues;
use group::widths::{
    CONVERSION_WIDTH, COUNT_WIDTH, EDITION_WIDTH, EXPENSE_WIDTH, LOSS_LIMIT_WIDTH, MARK_KIND_WIDTH,
    MARK_WIDTH, RISKS_WIDTH, SPARE_WIDTH, STANDARD_PREMIUM_WIDTH, TAX_WIDTH,
};

// Puts edition to loss conversion factor, and gives the place after them.
fn put_first(out: &mut [u8], edition: Edition, h: Header) -> BitPlace
    requires { Space out.old 0 (first_slots (edition_number edition) (header_is h)) }
    ensures { Wrote out.old 0 (first_slots (edition_number edition) (header_is h)) out.new result.at }
{
    let limit = BitPlace { at: 0 }.put(out, EDITION_WIDTH, u32::from(edition));
    let premium = limit.put(out, LOSS_LIMIT_WIDTH, h.loss_limit);
    let expense = premium.put(out, STANDARD_PREMIUM_WIDTH, h.standard_premium);
    let conversion = expense.put(out, EXPENSE_WIDTH, h.expense);
    conversion.put(out, CONVERSION_WIDTH, h.conversion)
}

// Puts tax multiplier to spare bit.
fn put_last(out: &mut [u8], place: BitPlace, h: Header, risks: u32) -> BitPlace
    requires { Space out.old place.at (last_slots (header_is h) risks) }
    ensures { Wrote out.old place.at (last_slots (header_is h) risks)
        out.new result.at }
{
    let kind = place.put(out, TAX_WIDTH, h.tax);
    let maximum = kind.put(out, MARK_KIND_WIDTH, h.mark_kind);
    let minimum = maximum.put(out, MARK_WIDTH, h.maximum_mark);
    let n = minimum.put(out, MARK_WIDTH, h.minimum_mark);
    let spare = n.put(out, RISKS_WIDTH, risks);
    spare.put(out, SPARE_WIDTH, 0)
}

// Puts a risk: the number of its claims, then its claims.
fn put_risk(out: &mut [u8], place: BitPlace, claims: GivenClaims<'_>) -> BitPlace
    requires { Space out.old place.at (slots_of_risk claims) }
    ensures { Wrote out.old place.at (slots_of_risk claims.entry) out.new result.at }
{
    let next = place.put(out, COUNT_WIDTH, claims.dollars.len() as u32);
    put_claims(out, next, claims)
}

// Puts the risks, each with as many of the claims as its count says.
fn put_risks(out: &mut [u8], place: BitPlace, counts: &[u8], claims: GivenClaims<'_>) -> BitPlace
    requires space { Space out.old place.at (slots_of_risks (edition_number claims.edition) counts.now (claims_are claims)) }
    requires counts_in_bounds { sum counts.now ≤ length claims.dollars.now }
    ensures { Wrote out.old place.at
        (slots_of_risks (edition_number claims.entry.edition) counts.now (claims_are claims.entry))
        out.new result.at }
{
    let mut next = place;
    let mut claims_left = claims;
    for &count in counts {
        let (own_claims, later_claims) = claims_left.split_at(usize::from(count));
        next = put_risk(out, next, own_claims);
        claims_left = later_claims;
    }
    next
}

// Puts the file over the buffer, which is as long: every field, then zero bits that fill the last byte.
pub fn put_file(out: &mut [u8], values: &GroupValues<'_>)
    requires { Ready (group_is values.now) out.old }
    ensures { out.new ≡ file_of (group_is values.now) }
{
    let claims = GivenClaims {
        edition: values.edition,
        joined: values.joined,
        dollars: values.claims,
    };
    let first = put_first(out, values.edition, values.header);
    let last = put_last(out, first, values.header, values.counts.len() as u32);
    let end = put_risks(out, last, values.counts, claims);
    let fill = 8 * out.len() - end.at;
    end.put(out, fill as u32, 0);
}
