// What is asked of given values: question 15, whether n, counts, claims, bits and header values fit
// their widths, the counts add to the number of claims, and there are as many bits; and question 19, whether each risk's first
// claim has the bit 0.
ghost use Rattle.std.specs.Prelude.{◌≡◌, ◌&&◌, ◌<◌, ◌≤◌, eqb, length};
ghost use Rattle.plan.specs.Arithmetic.{sum};
ghost use Rattle.plan.specs.Sizes.{most_risks};
ghost use Rattle.plan.specs.Field.{all_fit};
ghost use Rattle.plan.specs.Claim.{joined_width, dollars_width};
ghost use Rattle.plan.specs.Risk.{count_width};
ghost use Rattle.plan.specs.Questions.{ask, header_fits, question15};
ghost use Rattle.group.specs.Edition.{edition_number};
ghost use Rattle.group.specs.Values.{header_is};
ghost use Rattle.group.specs.Given.{group_is};
ghost use Rattle.writing.specs.Fitting.{OpensSays, OpenSays};

use bits::words::value_fits;
use group::edition::Edition;
use group::given::GroupValues;
use group::widths::{
    CONVERSION_WIDTH, DOLLARS_WIDTH, EXPENSE_WIDTH, LOSS_LIMIT_WIDTH, MARK_KIND_WIDTH, MARK_WIDTH,
    STANDARD_PREMIUM_WIDTH, TAX_WIDTH, joined_width,
};
use group::{Header, MOST_CLAIMS, MOST_RISKS};

// ---- question 15

// Whether the header values fit their widths.
fn header_fits(h: Header) -> bool
    ensures { result ≡ header_fits (header_is h) }
{
    value_fits(LOSS_LIMIT_WIDTH, h.loss_limit)
        & value_fits(STANDARD_PREMIUM_WIDTH, h.standard_premium)
        & value_fits(EXPENSE_WIDTH, h.expense)
        & value_fits(CONVERSION_WIDTH, h.conversion)
        & value_fits(TAX_WIDTH, h.tax)
        & value_fits(MARK_KIND_WIDTH, h.mark_kind)
        & value_fits(MARK_WIDTH, h.maximum_mark)
        & value_fits(MARK_WIDTH, h.minimum_mark)
}

// Whether the counts, 255 at most (`group` says why that is no type), fit their width and add to the number of claims.
fn counts_add(counts: &[u8], claims: usize) -> bool
    requires { length counts.now ≤ most_risks }
    ensures { result ≡ (all_fit count_width counts.now && eqb (sum counts.now) claims) }
{
    let fit = counts.iter().all(|&count| u32::from(count) <= MOST_CLAIMS);
    // The first count that does not fit ends it: the others are not added.
    if !fit {
        return false;
    }
    let total: usize = counts.iter().map(|&count| usize::from(count)).sum();
    total == claims
}

// Whether the dollars of the claims fit their width. All are looked at: a loop without another way out can compile to one over
// several at a time. By `all` Write takes 341,384 instructions in place of 271,116.
fn claims_fit(claims: &[u32]) -> bool
    ensures { result ≡ all_fit dollars_width claims.now }
{
    claims.iter().fold(
        true,
        |fit, &dollars| fit & value_fits(DOLLARS_WIDTH, dollars),
    )
}

// Whether the bits of the claims fit their width in an edition: where that is no bits, each is 0. The greatest is looked for in a
// loop of bytes alone, which can compile to one over many at a time; of `max` in place of the fold no proof was found.
fn joined_fit(edition: Edition, joined: &[u8]) -> bool
    ensures { result ≡ all_fit (joined_width (edition_number edition)) joined.now }
{
    let most = joined.iter().fold(0, |most: u8, &bit| most.max(bit));
    value_fits(joined_width(edition), u32::from(most))
}

// Question 15. Claims are looked at only where there are as many as the counts add to, and bits where there are as many as
// claims.
pub fn values_fit(values: &GroupValues<'_>) -> bool
    ensures { ask 15 result ≡ question15 (group_is values.now) }
{
    if values.counts.len() > MOST_RISKS {
        return false;
    }
    if !counts_add(values.counts, values.claims.len()) {
        return false;
    }
    if values.joined.len() != values.claims.len() {
        return false;
    }
    claims_fit(values.claims)
        & joined_fit(values.edition, values.joined)
        & header_fits(values.header)
}

// ---- question 19

// Whether a risk's first claim has the bit 0; a risk without claims passes.
fn risk_opens(joined: &[u8]) -> bool
    ensures { OpensSays joined.now result }
{
    joined.first().is_none_or(|&bit| bit == 0)
}

// Question 19, of as many bits as the counts take.
pub fn risks_open(counts: &[u8], joined: &[u8]) -> bool
    requires { sum counts.now ≤ length joined.now }
    ensures { OpenSays counts.now joined.now result }
{
    let mut all = true;
    let mut rest = joined;
    for &count in counts {
        let (own, after) = rest.split_at(usize::from(count));
        all &= risk_opens(own);
        rest = after;
    }
    all
}
