// Write: the bytes of a group file from given values.
ghost use Rattle.std.specs.Prelude.{◌≡◌, ◌+◌, ◌*◌, ◌≤◌};
ghost use Rattle.plan.specs.Sizes.{most_risks, most_claims};
ghost use Rattle.plan.specs.Field.{bytes_for};
ghost use Rattle.plan.specs.Header.{header_bits};
ghost use Rattle.plan.specs.Claim.{claim_width};
ghost use Rattle.plan.specs.Risk.{count_width};
ghost use Rattle.group.specs.Edition.{edition_number};
ghost use Rattle.writing.specs.Writer.{given_group, WriteSays};

use crate::fitting::{risks_open, values_fit};
use group::edition::Edition;
use group::given::GroupValues;
use group::questions::header_verdict;
use group::widths::{COUNT_WIDTH, HEADER_BYTES, claim_width};
use group::{Header, Refusal};
use putting::put_file;

// The length of a file of an edition with so many risks, 255 at most (`group` says why that is no type), and claims.
fn file_length(edition: Edition, risks: usize, claims: usize) -> usize
    requires { (risks ≤ most_risks) × (claims ≤ most_claims * most_risks) }
    ensures { result ≡ bytes_for (header_bits + count_width * risks + claim_width (edition_number edition) * claims) }
{
    let bits = 8 * HEADER_BYTES
        + COUNT_WIDTH as usize * risks
        + claim_width(edition) as usize * claims;
    bits.div_ceil(8)
}

// The file of given values, put over the first bytes of `out`; or the first question that failed, and nothing. The edition is the number
// that C gives; claims and bits are two lists, as C gives them.
pub fn write(
    edition: u32,
    header: Header,
    counts: &[u8],
    claims: &[u32],
    joined: &[u8],
    out: &mut [u8],
) -> Result<usize, Refusal>
    ensures { WriteSays (given_group edition header counts.now claims.now joined.now)
        out.old result out.new }
{
    let edition = Edition::try_from(edition)?;
    header_verdict(header, counts.len())?;
    let values = GroupValues {
        edition,
        header,
        counts,
        claims,
        joined,
    };
    if !values_fit(&values) {
        return Err(Refusal::Misfit);
    }
    if !risks_open(counts, joined) {
        return Err(Refusal::FirstJoined);
    }
    let size = file_length(edition, counts.len(), claims.len());
    if out.len() < size {
        return Err(Refusal::Room);
    }
    put_file(&mut out[..size], &values);
    Ok(size)
}
