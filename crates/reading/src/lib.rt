// Read: a file's edition and header values, claim counts, claims and their bits. The questions are decided by the counts and the bits
// of first claims; then the claims are gone over, once, to store them.
#![tactic(auto)]

ghost use Rattle.std.specs.Prelude.{◌≡◌, map, length};
ghost use Rattle.plan.specs.Call.{filled};
ghost use Rattle.plan.specs.Claim.{dollars};
ghost use Rattle.plan.specs.Risk.{counts_from, risks_from, all_claims};
ghost use Rattle.claims.specs.Cursor.{own_claims, past_own};
ghost use Rattle.reading.specs.Reading.{bit, buffers, RisksRoom, ReadSays};

use bits::BitPlace;
use claims::cursor::Cursor;
use group::edition::ClaimFile;
use group::{Header, Refusal};
use groupfile::opening::{Outline, open_outline};

// What Read gives beside the buffers: the number of the edition, as the file has it and C gets it, the number of risks and the header
// values. An `Edition` would have to be made of that number again, with an `Err` that never comes.
#[derive(Clone, Copy)]
pub struct ReadValues {
    pub edition: u32,
    pub risks: u32,
    pub header: Header,
}

// The claims of a risk that are left into two buffers, the dollars and the bits, each of as many entries; the cursor behind them. Of what a
// `zip` of two buffers writes no proof knows anything, so the bits are stored by the entry's number.
fn read_claims(
    file: &ClaimFile<'_>,
    cursor: Cursor,
    claims: &mut [u32],
    joined: &mut [u8],
) -> Cursor
    requires { (length claims.old ≡ cursor.left) × (length joined.old ≡ cursor.left) }
    ensures placed { result.place.at ≡ past_own file.now.bytes.now cursor }
    ensures claimed { claims.new ≡ map dollars (own_claims file.now.bytes.now cursor) }
    ensures joining { joined.new ≡ map bit (own_claims file.now.bytes.now cursor) }
{
    let mut next = cursor;
    for (i, dollars) in claims.iter_mut().enumerate() {
        let claim = next.next_claim(file);
        *dollars = claim.value.dollars();
        joined[i] = claim.value.joins() as u8;
        next = claim.next;
    }
    next
}

// The risks from a place on, as many as there are entries for their counts: their counts, claims and bits, into buffers with room for
// them. How many entries a risk takes is known when its count is, so no iterator cuts them.
fn read_risks(
    file: &ClaimFile<'_>,
    place: BitPlace,
    counts: &mut [u8],
    claims: &mut [u32],
    joined: &mut [u8],
)
    requires { RisksRoom file.now.bytes.now place.at (length counts.old) (length claims.old) (length joined.old) }
    ensures counted { counts.new
        ≡ counts_from file.now.bytes.now place.at (length counts.old) }
    ensures claimed { claims.new
        ≡ filled (map dollars (all_claims (risks_from file.now.bytes.now place.at (length counts.old)))) claims.old }
    ensures joining { joined.new
        ≡ filled (map bit (all_claims (risks_from file.now.bytes.now place.at (length counts.old)))) joined.old }
{
    let mut next = Cursor::new(place);
    let mut from: usize = 0;
    for entry in counts {
        let risk = next.next_risk(file);
        *entry = risk.value as u8;
        let past = from + risk.value as usize;
        next = read_claims(
            file,
            risk.next,
            &mut claims[from..past],
            &mut joined[from..past],
        );
        from = past;
    }
}

// Reads a file of whatever bytes into buffers of whatever length. C lends one for the claims and one for their bits.
pub fn read(
    file: &[u8],
    counts: &mut [u8],
    claims: &mut [u32],
    joined: &mut [u8],
) -> Result<ReadValues, Refusal>
    ensures { ReadSays file.now (buffers counts.old claims.old joined.old)
        result (buffers counts.new claims.new joined.new) }
{
    let Outline {
        verdict,
        header,
        risks,
        layout,
    } = open_outline(file);
    verdict?;
    if counts.len() < risks as usize {
        return Err(Refusal::Room);
    }
    if claims.len() < layout.claims as usize {
        return Err(Refusal::Room);
    }
    if joined.len() < layout.claims as usize {
        return Err(Refusal::Room);
    }
    let claim_file = ClaimFile::new(file, layout.edition);
    read_risks(
        &claim_file,
        layout.first,
        &mut counts[..risks as usize],
        claims,
        joined,
    );
    Ok(ReadValues {
        edition: layout.edition,
        risks,
        header,
    })
}
