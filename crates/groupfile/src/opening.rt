// A file opened: questions 1 to 9, 18 and 19 in their places, with all that Rate and Table take from it, or, as
// its outline, with all that Read takes. Every call on a file passes this gate first; it needs no buffer.
ghost use Rattle.std.specs.Prelude.{◌≡◌};
ghost use Rattle.plan.specs.Accidents.{all_open};
ghost use Rattle.plan.specs.File.{risks_of, end_of};
ghost use Rattle.plan.specs.Questions.{first_no, end_questions, file_questions};
ghost use Rattle.group.specs.Refusals.{verdict_is};
ghost use Rattle.groupfile.specs.Header.{FileHeaderIs};
ghost use Rattle.groupfile.specs.Opening.{OpenedIs, OutlineIs};

use crate::header::{FileHeader, header_of};
use bits::BitPlace;
use claims::counts::{Counted, count_claims};
use group::edition::{ClaimFile, Edition};
use group::questions::header_verdict;
use group::widths::HEADER_BYTES;
use group::{GroupLosses, Header, Refusal};
use losses::walking::walk;

// The risks as they lie in a file, for a call that goes over their claims: the number of the edition as the file has it, which may be
// none's, the place of the first, and the number of all claims. A file opened with its losses has them too, for a call that goes over
// the claims again.
#[derive(Clone, Copy)]
pub struct RiskLayout {
    pub edition: u32,
    pub first: BitPlace,
    pub claims: u32,
}

// What questions come to, and where they pass what comes of them; and what a file has whatever they come to: the header values, its
// risks, and the losses.
#[derive(Drop)]
pub struct Opened<T> {
    pub verdict: Result<T, Refusal>,
    pub header: Header,
    pub layout: RiskLayout,
    pub losses: GroupLosses,
}

// The same without the losses, and n in their place, which are other fields and not another type of one.
#[derive(Clone, Copy)]
pub struct Outline {
    pub verdict: Result<(), Refusal>,
    pub header: Header,
    pub risks: u32,
    pub layout: RiskLayout,
}

// Questions 8, 9 and 19 of a file, by what its counts tell.
fn end_verdict(file: &[u8], counted: Counted) -> Result<(), Refusal>
    requires { (counted.end.at ≡ end_of file.now) × (counted.each_opens ≡ all_open (risks_of file.now)) }
    ensures { verdict_is result ≡ first_no (end_questions file.now) }
{
    let end = counted.end;
    if file.len() != end.at.div_ceil(8) {
        return Err(Refusal::Length);
    }
    let width = 8 * file.len() - end.at;
    let fill = end.take(file, width as u32);
    if fill.value != 0 {
        return Err(Refusal::Fill);
    }
    if !counted.each_opens {
        return Err(Refusal::FirstJoined);
    }
    Ok(())
}

// Questions 1 to 9 and 19 of a file with this header, by what its counts tell.
fn file_verdict(file: &[u8], header: FileHeader, counted: Counted) -> Result<(), Refusal>
    requires file_header_is { FileHeaderIs file.now header }
    requires at_value { (counted.end.at ≡ end_of file.now) × (counted.each_opens ≡ all_open (risks_of file.now)) }
    ensures { verdict_is result ≡ first_no (file_questions file.now) }
{
    if file.len() < HEADER_BYTES {
        return Err(Refusal::NoHeader);
    }
    Edition::try_from(header.edition)?;
    if header.spare != 0 {
        return Err(Refusal::Edition);
    }
    header_verdict(header.values, header.risks as usize)?;
    end_verdict(file, counted)
}

// Opens a file of whatever bytes.
pub fn open(file: &[u8]) -> Opened<()>
    ensures { OpenedIs (file_questions file.now) file.now result }
{
    let header = header_of(file);
    let values = header.values;
    let first = header.next;
    let claim_file = ClaimFile::new(file, header.edition);
    let walked = walk(&claim_file, first, header.risks, values.loss_limit);
    Opened {
        verdict: file_verdict(file, header, walked.counted),
        header: values,
        layout: RiskLayout {
            edition: header.edition,
            first,
            claims: walked.counted.claims,
        },
        losses: walked.losses,
    }
}

// The outline of a file of whatever bytes: the same questions, for a call that needs no losses. They are asked without a look at
// a claim but for the bit of each risk's first, since the counts say where the last field ends.
pub fn open_outline(file: &[u8]) -> Outline
    ensures { OutlineIs (file_questions file.now) file.now result }
{
    let header = header_of(file);
    let first = header.next;
    let claim_file = ClaimFile::new(file, header.edition);
    let risks = header.risks;
    let counted = count_claims(&claim_file, first, risks);
    Outline {
        verdict: file_verdict(file, header, counted),
        header: header.values,
        risks,
        layout: RiskLayout {
            edition: header.edition,
            first,
            claims: counted.claims,
        },
    }
}
