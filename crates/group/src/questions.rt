// Questions 3 to 7 of header values, with 18 after 6.
ghost use Rattle.std.specs.Prelude.{◌≡◌};
ghost use Rattle.plan.specs.Questions.{first_no, header_questions};
ghost use Rattle.group.specs.Refusals.{verdict_is};
ghost use Rattle.group.specs.Values.{header_is};

use crate::{Header, LEAST_CONVERSION, LEAST_TAX, MOST_CONVERSION, MOST_MARK, MOST_TAX, Refusal};

// Questions 3 to 6, 18 and 7 of header values and the number of risks.
pub fn header_verdict(h: Header, risks: usize) -> Result<(), Refusal>
    ensures { verdict_is result ≡ first_no (header_questions (header_is h) risks) }
{
    if h.standard_premium < 1 {
        return Err(Refusal::StandardPremium);
    }
    if !(LEAST_CONVERSION..=MOST_CONVERSION).contains(&h.conversion) {
        return Err(Refusal::Conversion);
    }
    if !(LEAST_TAX..=MOST_TAX).contains(&h.tax) {
        return Err(Refusal::Tax);
    }
    let maximum = h.maximum_mark;
    let minimum = h.minimum_mark;
    if maximum > MOST_MARK {
        return Err(Refusal::Mark);
    }
    if minimum > MOST_MARK {
        return Err(Refusal::Mark);
    }
    if minimum > maximum {
        return Err(Refusal::MarkOrder);
    }
    if risks < 1 {
        return Err(Refusal::NoRisks);
    }
    Ok(())
}
