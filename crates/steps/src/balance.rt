// Steps 2 to 5 of a group, and question 12: the terms that its bills share, or the question that failed.
ghost use Rattle.std.specs.Prelude.{◌≡◌};
ghost use Rattle.plan.specs.Questions.{first_no, balance_questions};
ghost use Rattle.plan.specs.Call.{answer};
ghost use Rattle.plan.specs.Premium.{terms_of};
ghost use Rattle.group.specs.Refusals.{answer_is};
ghost use Rattle.group.specs.Values.{header_is, losses_is, GroupIs};
ghost use Rattle.steps.specs.Terms.{terms_is};
ghost use Rattle.steps.specs.Marks.{MarksAre};

use crate::basic::{basic_of, excess_of};
use crate::bill::Terms;
use crate::marks::Mark;
use crate::spread::{above_in_all, below_in_all};
use group::{GroupLosses, Header, Refusal};

// LG and LH.
#[derive(Clone, Copy)]
pub(crate) struct MarkDollars {
    pub maximum: u32,
    pub minimum: u32,
}

// Step 2 of a group: LG comes from the maximum mark, LH from the minimum.
fn marks_of(h: Header, losses: &GroupLosses) -> MarkDollars
    requires { GroupIs h losses.now }
    ensures { MarksAre (header_is h) (losses_is losses.now) result }
{
    let risks = losses.risks();
    let highest = Mark::of_kind(h.mark_kind, h.maximum_mark);
    let maximum = highest.dollars(h.standard_premium, risks, losses.limited);
    let lowest = Mark::of_kind(h.mark_kind, h.minimum_mark);
    let minimum = lowest.dollars(h.standard_premium, risks, losses.limited);
    MarkDollars { maximum, minimum }
}

// Steps 2 to 5, and question 12.
pub fn balance(h: Header, losses: &GroupLosses) -> Result<Terms, Refusal>
    requires { GroupIs h losses.now }
    ensures { answer_is terms_is result
        ≡ answer (first_no (balance_questions (header_is h) (losses_is losses.now))) (terms_of (header_is h) (losses_is losses.now)) }
{
    let marks = marks_of(h, losses);
    let risks = losses.risks();
    let above = above_in_all(losses.lent(), 1, u64::from(marks.maximum));
    let below = below_in_all(losses.lent(), 1, u64::from(marks.minimum));
    let n = u64::from(risks);
    let c = u64::from(h.conversion);
    let Some(basic) = basic_of(n, u64::from(h.expense), c, losses.total, above, below) else {
        return Err(Refusal::NegativeBasic);
    };
    let excess = excess_of(c, losses.total, losses.limited);
    Ok(Terms {
        risks,
        conversion: h.conversion,
        tax: h.tax,
        basic,
        excess,
        minimum: marks.minimum,
        maximum: marks.maximum,
    })
}
