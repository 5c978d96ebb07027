// Plans sold on premiums: the least basic premium of whole dollars whose premiums, each held between a minimum and a maximum, total at
// least the taxed expenses and losses of a file's group, found by trials.
ghost use Rattle.std.specs.Prelude.{◌≡◌, [], ◌∷◌};
ghost use Rattle.plan.specs.Questions.{ask, first_no};
ghost use Rattle.plan.specs.Call.{answer};
ghost use Rattle.plan.specs.SoldOnPremiums as sold_on_premiums;
ghost use Rattle.plan.specs.SoldOnPremiums.{most_basic, halvings};
ghost use Rattle.group.specs.Refusals.{answer_is};
ghost use Rattle.group.specs.Says.{Says};
ghost use Rattle.sold.specs.PremiumPlans.{reached_by, plan_is, SoldBy};

use crate::owed::owed_of;
use crate::premiums::{BasicPremium, PlanTerms, Target};
use gates::open_losses;
use group::Refusal;
use groupfile::opening::Opened;
use steps::basic::excess_of;

// The trials made, the best basic premium yet that reaches the total, and the largest known to fall short, if one is.
#[derive(Clone, Copy)]
pub struct PlanFound {
    pub made: u32,
    pub best: u32,
    pub short_of: Option<u32>,
}

// The trials, each at the middle, until best is the least that is not known to fall short or as many as are given are made. `from` is that
// least one, so the largest known to fall short is the number before it.
fn halve(target: &Target, trials: u32) -> PlanFound
    ensures { plan_is result ≡ halvings (reached_by target.now) trials }
{
    let mut made: u32 = 0;
    let mut best = BasicPremium::MOST.dollars;
    let mut from: u32 = 0;
    // Two ends close in, and the count is given back: a `while` is plainest.
    while made < trials && from < best {
        let basic = BasicPremium {
            dollars: (best + from - 1) / 2,
        };
        if target.reaches(basic) {
            best = basic.dollars;
        } else {
            from = basic.dollars + 1;
        }
        made += 1;
    }
    PlanFound {
        made,
        best,
        short_of: from.checked_sub(1),
    }
}

// Question 23, which is no trial, and then the trials.
fn search(target: &Target, trials: u32) -> Result<PlanFound, Refusal>
    ensures { answer_is plan_is result
        ≡ answer (first_no (ask 23 (reached_by target.now most_basic) ∷ [])) (halvings (reached_by target.now) trials) }
{
    if !target.reaches(BasicPremium::MOST) {
        return Err(Refusal::OutOfReach);
    }
    Ok(halve(target, trials))
}

// A plan for a file of whatever bytes, with a maximum and a minimum premium of whatever dollars, by whatever number of trials.
pub fn plan_for(file: &[u8], maximum: u32, minimum: u32, trials: u32) -> Result<PlanFound, Refusal>
    ensures says { Says (sold_on_premiums.plan_for file.now maximum minimum trials) (λ p. p) plan_is result [] }
    ensures sold { SoldBy result file.now maximum minimum trials }
{
    let Opened {
        verdict,
        header,
        losses,
        ..
    } = open_losses(file);
    verdict?;
    if minimum > maximum {
        return Err(Refusal::PremiumOrder);
    }
    let risks = losses.risks();
    let target = Target {
        terms: PlanTerms {
            risks,
            conversion: header.conversion,
            tax: header.tax,
            excess: excess_of(u64::from(header.conversion), losses.total, losses.limited),
            maximum,
            minimum,
        },
        losses: losses.lent().each,
        owed: owed_of(risks, header.tax, header.expense, losses.total),
    };
    search(&target, trials)
}
