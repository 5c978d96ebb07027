// Guaranteed cost beside the retro premium: what Rate gives on a file, the discount of its standard premium by a schedule,
// guaranteed cost, and what each risk is billed above or below it.
#![tactic(auto)]

ghost use Rattle.std.specs.Prelude.{◌≡◌, ◌&&◌, [], ◌∷◌, ◌*◌, leb, pos, ◌+ℤ◌, ◌-ℤ◌, ◌≤◌, length, IfOk};
ghost use Rattle.std.specs.Int.{w64};
ghost use Rattle.std.proofs.Common.{SFits};
ghost use Rattle.plan.specs.Arithmetic.{sum_z};
ghost use Rattle.plan.specs.Call.{filled};
ghost use Rattle.plan.specs.Questions.{first_no, question13};
ghost use Rattle.plan.specs.Comparison.{differences_of, Beside};
ghost use Rattle.group.specs.Refusals.{verdict_is};
ghost use Rattle.group.specs.Values.{losses_of};
ghost use Rattle.rating.specs.Bills.{bills_of};
ghost use Rattle.guaranteed.specs.Schedules.{layers_of};
ghost use Rattle.guaranteed.specs.Comparisons.{CompareSays, numbers_given};

pub mod discounts;
pub mod schedule;

use crate::discounts::discount_of;
use crate::schedule::{Schedule, schedule_verdict};
use gates::open_rating;
use group::{Refusal, RiskLosses};
use groupfile::opening::Opened;
use rating::rates::{GroupFigures, bill_group};
use steps::bill::Terms;

// What the call gives beside the premiums and the differences: what Rate gives, the discount, guaranteed cost, and the sum of
// the differences.
#[derive(Clone, Copy)]
pub struct Comparison {
    pub rated: GroupFigures,
    pub discount: u32,
    pub guaranteed: u32,
    pub difference: i64,
}

// A bill less guaranteed cost.
fn difference_of(bill: u32, cost: u32) -> i64
    ensures { result ≡ pos bill -ℤ pos cost }
{
    i64::from(bill) - i64::from(cost)
}

// A sum of differences and one more.
fn sum_of(so_far: i64, difference: i64) -> i64
    requires { SFits w64 (so_far +ℤ difference) }
    ensures { result ≡ so_far +ℤ difference }
{
    so_far + difference
}

// Puts what each risk is billed above or below guaranteed cost into a buffer with room; their sum. It asks nothing and stores
// nothing else. Of what a `zip` with the buffer writes no proof knows anything, so a difference is stored by its risk's number.
fn put_differences(terms: Terms, losses: RiskLosses<'_>, cost: u32, out: &mut [i64]) -> i64
    requires { length losses.each.now ≤ length out.old }
    ensures summed { result
        ≡ sum_z (λ z. z) (differences_of cost (bills_of terms (losses_of losses.entry.each.now))) }
    ensures put { out.new
        ≡ filled (differences_of cost (bills_of terms (losses_of losses.entry.each.now))) out.old }
{
    let mut so_far: i64 = 0;
    for (i, risk) in losses.each.iter().enumerate() {
        let bill = terms.bill_of(risk.limited);
        let difference = difference_of(bill, cost);
        out[i] = difference;
        so_far = sum_of(so_far, difference);
    }
    so_far
}

// Question 13 of both buffers: 4 × n bytes of premiums and n differences are enough.
fn room_verdict(risks: u32, premiums: usize, differences: usize) -> Result<(), Refusal>
    ensures { verdict_is result ≡ first_no (question13 (leb (4 * risks) premiums && leb risks differences) ∷ []) }
{
    if premiums < 4 * risks as usize {
        return Err(Refusal::Room);
    }
    if differences < risks as usize {
        return Err(Refusal::Room);
    }
    Ok(())
}

// Rates a file of whatever bytes, and sets each bill beside guaranteed cost by a schedule of whatever numbers, into buffers of
// whatever lengths.
pub fn compare(
    file: &[u8],
    schedule: Schedule,
    premiums: &mut [u8],
    differences: &mut [i64],
) -> Result<Comparison, Refusal>
    ensures says { CompareSays file.now (layers_of schedule.layers) premiums.old differences.old result
        premiums.new differences.new }
    ensures beside { IfOk result (λ g. Beside file.now (numbers_given g) premiums.new differences.new) }
{
    let Opened {
        verdict: terms,
        header,
        losses,
        ..
    } = open_rating(file);
    let terms = terms?;
    room_verdict(terms.risks, premiums.len(), differences.len())?;
    schedule_verdict(schedule)?;
    let premium = header.standard_premium;
    let discount = discount_of(schedule, premium);
    let guaranteed = premium - discount;
    let lent = losses.lent();
    let rated = bill_group(terms, lent, premiums);
    let difference = put_differences(terms, lent, guaranteed, differences);
    Ok(Comparison {
        rated,
        discount,
        guaranteed,
        difference,
    })
}
