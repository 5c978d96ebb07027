// Rate: the balanced basic premium, the excess loss charge and the bill of each risk of a file's group.
ghost use Rattle.std.specs.Prelude.{◌≡◌, ◌*◌, ◌≤◌, length, IfOk};
ghost use Rattle.plan.specs.Field.{slots, bytes_of};
ghost use Rattle.plan.specs.Demand3.{Demand3};
ghost use Rattle.plan.specs.Call.{filled};
ghost use Rattle.group.specs.Values.{losses_of};
ghost use Rattle.rating.specs.Bills.{bills_of};
ghost use Rattle.rating.specs.Rates.{figures_by, RateSays};

use bits::BitPlace;
use gates::open_rating;
use group::{Refusal, RiskLosses};
use groupfile::opening::Opened;
use std::fmt;
use steps::bill::Terms;

// What Rate gives beside the premiums: n, M, Q and the sum billed.
#[derive(Clone, Copy)]
pub struct GroupFigures {
    pub risks: u32,
    pub basic: u64,
    pub excess: u64,
    pub billed: u64,
}

impl fmt::Display for GroupFigures {
    fn fmt<W: fmt::Write>(&self, f: &mut fmt::Formatter<W>) -> fmt::Result {
        write!(
            f,
            "{} {} {} {}",
            self.risks, self.basic, self.excess, self.billed
        )
    }
}

// Bills a group: puts the bill of each risk into a buffer with room, 32 bits each from its start on, and gives the group's figures.
// It asks nothing and stores nothing else, so that a call can ask further questions first.
pub fn bill_group(terms: Terms, losses: RiskLosses<'_>, out: &mut [u8]) -> GroupFigures
    requires { 4 * length losses.each.now ≤ length out.old }
    ensures figures { result ≡ figures_by terms (losses_of losses.entry.each.now) }
    ensures put { out.new
        ≡ filled (bytes_of (slots 32 (bills_of terms (losses_of losses.entry.each.now)))) out.old }
{
    let mut billed: u64 = 0;
    let mut place = BitPlace { at: 0 };
    for risk in losses.each {
        let bill = u64::from(terms.bill_of(risk.limited));
        place = place.put_whole::<4>(out, bill);
        billed += bill;
    }
    GroupFigures {
        risks: terms.risks,
        basic: terms.basic,
        excess: terms.excess,
        billed,
    }
}

// Rates a file of whatever bytes into a buffer of whatever length.
pub fn rate(file: &[u8], premiums: &mut [u8]) -> Result<GroupFigures, Refusal>
    ensures says { RateSays file.now premiums.old result premiums.new }
    ensures demand3 { IfOk result (λ g. Demand3 file.now g.basic g.excess g.billed premiums.new) }
{
    let Opened {
        verdict: terms,
        losses,
        ..
    } = open_rating(file);
    let terms = terms?;
    if premiums.len() < 4 * terms.risks as usize {
        return Err(Refusal::Room);
    }
    Ok(bill_group(terms, losses.lent(), premiums))
}
