// A risk as the file has it, its claims by the sums of their edition, and a risk passed: the running sums with it.
ghost use Rattle.std.specs.Prelude.{◌+◌, ◌≤◌};
ghost use Rattle.plan.specs.Risk.{count_width};
ghost use Rattle.plan.specs.Sizes.{most_file_bits};
ghost use Rattle.claims.specs.Run.{ClaimsAre};
ghost use Rattle.losses.specs.Risk.{RiskIs};
ghost use Rattle.losses.specs.RunningSums.{NextRisk, RiskPassed};

use crate::accidents::AccidentSums;
use crate::singles::ClaimSums;
use bits::BitPlace;
use claims::counts::head_at;
use claims::run::ClaimRun;
use claims::span::ClaimSpan;
use claims::sums::run_of;
use group::Losses;
use group::edition::{ClaimFile, Edition};

// A risk as the file has it: the number of its claims, whether its first claim opens an accident, L and A, and the place after it.
#[derive(Clone, Copy)]
pub struct Risk {
    pub count: u32,
    pub first_opens: bool,
    pub losses: Losses,
    pub next: BitPlace,
}

// The running sums over the risks passed so far: how many they are, how many claims they have, whether the first claim of each opens
// an accident, SL and SA so far, and the place of the next risk.
#[derive(Clone, Copy)]
pub struct SumsSoFar {
    pub risks: u32,
    pub claims: u32,
    pub each_opens: bool,
    pub total: u64,
    pub limited: u64,
    pub next: BitPlace,
}

// A risk passed: its L and A, and the running sums with it.
#[derive(Clone, Copy)]
pub struct PassedRisk {
    pub losses: Losses,
    pub sums: SumsSoFar,
}

// Claims by the sums of their edition. The loss limit is no part of the file here: Read takes a file without one.
pub fn claims_at(file: &ClaimFile<'_>, span: ClaimSpan, limit: u32) -> ClaimRun
    ensures { ClaimsAre file.now.bytes.now span.first.at span.count limit result }
{
    match file.edition {
        Edition::First => run_of::<ClaimSums>(file.bytes, span, limit),
        Edition::Second => run_of::<AccidentSums>(file.bytes, span, limit),
    }
}

// The risk that begins at a place.
pub fn risk_at(file: &ClaimFile<'_>, place: BitPlace, limit: u32) -> Risk
    requires { place.at + count_width ≤ most_file_bits }
    ensures { RiskIs file.now.bytes.now place.at limit result }
{
    let head = head_at(file, place);
    let run = claims_at(file, head.claims, limit);
    Risk {
        count: head.claims.count,
        first_opens: head.first_opens,
        losses: run.losses,
        next: run.next,
    }
}

// One risk more, the one that begins where the risks passed so far end: of the sums over the first k risks and the place of risk
// k + 1 it makes the sums over the first k + 1 and the next place. No risk before it is gone over again.
pub fn pass_risk(file: &ClaimFile<'_>, sums: SumsSoFar, limit: u32) -> PassedRisk
    requires { NextRisk file.now.bytes.now limit sums }
    ensures { RiskPassed file.now.bytes.now limit sums.risks result }
{
    let place = sums.next;
    let risk = risk_at(file, place, limit);
    let count = risk.count;
    let risks = sums.risks + 1;
    let claims = sums.claims + count;
    let each_opens = sums.each_opens & risk.first_opens;
    let total = sums.total + u64::from(risk.losses.total);
    let limited = sums.limited + u64::from(risk.losses.limited);
    let next = risk.next;
    PassedRisk {
        losses: risk.losses,
        sums: SumsSoFar {
            risks,
            claims,
            each_opens,
            total,
            limited,
            next,
        },
    }
}
