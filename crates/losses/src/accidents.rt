// The sums of edition 2, where a claim whose bit is 1 adds to the accident before it: what a claim more does to them, what a pair of
// claims does, and what they come to when the last accident has ended.
ghost use Rattle.std.specs.Prelude.{◌≤◌};
ghost use Rattle.plan.specs.Sizes.{most_risk_losses};

use bits::{BitPlace, Front};
use claims::claim::{FileClaim, claim_on};
use claims::run::{ClaimRun, limited_to};
use claims::sums::Sums;
use group::Losses;
use group::widths::JOINED_WIDTH;

// The bits of both claims of a pair on a front: 2^63 + 2^42. One test of both takes fewer steps than one of each claim that is taken: by these
// Rate takes 303,360 instructions on the largest file of edition 2 without claims that join, in place of 278,626.
const PAIR_BITS: u64 = 9223376434901286912;

// The largest sum of a risk's claims, and so of an accident.
const MOST_RISK_LOSSES: u32 = 66060225;

// The sums of some claims of a risk, of which the last accident may go on: L of them, L of those before the last accident, and what
// the limit leaves of the accidents before it. `most` is what the limit leaves of the largest accident. What a claim or a pair more has
// room for is asked of each function, since it is used up by what is added. A literal names each field: one with a ghost field takes no `..`.
#[derive(Clone, Copy)]
pub struct AccidentSums {
    pub total: u32,
    pub start: u32,
    pub limited: u32,
    pub most: u32,
    pub ghost begun: { start ≤ total },
    pub ghost bound: { most ≤ most_risk_losses },
}

impl AccidentSums {
    ghost use Rattle.claims.specs.Claim.{claim_of, first_on, second_on};
    ghost use Rattle.losses.specs.Accidents.{PairReach, PairOpens, AccidentRoom, StartsWith, AccidentAdded, PairRoom, PairAdded, RunEnded};

    // The sum at which the last accident begins, with one claim more, by its bit, as the file has it: one that opens an accident begins
    // it behind all others.
    fn start_with(self, joins: u32) -> u32
        ensures { StartsWith self joins result }
    {
        if joins == 0 { self.total } else { self.start }
    }

    // With one claim more. Where the claim opens an accident, all that came since the last one began is that accident's sum; where it
    // does not, nothing has ended.
    pub fn join_claim(self, claim: FileClaim) -> AccidentSums
        requires { AccidentRoom self }
        ensures { AccidentAdded self (claim_of claim) result }
    {
        let start = self.start_with(claim.joins());
        let ended = start - self.start;
        let limited = self.limited + ended.min(self.most);
        let total = self.total + claim.dollars();
        AccidentSums {
            total,
            start,
            limited,
            most: self.most,
        }
    }

    // The same of both claims of a pair, where each opens an accident: the one before them ends, and the first of them.
    fn open_pair(self, pair: Front) -> AccidentSums
        requires { PairRoom self × PairReach pair × PairOpens pair }
        ensures { PairAdded self (claim_of (first_on 1 pair)) (claim_of (second_on 1 pair)) result }
    {
        let one = claim_on(pair, JOINED_WIDTH);
        let first = one.value.dollars();
        let ended = self.total - self.start;
        let before = self.limited + ended.min(self.most);
        let limited = before + first.min(self.most);
        let start = self.total + first;
        let two = claim_on(one.next, JOINED_WIDTH);
        let second = two.value.dollars();
        let total = start + second;
        AccidentSums {
            total,
            start,
            limited,
            most: self.most,
        }
    }

    // The same of any pair. One whose claims are accidents of their own is added with fewer steps.
    pub fn join_pair(self, pair: Front) -> AccidentSums
        requires { PairRoom self × PairReach pair }
        ensures { PairAdded self (claim_of (first_on 1 pair)) (claim_of (second_on 1 pair)) result }
    {
        if pair.bits & PAIR_BITS == 0 {
            return self.open_pair(pair);
        }
        let first = claim_on(pair, JOINED_WIDTH);
        let one = self.join_claim(first.value);
        let second = claim_on(first.next, JOINED_WIDTH);
        one.join_claim(second.value)
    }

    // All claims of a risk by their sums: the last accident has ended too.
    pub fn run_ended(self, next: BitPlace) -> ClaimRun
        requires { AccidentRoom self }
        ensures { RunEnded self next.at result }
    {
        let total = self.total;
        let ended = total - self.start;
        let limited = self.limited + ended.min(self.most);
        ClaimRun {
            losses: Losses { total, limited },
            next,
        }
    }
}

// What the methods above say of the sums, in the trait's terms: of the claims that they are of.
impl Sums for AccidentSums {
    ghost use Rattle.losses.specs.Accidents.{AccidentsSummed};

    const BITS: u32 = 1;

    ghost BITS = { 1 };

    ghost Are = { AccidentsSummed };

    fn none(limit: u32) -> AccidentSums {
        let most = limited_to(limit, MOST_RISK_LOSSES);
        AccidentSums {
            total: 0,
            start: 0,
            limited: 0,
            most,
        }
    }

    fn add_claim(self, claim: FileClaim) -> AccidentSums {
        self.join_claim(claim)
    }

    fn add_pair(self, pair: Front) -> AccidentSums {
        self.join_pair(pair)
    }

    fn ended(self, next: BitPlace) -> ClaimRun {
        self.run_ended(next)
    }
}
