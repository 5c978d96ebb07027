// The premiums of a plan that is sold on premiums, by a basic premium of whole dollars: one premium, held between the minimum and the
// maximum, their total, and whether it reaches what they are to pay. A premium fits 64 bits, and totals leave them, so they have 128.
ghost use Rattle.std.specs.Prelude.{◌*◌, ◌≤◌};
ghost use Rattle.std.specs.List.{All};
ghost use Rattle.plan.specs.Sizes.{most_conversion, most_tax, most_risks, most_risk_losses, most_group_losses};
ghost use Rattle.plan.specs.SoldOnPremiums.{most_basic};

use group::Losses;
use steps::bill::PREMIUM_SCALE;

// A basic premium of whole dollars, within the range in which one is looked for.
#[derive(Clone, Copy)]
pub struct BasicPremium {
    pub dollars: u32,
    pub ghost most: { dollars ≤ most_basic },
}

impl BasicPremium {
    // The largest.
    pub const MOST: BasicPremium = BasicPremium { dollars: 1048575 };
}

// What the premiums of a plan share: n, c, T, Q, and the maximum and the minimum premium, G and H, in dollars. A premium by them fits
// 64 bits, whatever G and H are. Of `Terms` it has n, c, T and Q, but no basic premium, and premiums in the place of LG and LH.
#[derive(Clone, Copy)]
pub struct PlanTerms {
    pub risks: u32,
    pub conversion: u32,
    pub tax: u32,
    pub excess: u64,
    pub maximum: u32,
    pub minimum: u32,
    pub ghost few: { risks ≤ most_risks },
    pub ghost conversion_most: { conversion ≤ most_conversion },
    pub ghost tax_most: { tax ≤ most_tax },
    pub ghost excess_most: { excess ≤ most_conversion * most_group_losses },
}

// What a basic premium is looked for by: the terms, the losses of each risk, and what the premiums are to pay.
#[derive(Clone, Copy)]
pub struct Target<'a> {
    pub terms: PlanTerms,
    pub losses: &'a [Losses],
    pub owed: u128,
    pub ghost limited_most: { All (λ x. x.limited ≤ most_risk_losses) losses.now },
}

impl PlanTerms {
    ghost use Rattle.std.specs.Prelude.{◌≡◌, ◌≤◌};
    ghost use Rattle.plan.specs.Sizes.{most_risk_losses};
    ghost use Rattle.plan.specs.SoldOnPremiums.{held_premium};
    ghost use Rattle.sold.specs.Premiums.{plan_terms_is};

    // The premium, times 10,000,000 × n, of a risk by its limited losses and a basic premium, held between minimum and maximum.
    fn held_premium(&self, basic: BasicPremium, limited: u32) -> u64
        requires { limited ≤ most_risk_losses }
        ensures { result ≡ held_premium (plan_terms_is self.now) basic.dollars limited }
    {
        let n = u64::from(self.risks);
        let dollar = PREMIUM_SCALE * n;
        let shared = 1000 * n * u64::from(basic.dollars) + self.excess;
        let losses = n * u64::from(self.conversion) * u64::from(limited);
        let premium = u64::from(self.tax) * (shared + losses);
        let minimum = dollar * u64::from(self.minimum);
        let maximum = dollar * u64::from(self.maximum);
        // H may be above G here, so it is no `clamp`.
        premium.max(minimum).min(maximum)
    }
}

impl Target<'_> {
    ghost use Rattle.std.specs.Prelude.{◌≡◌};
    ghost use Rattle.group.specs.Values.{losses_of};
    ghost use Rattle.sold.specs.Premiums.{premiums_by, reaches_by};

    // The total of the premiums of the risks.
    fn premiums(&self, basic: BasicPremium) -> u128
        ensures { result ≡ premiums_by self.now.terms (losses_of self.now.losses.now) basic.dollars }
    {
        self.losses
            .iter()
            .map(|risk| u128::from(self.terms.held_premium(basic, risk.limited)))
            .sum()
    }

    // Whether the premiums of a basic premium total at least what they are to pay.
    pub fn reaches(&self, basic: BasicPremium) -> bool
        ensures { result ≡ reaches_by self.now.terms (losses_of self.now.losses.now) self.now.owed basic.dollars }
    {
        self.premiums(basic) >= self.owed
    }
}
