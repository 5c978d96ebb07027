// Step 6: the bill of one risk, by the terms that the bills of its group share.
ghost use Rattle.std.specs.Prelude.{◌+◌, ◌*◌, ◌≤◌};
ghost use Rattle.plan.specs.Sizes.{most_conversion, most_tax, most_risks, most_dollars, most_shared};

use crate::ratable::ratable_of;

// A premium is compared over whole numbers, times this and times n.
pub const PREMIUM_SCALE: u64 = 10000000;

// What the bills of a group share: n, c, T, M, Q, LH and LG, by which every bill fits 32 bits.
#[derive(Clone, Copy)]
pub struct Terms {
    pub risks: u32,
    pub conversion: u32,
    pub tax: u32,
    pub basic: u64,
    pub excess: u64,
    pub minimum: u32,
    pub maximum: u32,
    pub ghost some: { 1 ≤ risks },
    pub ghost few: { risks ≤ most_risks },
    pub ghost conversion_most: { conversion ≤ most_conversion },
    pub ghost tax_most: { tax ≤ most_tax },
    pub ghost shared: { basic + excess ≤ most_shared * risks },
    pub ghost maximum_most: { maximum ≤ most_dollars },
}

impl Terms {
    ghost use Rattle.std.specs.Prelude.{◌≡◌};
    ghost use Rattle.plan.specs.Premium.{bill_with};
    ghost use Rattle.steps.specs.Terms.{terms_is};

    // The bill of a risk by its limited losses: T × (M + Q + n × c × K) ÷ (10,000,000 × n) to the nearest dollar.
    pub fn bill_of(&self, limited: u32) -> u32
        ensures { result ≡ bill_with (terms_is self.now) limited }
    {
        let k = u64::from(ratable_of(limited, self.minimum, self.maximum));
        let n = u64::from(self.risks);
        let shared = self.basic + self.excess;
        let numerator = u64::from(self.tax) * (shared + n * u64::from(self.conversion) * k);
        ((numerator + PREMIUM_SCALE / 2 * n) / (PREMIUM_SCALE * n)) as u32
    }
}
