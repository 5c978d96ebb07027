// The two measures of a mark, both in thousandths, each with its own conversion to whole dollars, rounded down. A mark is one
// of them from the moment it leaves the header until it is dollars, so that neither can be taken for the other. Each is a number of its
// own type by value: the form that the scope document names.
ghost use Rattle.std.specs.Prelude.{◌≡◌, ◌*◌, ◌^◌, ◌≤◌, ◌<◌};
ghost use Rattle.plan.specs.Sizes.{most_risks, most_risk_losses, most_mark};
ghost use Rattle.plan.specs.Header.{standard_premium_field};
ghost use Rattle.plan.specs.Marks.{loss_ratio_dollars, entry_ratio_dollars, mark_of, dollars};
ghost use Rattle.steps.specs.Measures.{loss_ratio, entry_ratio, mark_is};
ghost use Rattle.steps.specs.Bounds.{MarkBounds};

// Limited losses as a ratio of the standard premium: the loss ratio r of documents 001 and 002.
#[derive(Drop)]
pub struct LossRatio(pub u32);

// Limited losses as a ratio of the group's mean limited losses: the entry ratio of document 001, r' of document 002.
#[derive(Drop)]
pub struct EntryRatio(pub u32);

// A mark as the mark kind has it.
#[derive(Drop)]
pub enum Mark {
    OfPremium(LossRatio),
    OfLosses(EntryRatio),
}

impl LossRatio {
    // m × P ÷ 1,000.
    pub fn dollars(self, standard_premium: u32) -> u32
        requires { (self.0 ≤ most_mark) × (standard_premium < 2 ^ standard_premium_field.width) }
        ensures { result ≡ loss_ratio_dollars (loss_ratio self) standard_premium }
    {
        (u64::from(self.0) * u64::from(standard_premium) / 1000) as u32
    }
}

impl EntryRatio {
    // m × SA ÷ (1,000 × n), with n at most 255 (`group` says why that is no type).
    pub fn dollars(self, limited: u64, risks: u32) -> u32
        requires { (self.0 ≤ most_mark) × (0 < risks) × (risks ≤ most_risks) × (limited ≤ most_risk_losses * risks) }
        ensures { result ≡ entry_ratio_dollars (entry_ratio self) risks limited }
    {
        (u64::from(self.0) * limited / (1000 * u64::from(risks))) as u32
    }
}

impl Mark {
    // The mark that the mark kind and its thousandths make: kind 0 a loss ratio, else an entry ratio. A `From` of two numbers would not
    // say which of them is the kind.
    pub fn of_kind(kind: u32, thousandths: u32) -> Mark
        ensures { mark_is result ≡ mark_of kind thousandths }
    {
        if kind == 0 {
            Mark::OfPremium(LossRatio(thousandths))
        } else {
            Mark::OfLosses(EntryRatio(thousandths))
        }
    }

    // Step 2: its whole dollars, rounded down, by the measure that it is.
    pub fn dollars(self, standard_premium: u32, risks: u32, limited: u64) -> u32
        requires { MarkBounds self standard_premium risks limited }
        ensures { result ≡ dollars (mark_is self) standard_premium risks limited }
    {
        match self {
            Mark::OfPremium(m) => m.dollars(standard_premium),
            Mark::OfLosses(m) => m.dollars(limited, risks),
        }
    }
}
