// What limited losses have above a mark and lack below one, in all: SX and SS of step 3, and the numerators
// of Table's charge and savings. The two differ in what is taken from what, and each is one chain.
ghost use Rattle.std.specs.Prelude.{◌≡◌, ◌*◌, ◌^◌, ◌≤◌, ◌<◌};
ghost use Rattle.plan.specs.Sizes.{most_risks};
ghost use Rattle.plan.specs.Arithmetic.{sum_of, above, below};
ghost use Rattle.group.specs.Values.{losses_of};

use group::RiskLosses;

// What limited losses, each times `scale`, have above `mark`, in all.
pub fn above_in_all(losses: RiskLosses<'_>, scale: u64, mark: u64) -> u64
    requires { scale ≤ 100 * most_risks }
    ensures { result ≡ sum_of (λ r. above (scale * r.limited) mark) (losses_of losses.entry.each.now) }
{
    losses
        .each
        .iter()
        .map(|risk| (scale * u64::from(risk.limited)).saturating_sub(mark))
        .sum()
}

// What they lack below `mark`, in all.
pub fn below_in_all(losses: RiskLosses<'_>, scale: u64, mark: u64) -> u64
    requires { (scale ≤ 100 * most_risks) × (mark < 2 ^ 44) }
    ensures { result ≡ sum_of (λ r. below (scale * r.limited) mark) (losses_of losses.entry.each.now) }
{
    losses
        .each
        .iter()
        .map(|risk| mark.saturating_sub(scale * u64::from(risk.limited)))
        .sum()
}
