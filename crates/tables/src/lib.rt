// Table: charge and savings of a file's group at an entry ratio.
#![tactic(auto)]

ghost use Rattle.std.specs.Prelude.{◌≡◌, [], ◌*◌};
ghost use Rattle.plan.specs.Arithmetic.{nearest};
ghost use Rattle.plan.specs.Calls as calls;
ghost use Rattle.group.specs.Says.{Says};
ghost use Rattle.tables.specs.Tables.{ThousandthsBounds, ratios_are, OnCurve};

use gates::open_losses;
use group::Refusal;
use groupfile::opening::Opened;
use steps::spread::{above_in_all, below_in_all};

// The largest entry ratio, in hundredths.
pub const MOST_RATIO: u32 = 600;

// Charge and savings, in thousandths.
#[derive(Clone, Copy)]
pub struct Ratios {
    pub charge: u32,
    pub savings: u32,
}

// Thousandths of x ÷ divisor to the nearest, an exact half upward, by adding half of the divisor.
fn thousandths_of(x: u64, half: u64, divisor: u64) -> u32
    requires { ThousandthsBounds x half divisor }
    ensures { result ≡ nearest (1000 * x) divisor }
{
    ((1000 * x + half) / divisor) as u32
}

// Table of a file of whatever bytes at an entry ratio of whatever hundredths.
pub fn table(file: &[u8], r: u32) -> Result<Ratios, Refusal>
    ensures says { Says (calls.table file.now r) (λ t. t) ratios_are result [] }
    ensures curve { OnCurve result r }
{
    let Opened {
        verdict,
        losses,
        ..
    } = open_losses(file);
    verdict?;
    if r > MOST_RATIO {
        return Err(Refusal::EntryRatio);
    }
    let n = u64::from(losses.risks());
    let mark = u64::from(r) * losses.limited;
    let above = above_in_all(losses.lent(), 100 * n, mark);
    let below = below_in_all(losses.lent(), 100 * n, mark);
    let half = 50 * n * losses.limited;
    Ok(Ratios {
        charge: thousandths_of(above, half, 2 * half),
        savings: thousandths_of(below, half, 2 * half),
    })
}
