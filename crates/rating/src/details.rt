// L, A and K of each risk of a file, for a reader of the bills: what the program `retro` prints beside Rate's results.
ghost use Rattle.std.specs.Prelude.{◌≡◌, map};
ghost use Rattle.plan.specs.Ratable.{clamp};
ghost use Rattle.rating.specs.Details.{DetailsAre};

use arrayvec::ArrayVec;
use gates::open_rating;
use group::{GroupLosses, MOST_RISKS, RiskLosses};
use groupfile::opening::Opened;
use steps::ratable::ratable_of;

// The losses, and K of each risk; where the file is refused there is no K.
#[derive(Drop)]
pub struct Details {
    pub losses: GroupLosses,
    pub ratables: ArrayVec<u32, MOST_RISKS>,
}

// K of each limited losses. A `collect` into an ArrayVec would have an Err that never comes.
fn ratables_of(losses: RiskLosses<'_>, minimum: u32, maximum: u32) -> ArrayVec<u32, MOST_RISKS>
    ensures { result.items ≡ map (λ x. clamp minimum maximum x.limited) losses.entry.each.now }
{
    let mut ratables = ArrayVec::new();
    for risk in losses.each {
        ratables.push(ratable_of(risk.limited, minimum, maximum));
    }
    ratables
}

// The details of a file of whatever bytes.
pub fn details_of(file: &[u8]) -> Details
    ensures { DetailsAre file.now result }
{
    let Opened {
        verdict: terms,
        losses,
        ..
    } = open_rating(file);
    let ratables = match terms {
        Ok(terms) => ratables_of(losses.lent(), terms.minimum, terms.maximum),
        Err(_) => ArrayVec::new(),
    };
    Details { losses, ratables }
}
