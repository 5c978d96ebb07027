// The discount of a standard premium, layer by layer.
ghost use Rattle.std.specs.Prelude.{◌≡◌};
ghost use Rattle.plan.specs.Discount.{discount};
ghost use Rattle.guaranteed.specs.Schedules.{layers_of, Discountable};

use crate::schedule::{LAST, Schedule};

// The discount of a standard premium: what remains of it is cut layer by layer, the last layer takes the rest, and the sum of the
// parts times their rates is rounded once.
pub fn discount_of(schedule: Schedule, premium: u32) -> u32
    requires { Discountable (layers_of schedule.layers) premium }
    ensures { result ≡ discount (layers_of schedule.layers) premium }
{
    let mut remains = premium;
    let mut sum: u32 = 0;
    for layer in &schedule.layers[..LAST] {
        let part = remains.min(layer.width);
        sum += part * layer.rate;
        remains -= part;
    }
    sum += remains * schedule.layers[LAST].rate;
    (sum + 500) / 1000
}
