// A premium discount schedule: four layers, and questions 16 and 17 of them.
ghost use Rattle.std.specs.Prelude.{◌≡◌};
ghost use Rattle.plan.specs.Discount.{rates_pass, widths_pass};
ghost use Rattle.plan.specs.Comparison.{schedule_questions};
ghost use Rattle.plan.specs.Questions.{first_no};
ghost use Rattle.group.specs.Refusals.{verdict_is};
ghost use Rattle.guaranteed.specs.Schedules.{layers_of};

use group::Refusal;

// The layers of a schedule, and the last of them, counted from 0.
pub(crate) const LAYERS: usize = 4;

pub(crate) const LAST: usize = 3;

// The rate of all of a premium.
const MOST_RATE: u32 = 1000;

// A row of a schedule: whole dollars, and tenths of a percent. The width in the last row is not looked at.
#[repr(C)]
#[derive(Clone, Copy)]
pub struct Layer {
    pub width: u32,
    pub rate: u32,
}

// A schedule: its layers, the first first. Four rows by value: the form that the scope document names.
#[repr(C)]
#[derive(Clone, Copy)]
pub struct Schedule {
    pub layers: [Layer; LAYERS],
}

// Question 16: no rate is above 1,000.
fn rates_pass(layers: &[Layer; LAYERS]) -> bool
    ensures { result ≡ rates_pass (layers_of layers.now) }
{
    layers.iter().all(|layer| layer.rate <= MOST_RATE)
}

// Question 17: none of the first three widths is 0.
fn widths_pass(layers: &[Layer; LAYERS]) -> bool
    ensures { result ≡ widths_pass (layers_of layers.now) }
{
    layers[..LAST].iter().all(|layer| layer.width >= 1)
}

// Questions 16 and 17.
pub fn schedule_verdict(schedule: Schedule) -> Result<(), Refusal>
    ensures { verdict_is result ≡ first_no (schedule_questions (layers_of schedule.layers)) }
{
    if !rates_pass(&schedule.layers) {
        return Err(Refusal::DiscountRate);
    }
    if !widths_pass(&schedule.layers) {
        return Err(Refusal::LayerWidth);
    }
    Ok(())
}
