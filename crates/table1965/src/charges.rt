// Charges of the 1965 table: the charge of a column at an entry ratio by formula (3) of document 003, nested, in doubles in the order
// that document 02 writes, and its thousandths.
ghost use Rattle.std.specs.Prelude.{◌≡◌, [], ◌≤◌, IfOk};
ghost use Rattle.plan.specs.Charge as charge;
ghost use Rattle.plan.specs.Charge.{charge_double, last_ratio, OnTable};
ghost use Rattle.group.specs.Says.{Says};
ghost use Rattle.table1965.specs.Charges.{ChargeIs, charged_is};

use crate::matrix::Column;
use group::Refusal;
use std::num::truncating_f64_to_u64;

// The largest entry ratio that is taken, in hundredths.
const LAST_RATIO: u32 = 500;

// The charge, and its whole thousandths.
#[derive(Clone, Copy)]
pub struct Charge1965 {
    pub unrounded: f64,
    pub thousandths: u32,
}

// The charge of a column at r hundredths.
fn unrounded(column: Column, hundredths: u32) -> f64
    ensures { result ≡ charge_double column.hundredths hundredths }
{
    let [b2, b3, b4, b5, b6, b7, b8] = column.row();
    let r = f64::from(hundredths) / 100.0;
    1.0 / (1.0 + r + r * r * (b2 + r * (b3 + r * (b4 + r * (b5 + r * (b6 + r * (b7 + r * b8)))))))
}

// The greatest whole number from 1 to 1,000 whose double is at most y, or 0 if none is: document 02 defines it as a number, 0 included.
fn greatest(y: f64) -> u32
    ensures { result ≡ charge.greatest 1000 y }
{
    if 1000.0 <= y {
        return 1000;
    }
    if 1.0 <= y {
        return truncating_f64_to_u64(y) as u32;
    }
    0
}

// The charge of a column that is carried at an entry ratio that is taken.
fn charge_at(column: Column, hundredths: u32) -> Charge1965
    requires { hundredths ≤ last_ratio }
    ensures { ChargeIs column.hundredths hundredths result }
{
    let charge = unrounded(column, hundredths);
    let n = greatest((charge + 0.0005) * 1000.0);
    Charge1965 {
        unrounded: charge,
        thousandths: n.max(1000u32.saturating_sub(10 * hundredths)),
    }
}

// The charge of a column at an entry ratio, both in hundredths, any numbers.
pub fn charge_of(column: u32, entry_ratio: u32) -> Result<Charge1965, Refusal>
    ensures says { Says (charge.charge1965 column entry_ratio) (λ c. c) charged_is result [] }
    ensures table { IfOk result (λ t. OnTable column entry_ratio t.unrounded t.thousandths) }
{
    let Some(column) = Column::new(column) else {
        return Err(Refusal::Column);
    };
    if entry_ratio > LAST_RATIO {
        return Err(Refusal::TableRatio);
    }
    Ok(charge_at(column, entry_ratio))
}
