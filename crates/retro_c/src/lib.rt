// The calls for C and for test programs: Rate, Table, Read, Write, guaranteed cost beside Rate, a charge of the 1965 table and a plan
// sold on premiums, on numbers and slices, one match each. What a call gives is said in include/retro.h; each contract here is an equation
// with documents 01 and 02, refusals included.
#![tactic(auto)]

ghost use Rattle.std.specs.Prelude.{[], pos, length};
ghost use Rattle.plan.specs.Call.{IfGiven, IfRefused};
ghost use Rattle.plan.specs.Calls.{rate, rate_buffers, read_buffers, write_buffers};
ghost use Rattle.plan.specs.CallTable as call_table;
ghost use Rattle.plan.specs.Demand3.{Demand3};
ghost use Rattle.plan.specs.Comparison as comparison;
ghost use Rattle.plan.specs.Comparison.{Beside};
ghost use Rattle.plan.specs.Charge.{charge1965, OnTable};
ghost use Rattle.plan.specs.SoldOnPremiums.{plan_for, Sold, Unsold};
ghost use Rattle.rating.specs.Rates.{figures_of};
ghost use Rattle.reading.specs.Reading.{buffers, values_given};
ghost use Rattle.writing.specs.Writer.{given_group};
ghost use Rattle.guaranteed.specs.Schedules.{layers_of};
ghost use Rattle.retro_c.specs.Exported.{Exported, values, no_values, lent};

use group::Header;
use guaranteed::compare;
use guaranteed::schedule::Schedule;

// Read's answer: 0 or the refusal, n, the header values and the edition, which is the number that C gets; where it is a refusal all else
// is 0. The C struct has the header's fields in their place, which is the same layout.
#[repr(C)]
#[derive(Clone, Copy, Default)]
pub struct RetroGroup {
    pub refused: u32,
    pub risks: u32,
    pub header: Header,
    pub edition: u32,
}

// Rate: 0 and n, M, Q, the sum billed and each premium; or the number of the first question that failed.
#[unsafe(no_mangle)]
pub extern "C" fn retro_rate(
    file: &[u8],
    premiums: &mut [u8],
    risks: &mut u32,
    basic: &mut u64,
    excess: &mut u64,
    billed: &mut u64,
) -> u32
    ensures says { Exported (call_table.Rate file.now (length premiums.old)) figures_of result
        (record { risks = risks.old; basic = pos basic.old; excess = excess.old; billed = billed.old })
        (record { risks = risks.new; basic = pos basic.new; excess = excess.new; billed = billed.new })
        (rate_buffers premiums.old premiums.new) }
    ensures demand3 { IfGiven (rate file.now (length premiums.old))
        (Demand3 file.now basic.new excess.new billed.new premiums.new) }
{
    match rating::rates::rate(file, premiums) {
        Err(refusal) => refusal.into(),
        Ok(g) => {
            *risks = g.risks;
            *basic = g.basic;
            *excess = g.excess;
            *billed = g.billed;
            0
        }
    }
}

// Table: 0 and charge and savings in thousandths; or the number of the first question that failed.
#[unsafe(no_mangle)]
pub extern "C" fn retro_table(
    file: &[u8],
    entry_ratio: u32,
    charge: &mut u32,
    savings: &mut u32,
) -> u32
    ensures { Exported (call_table.Table file.now entry_ratio) (λ t. t) result
        (record { charge = charge.old; savings = savings.old })
        (record { charge = charge.new; savings = savings.new })
        [] }
{
    match tables::table(file, entry_ratio) {
        Err(refusal) => refusal.into(),
        Ok(t) => {
            *charge = t.charge;
            *savings = t.savings;
            0
        }
    }
}

// Read: the header and the edition, the counts, the claims and their bits; or the number of the first question that failed.
#[unsafe(no_mangle)]
pub extern "C" fn retro_read(
    file: &[u8],
    counts: &mut [u8],
    claims: &mut [u32],
    joined: &mut [u8],
) -> RetroGroup
    ensures { Exported (call_table.Read file.now (length counts.old) (length claims.old) (length joined.old))
        values_given result.refused no_values (values result)
        (read_buffers (buffers counts.old claims.old joined.old) (buffers counts.new claims.new joined.new)) }
{
    match reading::read(file, counts, claims, joined) {
        Err(refusal) => RetroGroup {
            refused: refusal.into(),
            ..RetroGroup::default()
        },
        Ok(g) => RetroGroup {
            refused: 0,
            risks: g.risks,
            header: g.header,
            edition: g.edition,
        },
    }
}

// Write: 0, the file's length and its bytes; or the number of the first question that failed. The edition is the number that C gives.
#[unsafe(no_mangle)]
pub extern "C" fn retro_write(
    edition: u32,
    header: Header,
    counts: &[u8],
    claims: &[u32],
    joined: &[u8],
    file: &mut [u8],
    size: &mut usize,
) -> u32
    ensures { Exported (call_table.Write (given_group edition header counts.now claims.now joined.now) (length file.old))
        length result size.old size.new
        (write_buffers file.old file.new) }
{
    match writing::writer::write(edition, header, counts, claims, joined, file) {
        Err(refusal) => refusal.into(),
        Ok(n) => {
            *size = n;
            0
        }
    }
}

// Guaranteed cost beside the retro premium: 0 and what Rate gives, the discount, guaranteed cost, what each risk is billed above or
// below it and their sum; or the number of the first question that failed.
#[unsafe(no_mangle)]
pub extern "C" fn retro_guaranteed(
    file: &[u8],
    schedule: Schedule,
    premiums: &mut [u8],
    differences: &mut [i64],
    risks: &mut u32,
    basic: &mut u64,
    excess: &mut u64,
    billed: &mut u64,
    discount: &mut u32,
    guaranteed: &mut u32,
    difference: &mut i64,
) -> u32
    ensures says { Exported
        (call_table.Guaranteed file.now (layers_of schedule.layers) (length premiums.old) (length differences.old))
        comparison.numbers_of result
        (lent risks.old basic.old excess.old billed.old
        discount.old guaranteed.old difference.old)
        (lent risks.new basic.new excess.new billed.new
        discount.new guaranteed.new difference.new)
        (comparison.compare_buffers premiums.old differences.old premiums.new differences.new) }
    ensures beside { IfGiven
        (comparison.compare file.now (layers_of schedule.layers) (length premiums.old) (length differences.old))
        (Beside file.now
        (lent risks.new basic.new excess.new billed.new
        discount.new guaranteed.new difference.new)
        premiums.new differences.new) }
{
    match compare(file, schedule, premiums, differences) {
        Err(refusal) => refusal.into(),
        Ok(g) => {
            let rated = g.rated;
            let sum = g.difference;
            *risks = rated.risks;
            *basic = rated.basic;
            *excess = rated.excess;
            *billed = rated.billed;
            *discount = g.discount;
            *guaranteed = g.guaranteed;
            *difference = sum;
            0
        }
    }
}

// A charge of the 1965 table: 0, the charge and its thousandths; or the number of the first question that failed.
#[unsafe(no_mangle)]
pub extern "C" fn retro_charge(
    column: u32,
    entry_ratio: u32,
    charge: &mut f64,
    thousandths: &mut u32,
) -> u32
    ensures says { Exported (call_table.Charge1965 column entry_ratio) (λ c. c) result
        (record { unrounded = charge.old; in_thousandths = thousandths.old })
        (record { unrounded = charge.new; in_thousandths = thousandths.new })
        [] }
    ensures table { IfGiven (charge1965 column entry_ratio) (OnTable column entry_ratio charge.new thousandths.new) }
{
    match table1965::charges::charge_of(column, entry_ratio) {
        Err(refusal) => refusal.into(),
        Ok(t) => {
            *charge = t.unrounded;
            *thousandths = t.thousandths;
            0
        }
    }
}

// A plan sold on premiums: 0, the trials made, the best basic premium yet and the largest known to fall short; or the number of the first
// question that failed.
#[unsafe(no_mangle)]
pub extern "C" fn retro_plan(
    file: &[u8],
    maximum: u32,
    minimum: u32,
    trials: u32,
    made: &mut u32,
    best: &mut u32,
    short_of: &mut i32,
) -> u32
    ensures says { Exported (call_table.Plan file.now maximum minimum trials) (λ p. p) result
        (record { made = made.old; best = best.old; short = short_of.old })
        (record { made = made.new; best = best.new; short = short_of.new })
        [] }
    ensures sold { IfGiven (plan_for file.now maximum minimum trials)
        (Sold file.now maximum minimum trials made.new best.new short_of.new) }
    ensures unsold { IfRefused (plan_for file.now maximum minimum trials) (Unsold file.now maximum minimum) }
{
    match sold::plans::plan_for(file, maximum, minimum, trials) {
        Err(refusal) => refusal.into(),
        Ok(p) => {
            *made = p.made;
            *best = p.best;
            // The number that C gets where none is known to fall short is −1.
            *short_of = p.short_of.map_or(-1, |short| short as i32);
            0
        }
    }
}
