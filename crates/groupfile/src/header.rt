// The header of a group file: its eleven fields, taken one after another.
ghost use Rattle.groupfile.specs.Header.{FileHeaderIs};

use bits::BitPlace;
use group::Header;
use group::widths::{
    CONVERSION_WIDTH, EDITION_WIDTH, EXPENSE_WIDTH, LOSS_LIMIT_WIDTH, MARK_KIND_WIDTH, MARK_WIDTH,
    RISKS_WIDTH, SPARE_WIDTH, STANDARD_PREMIUM_WIDTH, TAX_WIDTH,
};

// The header as a file has it: the header values, what stands around them, with the edition as the number that may be none's, and the
// place where the header ends.
#[derive(Clone, Copy)]
pub struct FileHeader {
    pub edition: u32,
    pub values: Header,
    pub risks: u32,
    pub spare: u32,
    pub next: BitPlace,
}

// The header of a file, whatever its length: bits past the end are 0.
pub fn header_of(file: &[u8]) -> FileHeader
    ensures { FileHeaderIs file.now result }
{
    let edition = BitPlace { at: 0 }.take(file, EDITION_WIDTH);
    let limit = edition.next.take(file, LOSS_LIMIT_WIDTH);
    let premium = limit.next.take(file, STANDARD_PREMIUM_WIDTH);
    let expense = premium.next.take(file, EXPENSE_WIDTH);
    let conversion = expense.next.take(file, CONVERSION_WIDTH);
    let tax = conversion.next.take(file, TAX_WIDTH);
    let kind = tax.next.take(file, MARK_KIND_WIDTH);
    let maximum = kind.next.take(file, MARK_WIDTH);
    let minimum = maximum.next.take(file, MARK_WIDTH);
    let risks = minimum.next.take(file, RISKS_WIDTH);
    let spare = risks.next.take(file, SPARE_WIDTH);
    FileHeader {
        edition: edition.value,
        values: Header {
            loss_limit: limit.value,
            standard_premium: premium.value,
            expense: expense.value,
            conversion: conversion.value,
            tax: tax.value,
            mark_kind: kind.value,
            maximum_mark: maximum.value,
            minimum_mark: minimum.value,
        },
        risks: risks.value,
        spare: spare.value,
        next: spare.next,
    }
}
