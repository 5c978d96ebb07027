// A group's values as the calls hand them to each other: the header values, what questions come to, and the losses. What each
// means in document 01 is in specs/; nothing here knows how they lie in a file.
#![tactic(auto)]

ghost use Rattle.std.specs.Prelude.{◌≡◌, ◌≤◌, length, take, drop};
ghost use Rattle.plan.specs.Sizes.{most_risks};
ghost use Rattle.group.specs.Entries.{behind};
ghost use Rattle.group.specs.Refusals.{number_of};

pub mod edition;
pub mod given;
pub mod questions;
pub mod widths;

use std::error::Error;
use std::fmt;

// Sizes by name, as plan's Sizes has them: the most risks of a group, the most claims of a risk, the least and the most of the loss
// conversion factor in thousandths and of the tax multiplier in ten-thousandths, the largest mark in thousandths, and the bytes of the
// largest file. What takes a number of risks by itself asks that it be at most the first: as a type it would be made for one call and
// opened at once.
pub const MOST_RISKS: usize = 255;

pub const MOST_CLAIMS: u32 = 63;

pub const LEAST_CONVERSION: u32 = 1000;

pub const MOST_CONVERSION: u32 = 2000;

pub const LEAST_TAX: u32 = 10000;

pub const MOST_TAX: u32 = 20000;

pub const MOST_MARK: u32 = 6000;

pub const LARGEST_FILE: usize = 42378;

// The header values, loss limit to minimum mark, each the number that C gives and gets, the mark kind too.
#[repr(C)]
#[derive(Clone, Copy, Default)]
pub struct Header {
    pub loss_limit: u32,
    pub standard_premium: u32,
    pub expense: u32,
    pub conversion: u32,
    pub tax: u32,
    pub mark_kind: u32,
    pub maximum_mark: u32,
    pub minimum_mark: u32,
}

// Why a call is refused, by the first question that failed. The values are the questions' numbers in documents 01 and 02.
#[derive(Clone, Copy, Debug, PartialEq, Eq)]
pub enum Refusal {
    NoHeader = 1,
    Edition = 2,
    StandardPremium = 3,
    Conversion = 4,
    Tax = 5,
    Mark = 6,
    NoRisks = 7,
    Length = 8,
    Fill = 9,
    NoLosses = 10,
    NegativeBasic = 12,
    Room = 13,
    EntryRatio = 14,
    Misfit = 15,
    DiscountRate = 16,
    LayerWidth = 17,
    MarkOrder = 18,
    FirstJoined = 19,
    Column = 20,
    TableRatio = 21,
    PremiumOrder = 22,
    OutOfReach = 23,
}

// The question's number, which is what a call for C answers.
impl From<Refusal> for u32 {
    ghost from_gives = { λ refusal number. number ≡ number_of refusal };

    fn from(refusal: Refusal) -> u32 {
        refusal as u32
    }
}

impl fmt::Display for Refusal {
    fn fmt<W: fmt::Write>(&self, f: &mut fmt::Formatter<W>) -> fmt::Result {
        write!(f, "{}", u32::from(*self))
    }
}

impl Error for Refusal {}

// L and A of a risk.
#[derive(Clone, Copy, Default)]
pub struct Losses {
    pub total: u32,
    pub limited: u32,
}

// L and A of each risk of a group, lent: of 255 risks at most.
#[derive(Clone, Copy)]
pub struct RiskLosses<'a> {
    pub each: &'a [Losses],
    pub ghost few: { length each.now ≤ most_risks },
}

// The losses of a group: n, L and A of each of its risks, which stand first of 255 entries and with 0 behind them, and SL and SA. It is
// copied, which no list of the kit is.
#[derive(Clone, Copy)]
pub struct GroupLosses {
    pub risks: u32,
    pub of_risks: [Losses; MOST_RISKS],
    pub total: u64,
    pub limited: u64,
    pub ghost few: { risks ≤ most_risks },
    pub ghost rest: { drop risks of_risks ≡ behind risks },
}

impl GroupLosses {
    // n.
    pub fn risks(&self) -> u32
        ensures { result ≡ length (take self.now.risks self.now.of_risks) }
    {
        self.risks
    }

    // L and A of each of the risks.
    pub fn lent(&self) -> RiskLosses<'_>
        ensures { result.each.now ≡ take self.now.risks self.now.of_risks }
    {
        RiskLosses {
            each: &self.of_risks[..self.risks as usize],
        }
    }
}
