// The widths of a group file's fields: of the header, of a risk's count, and of a claim of either edition.
ghost use Rattle.std.specs.Prelude.{◌≡◌};
ghost use Rattle.plan.specs.Claim.{joined_width, claim_width};
ghost use Rattle.group.specs.Edition.{edition_number};

use crate::edition::Edition;

// Bytes of the header.
pub const HEADER_BYTES: usize = 16;

// Bits of each of its fields.
pub const EDITION_WIDTH: u32 = 4;

pub const LOSS_LIMIT_WIDTH: u32 = 20;

pub const STANDARD_PREMIUM_WIDTH: u32 = 22;

pub const EXPENSE_WIDTH: u32 = 20;

pub const CONVERSION_WIDTH: u32 = 11;

pub const TAX_WIDTH: u32 = 15;

pub const MARK_KIND_WIDTH: u32 = 1;

pub const MARK_WIDTH: u32 = 13;

pub const RISKS_WIDTH: u32 = 8;

pub const SPARE_WIDTH: u32 = 1;

// Bits of a risk's number of claims.
pub const COUNT_WIDTH: u32 = 6;

// Bits of the field before a claim's dollars, in edition 2.
pub const JOINED_WIDTH: u32 = 1;

// Bits of a claim's dollars, and the most of a claim.
pub const DOLLARS_WIDTH: u32 = 20;

pub const MOST_CLAIM_WIDTH: u32 = 21;

// Bits of the field before a claim's dollars: one, or none.
pub fn joined_width(edition: Edition) -> u32
    ensures { result ≡ joined_width (edition_number edition) }
{
    match edition {
        Edition::First => 0,
        Edition::Second => 1,
    }
}

// Bits of a claim: both its fields.
#[tactic(auto, unfolding(plan::specs::Claim::claim_width))]
pub fn claim_width(edition: Edition) -> u32
    ensures { result ≡ claim_width (edition_number edition) }
{
    joined_width(edition) + DOLLARS_WIDTH
}
