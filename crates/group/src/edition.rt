// The editions of a group file: what question 2 asks a file's first field for; and a file with the edition by which its claims lie.
ghost use Rattle.std.specs.Prelude.{◌≡◌};
ghost use Rattle.plan.specs.Claim.{joined_width};
ghost use Rattle.plan.specs.Header.{edition_of};
ghost use Rattle.group.specs.Edition.{edition_number, EditionIs, LieAs};

use crate::Refusal;

// An edition that is read and written; the value is its number. A claim of the second has a bit before its dollars.
#[derive(Clone, Copy, Debug, PartialEq, Eq)]
pub enum Edition {
    First = 1,
    Second = 2,
}

// The edition with a number, or question 2's No.
impl TryFrom<u32> for Edition {
    type Error = Refusal;

    ghost try_from_gives = { EditionIs };

    fn try_from(number: u32) -> Result<Edition, Refusal> {
        match number {
            1 => Ok(Edition::First),
            2 => Ok(Edition::Second),
            _ => Err(Refusal::Edition),
        }
    }
}

// The number, as the file has it.
impl From<Edition> for u32 {
    ghost from_gives = { λ edition number. number ≡ edition_number edition };

    fn from(edition: Edition) -> u32 {
        edition as u32
    }
}

impl Edition {
    // The edition as which a file with a number is taken before question 2 is asked: the first where it is not known.
    pub fn or_first(number: u32) -> Edition
        ensures { joined_width (edition_number result) ≡ joined_width number }
    {
        Edition::try_from(number).unwrap_or(Edition::First)
    }
}

// A file and the edition by which its claims lie.
#[derive(Clone, Copy)]
pub struct ClaimFile<'a> {
    pub bytes: &'a [u8],
    pub edition: Edition,
    pub ghost lie: { LieAs bytes.now edition },
}

impl<'a> ClaimFile<'a> {
    // A file of whatever bytes, by the number of its edition.
    pub fn new(bytes: &'a [u8], number: u32) -> ClaimFile<'a>
        requires { number ≡ edition_of bytes.now }
        ensures { result.bytes.now ≡ bytes.now }
    {
        ClaimFile {
            bytes,
            edition: Edition::or_first(number),
        }
    }
}
