// Fields put one after another, stored by whole bytes: the bits that are put and not yet stored are held in a number. What is stored is not
// looked at again.
ghost use Rattle.std.specs.Prelude.{◌≡◌, ◌+◌, ◌*◌};
ghost use Rattle.bits.specs.Put.{Put, Room};
ghost use Rattle.bits.specs.Begun.{BegunAt, RoomToHold, Held, RoomToStore, Stored};

use crate::BitPlace;
use crate::words::{extract, join};

// Where fields are put: all before byte `byte` is stored, and the `bits` bits from there on are held.
#[derive(Clone, Copy)]
pub struct Begun {
    pub byte: usize,
    pub bits: u32,
    pub held: u64,
}

impl Begun {
    // A place where fields are to be put: the bits that its byte has before it are held.
    pub fn at(place: BitPlace, out: &[u8]) -> Begun
        ensures { BegunAt out.now place.at result }
    {
        let byte = place.at / 8;
        let bits = (place.at % 8) as u32;
        let before = BitPlace { at: 8 * byte }.take(out, bits);
        Begun {
            byte,
            bits,
            held: u64::from(before.value),
        }
    }

    // Puts a field of `width` bits, which is held.
    pub fn put(self, width: u32, value: u32) -> Begun
        requires { RoomToHold self width value }
        ensures { Held self width value result }
    {
        Begun {
            byte: self.byte,
            bits: self.bits + width,
            held: join(self.held, width, u64::from(value)),
        }
    }

    // Stores N whole bytes of the bits held.
    pub fn store<const N: usize>(self, out: &mut [u8]) -> Begun
        requires { RoomToStore out.old self N }
        ensures { Stored out.old self N out.new result }
    {
        let bits = self.bits - 8 * N as u32;
        let place = BitPlace { at: 8 * self.byte };
        place.put_whole::<N>(out, self.held >> bits);
        Begun {
            byte: self.byte + N,
            bits,
            held: extract(self.held, 0, bits),
        }
    }

    // Stores the bits held, 32 at most, and gives the place after them.
    pub fn end(self, out: &mut [u8]) -> BitPlace
        requires { Room out.old (8 * self.byte) self.bits self.held }
        ensures next { result.at ≡ 8 * self.byte + self.bits }
        ensures put { Put out.old (8 * self.byte) self.bits self.held out.new }
    {
        BitPlace { at: 8 * self.byte }.put(out, self.bits, self.held as u32)
    }
}
