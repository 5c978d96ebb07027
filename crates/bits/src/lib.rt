// Fields of bits in a file: one after another, most significant bit first, without gaps. A field is taken or
// put at a place, and either hands on the next place. `plan` defines what a field is; a bit past the end is 0.
// Nothing here knows what a field means, or asks whether a file has it: that is for the file's reader.
#![tactic(auto)]

ghost use Rattle.std.specs.Prelude.{◌≡◌, ◌+◌, ◌-◌, ◌*◌, ◌/◌, ◌%◌, ◌^◌, ◌≤◌, ◌<◌, length};
ghost use Rattle.bits.specs.Take.{Reach, Took, FrontIs, FieldTaken};
ghost use Rattle.bits.specs.Put.{Room, WholeBytes, Put, InByte};

pub mod begun;
pub mod words;

use crate::words::{extract, highest, insert, word_within};

// A place between two bits of a file, counted from its first bit. It is handed on by value, beside the file, as the scope document has it.
#[derive(Clone, Copy)]
pub struct BitPlace {
    pub at: usize,
}

// The bits of a file from a place on, on the front of a word, its highest: fields are taken from it one after another without another
// load, and each hands on the bits and the place behind it.
#[derive(Clone, Copy)]
pub struct Front {
    pub bits: u64,
    pub place: BitPlace,
}

// What was taken, and what is handed on behind it.
#[derive(Clone, Copy)]
pub struct Taken<V, N> {
    pub value: V,
    pub next: N,
}

impl Front {
    // The field of `width` bits on this front, 57 at most, and the front behind it.
    pub fn take(self, width: u32) -> Taken<u64, Front>
        requires { (width ≤ 57) × (self.place.at + width < 2 ^ 64) }
        ensures { FieldTaken self width result }
    {
        let value = highest(self.bits, width);
        let next = Front {
            bits: self.bits << width,
            place: BitPlace {
                at: self.place.at + width as usize,
            },
        };
        Taken { value, next }
    }
}

impl BitPlace {
    // The place after so many fields of `width` bits.
    pub fn past(self, fields: usize, width: u32) -> BitPlace
        requires { self.at + width * fields < 2 ^ 64 }
        ensures { result.at ≡ self.at + width * fields }
    {
        BitPlace {
            at: self.at + width as usize * fields,
        }
    }

    // The byte where the word from this place's byte on ends.
    pub fn reach(self) -> usize
        ensures { result ≡ self.at / 8 + 8 }
    {
        self.at / 8 + 8
    }

    // The field of `width` bits at this place, and the next place.
    pub fn take(self, file: &[u8], width: u32) -> Taken<u32, BitPlace>
        requires { Reach self.at width }
        ensures { Took file.now self.at width result.value result.next.at }
    {
        let field = self.front(file, self.reach()).take(width);
        Taken {
            value: field.value as u32,
            next: field.next.place,
        }
    }

    // The bits from this place on, 57 of them at least, on the front of a word that ends at byte `reach` or before: one test of the file's
    // length will do for many fronts with the same `reach`.
    pub fn front(self, file: &[u8], reach: usize) -> Front
        requires { self.at / 8 + 8 ≤ reach }
        ensures { (result.place.at ≡ self.at) × FrontIs file.now 57 result }
    {
        let at = self.at;
        let bits = word_within(file, at / 8, reach) << (at % 8) as u32;
        Front { bits, place: self }
    }

    // Puts the field of `width` bits at this place, a byte a turn, and gives the next place. Each turn goes on by as many bits as lie in
    // the byte, a number that it finds anew: no range or iterator steps so.
    pub fn put(self, out: &mut [u8], width: u32, value: u32) -> BitPlace
        requires { Room out.old self.at width value }
        ensures next { result.at ≡ self.at + width }
        ensures put { Put out.old self.at width value out.new }
    {
        let mut at = self.at;
        let mut left = width;
        while 0 < left {
            let n = count_in_byte(at, left);
            put_in_byte(out, at, n, extract(u64::from(value), left - n, n));
            at += n as usize;
            left -= n;
        }
        BitPlace { at }
    }

    // Puts a field of N whole bytes, eight at most, that begins with a byte.
    pub fn put_whole<const N: usize>(self, out: &mut [u8], value: u64) -> BitPlace
        requires { WholeBytes out.old self.at N value }
        ensures next { result.at ≡ self.at + 8 * N }
        ensures put { Put out.old self.at (8 * N) value out.new }
    {
        let from = self.at / 8;
        out[from..from + N].copy_from_slice(&value.to_be_bytes()[8 - N..]);
        BitPlace {
            at: self.at + 8 * N,
        }
    }
}

// ---- put: a part of one byte

// How many of `left` bits at the place `at` lie in the byte there.
fn count_in_byte(at: usize, left: u32) -> u32
    requires { 0 < left }
    ensures { InByte at left result }
{
    left.min(8 - (at % 8) as u32)
}

// Puts a field of n bits that lies in one byte.
fn put_in_byte(out: &mut [u8], at: usize, n: u32, part: u64)
    requires { (at % 8 + n ≤ 8) × (at / 8 < length out.old) × (part < 2 ^ n) }
    ensures { Put out.old at n part out.new }
{
    let i = at / 8;
    let low = 8 - (at % 8) as u32 - n;
    out[i] = insert(out[i], low, n, part);
}
