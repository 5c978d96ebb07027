// Bits of a word of eight bytes and of one byte, by shifts and masks: the word from a byte of a file on, some bits of it, whether
// a value fits so many, and a byte with some bits put in. Bytes past the end of the file are 0. Here and in all crates a number is narrowed
// by `as`, and one of 32 bits goes to `usize` by it, since no `From` does: its proof shows that nothing is lost, and a `TryFrom` would have an
// `Err` that never comes.
ghost use Rattle.std.specs.Prelude.{◌≡◌, ◌+◌, ◌-◌, ◌*◌, ◌/◌, ◌%◌, ◌^◌, ◌≤◌, ◌<◌, length};
ghost use Rattle.plan.specs.Field.{field, fits};
ghost use Rattle.bits.specs.Words.{Joins, Inserted};

use std::array;

// The n bits of x above its `low` lowest.
pub fn extract(x: u64, low: u32, n: u32) -> u64
    requires { (low < 64) × (n < 64) }
    ensures { result ≡ x / 2 ^ low % 2 ^ n }
{
    (x >> low) & ((1 << n) - 1)
}

// ---- taken: the word of eight bytes

// The n highest bits of a word.
pub fn highest(word: u64, n: u32) -> u64
    requires { n < 64 }
    ensures is { result ≡ word / 2 ^ (64 - n) }
    ensures fits { result < 2 ^ n }
{
    // two shifts, since one of no bits would be by 64
    (word >> 1) >> (63 - n)
}

// The 64 bits from byte i on, which end at byte `reach` or before.
pub fn word_within(file: &[u8], i: usize, reach: usize) -> u64
    requires { i + 8 ≤ reach }
    ensures { result ≡ field file.now (8 * i) 64 }
{
    if reach <= file.len() {
        word_inside(file, i)
    } else {
        word_at(file, i)
    }
}

// The same wherever it ends. Apart from the test of `reach`, so that a loop over words can compile to one without a test in it.
fn word_at(file: &[u8], i: usize) -> u64
    requires { i + 8 < 2 ^ 64 }
    ensures { result ≡ field file.now (8 * i) 64 }
{
    if i + 8 <= file.len() {
        word_inside(file, i)
    } else {
        word_at_end(file, i)
    }
}

// The same where all eight bytes are in the file, in a form that can compile to one load. The first is the most significant.
fn word_inside(file: &[u8], i: usize) -> u64
    requires { i + 8 ≤ length file.now }
    ensures { result ≡ field file.now (8 * i) 64 }
{
    let mut bytes = [0; 8];
    bytes.copy_from_slice(&file[i..i + 8]);
    u64::from_be_bytes(bytes)
}

// The same near the file's end: a byte past it is 0.
fn word_at_end(file: &[u8], i: usize) -> u64
    requires { i + 8 < 2 ^ 64 }
    ensures { result ≡ field file.now (8 * i) 64 }
{
    u64::from_be_bytes(array::from_fn(|k| file.get(i + k).copied().unwrap_or(0)))
}

// ---- put: whether a value fits, and some bits of one byte

// Whether a value fits so many bits.
pub fn value_fits(width: u32, value: u32) -> bool
    requires { width < 32 }
    ensures { result ≡ fits width value }
{
    value < 1 << width
}

// The byte with `part` in the n bits above its `low` lowest; of a whole byte nothing old is kept.
pub fn insert(old: u8, low: u32, n: u32, part: u64) -> u8
    requires { (low + n ≤ 8) × (part < 2 ^ n) }
    ensures { Inserted old low n part result }
{
    if n == 8 {
        return part as u8;
    }
    let b = u64::from(old);
    let top = join(b >> (low + n), n, part);
    join(top, low, extract(b, 0, low)) as u8
}

// `high` with the n bits of `low` after it.
pub fn join(high: u64, n: u32, low: u64) -> u64
    requires { Joins high n low }
    ensures { result ≡ high * 2 ^ n + low }
{
    (high << n) | low
}
