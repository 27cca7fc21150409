// Eight digits at a time in a word, the first in the lowest byte: whether a word of bytes is one of decimal digits, and the number that eight digits of any base up to 16 stand for.
#![tactic(auto)]

ghost use Rattle.std.specs.Prelude.{◌≡◌, ◌-◌, ◌^◌, ◌<◌, ◌≤◌, ◌++◌, map, take, drop};
ghost use Rattle.digits.specs.Digits.{value, Below};
ghost use Rattle.digits.specs.Text.{ascii};
ghost use Rattle.words.specs.Bytes.{bytes_of};

// The bytes of u less 48 each: their digits, where all are digits.
pub fn figures(u: u64) -> u64
    ensures { Below 10 (bytes_of 8 result) → bytes_of 8 u ≡ map ascii (bytes_of 8 result) }
{
    std::num::wrapping_sub_u64(u, 0x3030_3030_3030_3030)
}

// 0 where each byte of w is a digit: with 6 more a byte from 10 to 15 reaches into its upper half.
// A number and no bool: three of them are joined and tested once.
pub fn faults(w: u64) -> u64
    ensures { result ≡ 0 → Below 10 (bytes_of 8 w) }
{
    let more = std::num::wrapping_add_u64(w, 0x0606_0606_0606_0606);
    (w & 0xf0f0_f0f0_f0f0_f0f0) | (more & 0xf0f0_f0f0_f0f0_f0f0)
}

// The number of eight digits: in pairs, in fours, and all.
pub fn number(base: u64, w: u64) -> u64
    requires { (2 ≤ base) × (base ≤ 16) × (Below base (bytes_of 8 w)) }
    ensures { (result ≡ value base (bytes_of 8 w)) × (result < base ^ 8) }
{
    let square = base * base;
    let p = (w * base + (w >> 8)) & 0x00ff_00ff_00ff_00ff;
    let q = (p * square + (p >> 16)) & 0x0000_ffff_0000_ffff;
    (q % 4294967296) * (square * square) + (q >> 32)
}

// The number of the first digits, without the last k. It and number_around are two, since each shifts other digits out: nothing but `number` is common.
pub fn number_before(w: u64, k: usize) -> u64
    requires { (Below 10 (bytes_of 8 w)) × (k < 8) }
    ensures { (result ≡ value 10 (take (8 - k) (bytes_of 8 w))) × (result < 100000000) }
{
    number(10, w << (k * 8))
}

// The number of the first four digits without the last k of them, and the second four behind.
pub fn number_around(w: u64, k: usize) -> u64
    requires { (Below 10 (bytes_of 8 w)) × (k ≤ 4) }
    ensures { result ≡ value 10 (take (4 - k) (bytes_of 8 w) ++ drop 4 (bytes_of 8 w)) }
{
    number(10, (w << (k * 8)) % 4294967296 + (w >> 32) * 4294967296)
}
