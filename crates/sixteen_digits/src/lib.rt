// Texts of 1 to 16 hex digits, eight bytes at a time: no loop, and no branch on the exact length.
// Whatever is no such text, or has a zero in front, is None: a reader byte by byte knows what is wrong with it.
#![tactic(auto)]

ghost use Rattle.std.specs.Prelude.{◌≡◌, ◌+◌, ◌*◌, ◌-◌, ◌/◌, ◌%◌, ◌^◌, ◌≤◌, ◌<◌, length, IfSome};
ghost use Rattle.digits.specs.Text.{text, last_text};
ghost use Rattle.lanes.specs.Letters.{digit_byte};
ghost use Rattle.sixteen_digits.specs.Hex.{Digits};
ghost use Rattle.words.specs.Bytes.{bytes_of};

use digit_words::number;
use lanes::spelled;
use loads::{load4, load8};

// The letter that the digit 10 has. No Case: docs/PROMISES.md names number_of, which takes any such letter.
#[derive(Clone, Copy)]
pub struct Letter {
    pub first: u8,
    ghost apart: { (57 < first) × (first ≤ 97) },
}

// What each byte stands for, if it is a digit: its lower half, and nine more for a letter. Nothing is promised: who asks compares.
fn nibbles(u: u64) -> u64 {
    (u & 0x0f0f_0f0f_0f0f_0f0f) + ((u >> 6) & 0x0101_0101_0101_0101) * 9
}

// The number of eight bytes that are digits with these letters. Digits whose text is the bytes are theirs.
fn eight(u: u64, letter: Letter) -> Option<u64>
    ensures { IfSome result (λ n. (bytes_of 8 u ≡ last_text (digit_byte letter.first) 16 8 n) × (n < 4294967296)) }
{
    let w = nibbles(u);
    if w & 0xf0f0_f0f0_f0f0_f0f0 != 0 {
        return None;
    }
    if spelled(letter.first as u64, w) != u {
        return None;
    }
    Some(number(16, w))
}

// A byte as a wide number, which is below 256.
fn wide(byte: u8) -> u64
    ensures { (result ≡ byte) × (result < 256) }
{
    byte as u64
}

// The digits of a without the last k, and behind them m digits, of c.
fn behind(a: u64, k: usize, c: u64, m: usize) -> u64
    requires { (a < 16 ^ 8) × (k ≤ 8) × (c < 16 ^ m) × (m ≤ 8) }
    ensures { result ≡ a / 16 ^ k * 16 ^ m + c }
{
    ((a >> (k * 4)) << (m * 4)) + c
}

// 1 to 3 digits: the first, the middle and the last byte, and zeros behind them.
fn up_to_three(s: &[u8], letter: Letter) -> Option<u64>
    requires { (0 < length s.now) × (length s.now < 4) }
    ensures { IfSome result (λ n. Digits letter.first s.now n) }
{
    let n = s.len();
    let v = eight(
        wide(s[0]) + wide(s[n / 2]) * 256 + wide(s[n - 1]) * 65536 + 0x3030_3030_3000_0000,
        letter,
    )?;
    let w = v >> 20;
    Some(behind(w >> 4, 3 - n, w % 16, 1))
}

// 4 to 7 digits: the first four bytes, of which some are left out, and the last four.
fn up_to_seven(s: &[u8], letter: Letter) -> Option<u64>
    requires { (4 ≤ length s.now) × (length s.now < 8) }
    ensures { IfSome result (λ n. Digits letter.first s.now n) }
{
    let n = s.len();
    let v = eight(load4(s, 0) + load4(s, n - 4) * 4294967296, letter)?;
    Some(behind(v >> 16, 8 - n, v % 65536, 4))
}

// 8 to 16 digits: the first eight bytes, of which some are left out, and the last eight.
fn up_to_sixteen(s: &[u8], letter: Letter) -> Option<u64>
    requires { (8 ≤ length s.now) × (length s.now ≤ 16) }
    ensures { IfSome result (λ n. Digits letter.first s.now n) }
{
    let n = s.len();
    let v = eight(load8(s, n - 8), letter)?;
    let w = eight(load8(s, 0), letter)?;
    Some(behind(w, 16 - n, v, 8))
}

// The number of a text that has no zero in front.
fn number_in(s: &[u8], letter: Letter) -> Option<u64>
    requires { 0 < length s.now }
    ensures { IfSome result (λ n. Digits letter.first s.now n) }
{
    let n = s.len();
    if 8 <= n {
        if n <= 16 {
            return up_to_sixteen(s, letter);
        }
        return None;
    }
    if 4 <= n {
        return up_to_seven(s, letter);
    }
    up_to_three(s, letter)
}

// The number whose hex this is, with these letters.
pub fn number_of(s: &[u8], letter: Letter) -> Option<u64>
    requires { 0 < length s.now }
    ensures { IfSome result (λ n. s.now ≡ text (digit_byte letter.first) 16 n) }
{
    if s[0] == 48 {
        if 1 < s.len() {
            return None;
        }
    }
    number_in(s, letter)
}
