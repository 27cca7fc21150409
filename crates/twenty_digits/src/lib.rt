// Texts of 1 to 20 decimal digits, eight bytes at a time: no loop, and no branch on the exact length.
// Whatever is no such text, has a zero in front or too large a number, is None: a reader byte by byte knows what is wrong with it.
#![tactic(auto)]

ghost use Rattle.std.specs.Prelude.{◌≡◌, ◌+◌, ◌-◌, ◌<◌, ◌≤◌, [], ◌∷◌, ◌++◌, length, take, IfSome};
ghost use Rattle.digits.specs.Digits.{value};
ghost use Rattle.digits.specs.Text.{decimal};

use digit_words::{faults, figures, number, number_around, number_before};
use loads::{load4, load8};

// The digit that a byte is; 10 or more where it is none. No Option: the three of a text are tested when all are read.
fn digit(byte: u8) -> u64
    ensures { result < 10 → byte ≡ 48 + result }
{
    std::num::wrapping_sub_u8(byte, 48) as u64
}

// The number of the first two digits without the last k of them, and the third behind.
fn three(a: u64, b: u64, c: u64, k: usize) -> u64
    requires { (a < 10) × (b < 10) × (c < 10) × (k ≤ 2) }
    ensures { result ≡ value 10 (take (2 - k) (a ∷ b ∷ []) ++ (c ∷ [])) }
{
    let w = ((a + b * 256) << (k * 8)) % 65536;
    (w % 256) * 100 + (w >> 8) * 10 + c
}

// One function for each class of length, since each loads other bytes: a common one would branch on the length again.
// 1 to 3 digits: the first, the middle and the last byte.
fn up_to_three(text: &[u8]) -> Option<u64>
    requires { (0 < length text.now) × (length text.now < 4) }
    ensures { IfSome result (λ n. text.now ≡ decimal n) }
{
    let n = text.len();
    let a = digit(text[0]);
    let b = digit(text[n / 2]);
    let c = digit(text[n - 1]);
    if 9 < a {
        return None;
    }
    if 9 < b {
        return None;
    }
    if 9 < c {
        return None;
    }
    if a == 0 {
        if 1 < n {
            return None;
        }
    }
    Some(three(a, b, c, 3 - n))
}

// 4 to 7 digits: the first four and the last four bytes.
fn up_to_seven(text: &[u8]) -> Option<u64>
    requires { (4 ≤ length text.now) × (length text.now < 8) }
    ensures { IfSome result (λ n. text.now ≡ decimal n) }
{
    let n = text.len();
    let w = figures(load4(text, 0) + load4(text, n - 4) * 4294967296);
    if faults(w) != 0 {
        return None;
    }
    if w % 256 == 0 {
        return None;
    }
    Some(number_around(w, 8 - n))
}

// 8 digits.
fn eight(text: &[u8]) -> Option<u64>
    requires { length text.now ≡ 8 }
    ensures { IfSome result (λ n. text.now ≡ decimal n) }
{
    let w = figures(load8(text, 0));
    if faults(w) != 0 {
        return None;
    }
    if w % 256 == 0 {
        return None;
    }
    Some(number(10, w))
}

// 9 to 16 digits: the first eight bytes, of which some are left out, and the last eight.
fn up_to_sixteen(text: &[u8]) -> Option<u64>
    requires { (8 < length text.now) × (length text.now ≤ 16) }
    ensures { IfSome result (λ n. text.now ≡ decimal n) }
{
    let n = text.len();
    let w = figures(load8(text, n - 8));
    let x = figures(load8(text, 0));
    if faults(w) | faults(x) != 0 {
        return None;
    }
    if x % 256 == 0 {
        return None;
    }
    Some(number_before(x, 16 - n) * 100000000 + number(10, w))
}

// 17 to 20 digits: eight bytes three times. From 1844 times 10 to the 16 on a number may be over 64 bits.
fn up_to_twenty(text: &[u8]) -> Option<u64>
    requires { (16 < length text.now) × (length text.now ≤ 20) }
    ensures { IfSome result (λ n. text.now ≡ decimal n) }
{
    let n = text.len();
    let w = figures(load8(text, n - 8));
    let m = figures(load8(text, n - 16));
    let x = figures(load8(text, 0));
    if faults(w) | (faults(m) | faults(x)) != 0 {
        return None;
    }
    if x % 256 == 0 {
        return None;
    }
    let top = number_before(x, 24 - n);
    if 1843 < top {
        return None;
    }
    Some(top * 10000000000000000 + (number(10, m) * 100000000 + number(10, w)))
}

// The number whose decimal text this is.
pub fn number_of(text: &[u8]) -> Option<u64>
    ensures { IfSome result (λ n. text.now ≡ decimal n) }
{
    let n = text.len();
    if 8 < n {
        if n <= 16 {
            return up_to_sixteen(text);
        }
        if n <= 20 {
            return up_to_twenty(text);
        }
        return None;
    }
    if 4 <= n {
        if n == 8 {
            return eight(text);
        }
        return up_to_seven(text);
    }
    if n == 0 {
        return None;
    }
    up_to_three(text)
}
