// Exponent texts: behind the coefficient the exponent, the rules of writing and the magnitude.
#![tactic(auto)]

ghost use Rattle.std.specs.Prelude.{◌≡◌, ◌+◌, ◌-◌, ◌*◌, ◌^◌, ◌≤◌, ◌<◌, length};
ghost use Rattle.digit_runs.specs.Runs.{Held};
ghost use Rattle.formats.specs.Formats.{letter_from};
ghost use Rattle.exponent_texts.specs.Exponents.{DigitAt, AtMostTwo, Rules, Tells, exponents};
ghost use Rattle.outcomes.specs.Found.{Found};

use coefficients::{Coefficient, find_coefficient};
use digit_runs::DECIMAL;
use formats::Case;
use outcomes::{Fault, WideSplit};

// The digit at a place, if one stands there.
fn digit_at(text: &[u8], at: usize) -> Option<u64>
    ensures { DigitAt text.now at result }
{
    if text.len() <= at {
        return None;
    }
    DECIMAL.digit(text[at])
}

// At most two digits: where they end, and the number that they stand for.
#[derive(Clone, Copy)]
pub struct Short {
    pub end: usize,
    pub value: u64,
}

// The exponent: at most two digits.
fn exponent_digits(text: &[u8], from: usize) -> Short
    requires { from ≤ length text.now }
    ensures { AtMostTwo text.now from result }
{
    let Some(tens) = digit_at(text, from) else {
        return Short {
            end: from,
            value: 0,
        };
    };
    let next = from + 1;
    let Some(units) = digit_at(text, next) else {
        return Short {
            end: next,
            value: tens,
        };
    };
    Short {
        end: next + 1,
        value: tens * 10 + units,
    }
}

// Whether the rules of writing hold of a text of the shape, whose exponent is k.
// That k has at most two digits, or a place is within the text, is a fact of numbers: a type for it would be no plainer.
fn is_canonical(text: &[u8], coefficient: Coefficient, k: u64) -> bool
    requires { (coefficient.size ≤ coefficient.end) × (coefficient.end + 1 < length text.now) × (k < 100) }
    ensures { Tells (Rules text.now coefficient.lead coefficient.size coefficient.end k) result }
{
    let size = coefficient.size;
    let end = coefficient.end;
    if coefficient.lead == 0 {
        if text.len() != 3 {
            return false;
        }
        if k != 0 {
            return false;
        }
    }
    if 0 < size {
        if text[end - 1] == b'0' {
            return false;
        }
    }
    if end + 2 < text.len() {
        if text[end + 1] == b'0' {
            return false;
        }
    }
    size as u64 <= k + 1
}

// How many zeros follow the digits, where the exponent is k and point and fraction have so many bytes.
fn zeros(k: u64, size: usize) -> u64
    requires { (size ≤ k + 1) × (k < 100) }
    ensures { result ≡ k - (size - 1) }
{
    if size == 0 {
        return k;
    }
    k + 1 - size as u64
}

// n times 10 to the k, unless it is over 64 bits.
fn times_power(n: u64, k: u64) -> Option<u64>
    ensures { Held result (n * 10 ^ k) }
{
    if n == 0 {
        return Some(0);
    }
    if 19 < k {
        return None;
    }
    let p = digits::power(k as usize);
    n.checked_mul(p)
}

// The number that an exponent text stands for, by its sign, and its magnitude unless it is over 64 bits; or it is of another shape from a place on, or not canonical.
pub fn find_exponent(text: &[u8], signed: bool, case: Case) -> Result<WideSplit, Fault>
    requires { 0 < length text.now }
    ensures { Found (exponents signed (letter_from case 101)) text.now result }
{
    let coefficient = find_coefficient(text, signed, case.letter(b'e'))?;
    let start = coefficient.end + 1;
    let expo = exponent_digits(text, start);
    let last = expo.end;
    if last < text.len() {
        return Err(Fault::Shape(last));
    }
    if last <= start {
        return Err(Fault::Shape(last));
    }
    let k = expo.value;
    if is_canonical(text, coefficient, k) {
        let Some(value) = coefficient.value else {
            return Ok(WideSplit {
                negative: coefficient.minus,
                magnitude: None,
            });
        };
        return Ok(WideSplit {
            negative: coefficient.minus,
            magnitude: times_power(value, zeros(k, coefficient.size)),
        });
    }
    Err(Fault::NotCanonical)
}
