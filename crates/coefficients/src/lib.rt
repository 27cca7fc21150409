// The front of an exponent text: a minus or none, the lead digit, the point with the fraction, and the letter.
#![tactic(auto)]

ghost use Rattle.std.specs.Prelude.{◌≤◌, ◌<◌, length};
ghost use Rattle.coefficients.specs.Coefficients.{FractionOf, CoefficientOf};

use digit_runs::{DECIMAL, Run, front, scan};
use outcomes::Fault;

// What stands behind the lead digit: with a point the fraction's digits, read behind the lead; without one nothing.
fn fraction(text: &[u8], at: usize, lead: u64) -> Run
    requires { at ≤ length text.now }
    ensures { FractionOf text.now at lead result }
{
    if at < text.len() {
        if text[at] == b'.' {
            return scan(text, at + 1, DECIMAL, lead);
        }
    }
    Run {
        end: at,
        value: Some(lead),
    }
}

// What stands at the front of an exponent text, up to its letter, which stands at end. The size is that of the point and the fraction;
// the value that of all digits, unless it is over 64 bits.
#[derive(Clone, Copy)]
pub struct Coefficient {
    pub minus: bool,
    pub lead: u64,
    pub size: usize,
    pub end: usize,
    pub value: Option<u64>,
}

// The front of an exponent text with this letter, or the place from which on it is of another shape.
pub fn find_coefficient(text: &[u8], signed: bool, letter: u8) -> Result<Coefficient, Fault>
    requires { (0 < length text.now) × (57 < letter) }
    ensures { CoefficientOf signed letter text.now result }
{
    let start = front(text, signed);
    if text.len() <= start {
        return Err(Fault::Shape(start));
    }
    let Some(lead) = DECIMAL.digit(text[start]) else {
        return Err(Fault::Shape(start));
    };
    let at = start + 1;
    let run = fraction(text, at, lead);
    let end = run.end;
    if end == at + 1 {
        return Err(Fault::Shape(end));
    }
    if text.len() <= end {
        return Err(Fault::Shape(end));
    }
    if text[end] == letter {
        return Ok(Coefficient {
            minus: 0 < start,
            lead,
            size: end - at,
            end,
            value: run.value,
        });
    }
    Err(Fault::Shape(end))
}
