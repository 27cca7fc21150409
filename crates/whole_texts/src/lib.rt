// Texts of digits behind a minus or none: what each is found to be.
#![tactic(auto)]

ghost use Rattle.std.specs.Prelude.{true, false, ◌≡◌, ◌≤◌, ◌<◌, length, IfSome};
ghost use Rattle.formats.specs.Formats.{letter_from};
ghost use Rattle.radix.specs.Radix.{digit_byte, lower};
ghost use Rattle.outcomes.specs.Found.{IsNumber, Found};
ghost use Rattle.whole_texts.specs.Wholes.{wholes};

use digit_runs::{Numerals, front, scan};
use formats::Case;
use kinds::Split;
use outcomes::{Fault, WideSplit};
use sixteen_digits::Letter;

// That a text is not empty `read` has found once for all below it: a slice with that fact as a type would be no slice any more.
// The number that a text of digits stands for, by its sign, and its magnitude unless it is over 64 bits; or it is of another shape from a place on, or not canonical.
pub fn find_whole(text: &[u8], may: bool, numerals: Numerals) -> Result<WideSplit, Fault>
    requires { 0 < length text.now }
    ensures { Found (wholes may (digit_byte numerals.letter) numerals.base) text.now result }
{
    let start = front(text, may);
    let run = scan(text, start, numerals, 0);
    let end = run.end;
    if end < text.len() {
        return Err(Fault::Shape(end));
    }
    if end <= start {
        return Err(Fault::Shape(end));
    }
    if text[start] == 48 {
        if 1 < end {
            return Err(Fault::NotCanonical);
        }
    }
    Ok(WideSplit {
        negative: 0 < start,
        magnitude: run.value,
    })
}

// The number of a decimal text of 1 to 20 digits, eight digits at a time; 0 behind a minus is left to the caller to refuse.
// What is wrong with any other text is found byte by byte.
pub fn find_short(text: &[u8], may: bool) -> Option<Split>
    requires { 0 < length text.now }
    ensures { IfSome result (λ n. ((n.negative ≡ true → may ≡ true)) × ((n.negative ≡ true → n.magnitude ≡ 0 → ⊥) → IsNumber (wholes may lower 10) text.now n)) }
{
    let start = front(text, may);
    let magnitude = twenty_digits::number_of(&text[start..])?;
    Some(Split {
        negative: 0 < start,
        magnitude,
    })
}

// The number of a hex text of 1 to 16 digits, eight digits at a time.
pub fn find_hex(text: &[u8], case: Case) -> Option<u64>
    requires { 0 < length text.now }
    ensures { IfSome result (λ n. IsNumber (wholes false (digit_byte (letter_from case 97)) 16) text.now (record { negative = false; magnitude = n })) }
{
    let letter = Letter {
        first: case.letter(b'a'),
    };
    sixteen_digits::number_of(text, letter)
}
