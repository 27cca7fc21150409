// The reader: plain texts back to values, of any type, in any of the seven formats. All new: the Rust's own parsing is not carried over.
// One pass over the text, in constant memory.
#![tactic(auto)]

ghost use Rattle.std.specs.Prelude.{true, ◌≡◌, ◌<◌, length, Ok, IfSome};
ghost use Rattle.formats.specs.Formats.{letter_from, numeral_code, format_code};
ghost use Rattle.formats.specs.declared.Numeral.TheVariants.{Hex};
ghost use Rattle.kinds.specs.Kinds.{known};
ghost use Rattle.radix.specs.Radix.{digit_byte};
ghost use Rattle.reading.specs.Formats.{whole, decimal_form, radix_form, exponent_form, form};
ghost use Rattle.outcomes.specs.Outcomes.{value_outcome};
ghost use Rattle.reader.specs.Answers.{Answers, Judges, Told};

use digit_runs::{BINARY, DECIMAL, LOWER_HEX, Numerals, OCTAL, UPPER_HEX};
use exponent_texts::find_exponent;
use formats::{Case, Format, Numeral};
use kinds::{Kind, Split};
use outcomes::{Fault, Outcome, WordKind, of_magnitude, of_pattern};
use whole_texts::{find_hex, find_short, find_whole};

// A decimal text, byte by byte.
fn read_decimal(target: WordKind, text: &[u8]) -> Outcome
    requires { 0 < length text.now }
    ensures { Judges (decimal_form target.kind.signed) target.kind.signed target.kind.bits text.now result }
{
    let found = find_whole(text, target.kind.signed, DECIMAL)?.split()?;
    of_magnitude(target, found)
}

// A text in a base with letters, the pattern of the type's bits.
fn read_radix(target: WordKind, numerals: Numerals, text: &[u8]) -> Outcome
    requires { 0 < length text.now }
    ensures { Judges (radix_form (digit_byte numerals.letter) numerals.base target.kind.bits) target.kind.signed target.kind.bits text.now result }
{
    let found = find_whole(text, false, numerals)?.split()?;
    of_pattern(target, found.magnitude)
}

// A hex text.
fn read_hex(target: WordKind, case: Case, text: &[u8]) -> Outcome
    requires { 0 < length text.now }
    ensures { Judges (form target.kind.signed target.kind.bits (numeral_code (Hex case))) target.kind.signed target.kind.bits text.now result }
{
    match case {
        Case::Lower => read_radix(target, LOWER_HEX, text),
        Case::Upper => read_radix(target, UPPER_HEX, text),
    }
}

// An exponent text.
fn read_exponent(target: WordKind, case: Case, text: &[u8]) -> Outcome
    requires { 0 < length text.now }
    ensures { Judges (exponent_form target.kind.signed (letter_from case 101)) target.kind.signed target.kind.bits text.now result }
{
    let found = find_exponent(text, target.kind.signed, case)?.split()?;
    of_magnitude(target, found)
}

// A text that is not empty, in a form that is digits alone.
fn read_numeral(target: WordKind, numeral: Numeral, text: &[u8]) -> Outcome
    requires { 0 < length text.now }
    ensures { Judges (form target.kind.signed target.kind.bits (numeral_code numeral)) target.kind.signed target.kind.bits text.now result }
{
    match numeral {
        Numeral::Decimal => read_decimal(target, text),
        Numeral::Binary => read_radix(target, BINARY, text),
        Numeral::Octal => read_radix(target, OCTAL, text),
        Numeral::Hex(case) => read_hex(target, case, text),
    }
}

// A text that is not empty, by its format.
fn judge(target: WordKind, format: Format, text: &[u8]) -> Outcome
    requires { 0 < length text.now }
    ensures { Judges (form target.kind.signed target.kind.bits (format_code format)) target.kind.signed target.kind.bits text.now result }
{
    match format {
        Format::Numeral(numeral) => read_numeral(target, numeral, text),
        Format::Exponent(case) => read_exponent(target, case, text),
    }
}

// Reads a plain text as a value of the type. Checks in the order type, format, empty, shape, canonical, range.
// The format comes as document 01's number: one that is none is refused (`Answers`). It is a `Format` from here down.
pub fn read(kind: Kind, format: u32, text: &[u8]) -> Outcome
    ensures { Answers kind.signed kind.bits format text.now result }
{
    if !kinds::is_known(kind.bits) {
        return Err(Fault::Type);
    }
    let Ok(decoded) = Format::try_from(format) else {
        return Err(Fault::Options);
    };
    if text.len() == 0 {
        return Err(Fault::Empty);
    }
    judge(WordKind { kind }, decoded, text)
}

// The value of a magnitude, where the type has it. No text of 0 has a minus.
fn of_short(target: WordKind, found: Split) -> Option<u64>
    requires { found.negative ≡ true → target.kind.signed ≡ true }
    ensures { IfSome result (λ v. ((found.negative ≡ true → found.magnitude ≡ 0 → ⊥)) × (Ok v ≡ value_outcome target.kind.signed target.kind.bits (whole found.negative found.magnitude))) }
{
    if found.negative && found.magnitude == 0 {
        return None;
    }
    of_magnitude(target, found).ok()
}

// A decimal text of up to 20 digits at once. Where that gives no value, `read` says why. The widest types come first, where less is to be tested.
pub fn read_short(kind: Kind, text: &[u8]) -> Option<u64>
    ensures { Told kind.signed kind.bits 0 text.now result }
{
    if text.len() == 0 {
        return None;
    }
    let found = find_short(text, kind.signed)?;
    let bits = kind.bits;
    if bits == 64 {
        return of_short(WordKind { kind }, found);
    }
    if !kinds::is_known(bits) {
        return None;
    }
    of_short(WordKind { kind }, found)
}

// A hex text of up to 16 digits at once.
fn short_hex(kind: Kind, case: Case, text: &[u8]) -> Option<u64>
    ensures { IfSome result (λ v. (known kind.bits ≡ true) × (0 < length text.now) × Judges (radix_form (digit_byte (letter_from case 97)) 16 kind.bits) kind.signed kind.bits text.now (Ok v)) }
{
    if text.len() == 0 {
        return None;
    }
    let value = find_hex(text, case)?;
    let bits = kind.bits;
    if bits == 64 {
        return of_pattern(WordKind { kind }, value).ok();
    }
    if !kinds::is_known(bits) {
        return None;
    }
    of_pattern(WordKind { kind }, value).ok()
}

// A short text in hex at once, as read_short; in the other formats nothing is said. By the number of the format, as `read`.
pub fn read_short_hex(kind: Kind, format: u32, text: &[u8]) -> Option<u64>
    ensures { Told kind.signed kind.bits format text.now result }
{
    let Ok(Format::Numeral(Numeral::Hex(case))) = Format::try_from(format) else {
        return None;
    };
    short_hex(kind, case, text)
}
