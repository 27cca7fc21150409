// A value of a type, to text: format and options, with every refusal before the first byte.
// Carries over the impls of Display, Binary, Octal, LowerHex, UpperHex, LowerExp and UpperExp, over the bits of a type.
#![tactic(auto)]

ghost use Rattle.std.specs.Prelude.{Option, true, false, ◌≡◌, ℕ, ◌<◌, ◌≤◌, length};
ghost use Rattle.kinds.specs.Values.{stands_for};
ghost use Rattle.writing.specs.Text.{framed, numeral, text_of};
ghost use Rattle.writing.specs.Promise.{Unframed, known_options, answer_of, Writes, Places};

use kinds::{Split, Value};
use writing::{Options, Refusal, Written};

// The format is document 01's number: the crate framing says why.
// The number whose digits a form other than the exponent form shows, and whether behind a minus: the magnitude in decimal, else the pattern at the type's own bits.
fn shown(value: Value, format: u32) -> Split
    requires { format ≤ 4 }
    ensures text { (o : Options) → text_of value.kind.bits (stands_for value) format o ≡ framed o result.negative format (numeral format result.magnitude) }
    ensures bare { (format ≡ 0 → ⊥) → result.negative ≡ false }
{
    if format == 0 {
        return value.kind.split_pattern(value.pattern);
    }
    Split {
        negative: false,
        magnitude: value.kind.own_pattern(value.pattern),
    }
}

// Hex with nothing around it, for who has told it from the other forms. The length, and in out where it has room.
pub fn write_hex(value: Value, format: u32, out: &mut [u8]) -> usize
    requires { (2 < format) × (format ≤ 4) }
    ensures { (o : Options) (p : Option ℕ) → Unframed o p → Places (text_of value.kind.bits (stands_for value) format o) out.old result out.new }
{
    let number = shown(value, format);
    framing::write_hex(format, number.magnitude, out)
}

// Decimal and radix with nothing around the digits but a minus: the way of most calls. The length, and in out where it has room.
pub fn write_plainly(value: Value, format: u32, out: &mut [u8]) -> usize
    requires { format ≤ 4 }
    ensures { (o : Options) (p : Option ℕ) → Unframed o p → Places (text_of value.kind.bits (stands_for value) format o) out.old result out.new }
{
    let number = shown(value, format);
    if 2 < format {
        return framing::write_hex(format, number.magnitude, out);
    }
    // Decimal apart, so that the compiler knows the format there.
    if format == 0 {
        return framing::write_bare(format, number.magnitude, number.negative, out);
    }
    framing::write_bare(format, number.magnitude, number.negative, out)
}

// The exponent form with nothing around it but a minus.
fn write_exponent_plainly(
    value: Value,
    format: u32,
    precision: Option<u16>,
    out: &mut [u8],
) -> Written
    requires { 4 < format }
    ensures { (o : Options) → Unframed o precision → known_options format o ≡ true → Writes (text_of value.kind.bits (stands_for value) format o) (answer_of value.kind.bits (stands_for value) format o (length out.old)) out.old result out.new }
{
    let split = value.kind.split_pattern(value.pattern);
    framed_exponents::write_bare_exponent(format, split.magnitude, split.negative, precision, out)
}

// With what the options put around the digits.
fn write_framed(value: Value, format: u32, options: Options, out: &mut [u8]) -> Written
    requires { known_options format options ≡ true }
    ensures { Writes (text_of value.kind.bits (stands_for value) format options) (answer_of value.kind.bits (stands_for value) format options (length out.old)) out.old result out.new }
{
    if format <= 4 {
        let number = shown(value, format);
        let room = out.len();
        let need = framing::write_framed(format, number.magnitude, number.negative, options, out);
        return writing::settle(need, room);
    }
    let split = value.kind.split_pattern(value.pattern);
    framed_exponents::write_framed_exponent(format, split.magnitude, split.negative, options, out)
}

// A value of a type: everything else is checked before the first byte is written.
pub fn write_value(value: Value, format: u32, options: Options, out: &mut [u8]) -> Written
    ensures { Writes (text_of value.kind.bits (stands_for value) format options) (answer_of value.kind.bits (stands_for value) format options (length out.old)) out.old result out.new }
{
    if !writing::options_known(format, options) {
        return Err(Refusal::Options);
    }
    if options.width != 0 || options.plus || options.alternate {
        return write_framed(value, format, options, out);
    }
    if format <= 4 {
        let room = out.len();
        return writing::settle(write_plainly(value, format, out), room);
    }
    write_exponent_plainly(value, format, options.precision, out)
}
