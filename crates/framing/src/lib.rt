// Digits with what the options put around them, laid out and checked for room before the first byte: the layout, and the plain forms.
// Carries over pad_integral of fmt/mod.rs, where it asks for the digits; `framed_exponents` has the exponent form.
#![tactic(auto)]

ghost use Rattle.std.specs.Prelude.{◌≡◌, List, ℕ, ◌-◌, ◌<◌, ◌≤◌, length};
ghost use Rattle.buffer.specs.AtEnd.{ended};
ghost use Rattle.digits.specs.Text.{text};
ghost use Rattle.radix.specs.Radix.{digit_byte};
ghost use Rattle.writing.specs.Text.{framed, unframed, numeral};
ghost use Rattle.writing.specs.Promise.{fitted, Places, Writes};
ghost use Rattle.framing.specs.Laid.{Laid, Around};

use padding::Pad;
use writing::{Options, Refusal, Written};

// How a text is laid out: its padding, where its digits end, and its whole length.
#[derive(Clone, Copy)]
pub struct Layout {
    pub pad: Pad,
    pub end: usize,
    pub need: usize,
}

// The layout of a text with so many digits.
pub fn lay_out(options: Options, negative: bool, format: u32, count: usize) -> Layout
    requires { count ≤ 131072 }
    ensures { (digits : List ℕ) → length digits ≡ count → Laid options negative format digits result }
{
    let sign = padding::sign_length(negative, options.plus);
    let prefix = padding::prefix_length(options.alternate, format);
    let len = sign + (prefix + count);
    let pad = padding::plan(options.zero, options.align, options.width, len);
    let end = pad.before + (sign + (prefix + pad.zeros)) + count;
    Layout {
        pad,
        end,
        need: end + pad.behind,
    }
}

// That the fill is one byte is asked here and of the two framed forms: Options are the caller's, and may have any number.
// What stands around so many digits, where out has room for the whole: fill behind them, and in front of them fill, sign, prefix and zeros.
pub fn put_around(
    options: Options,
    negative: bool,
    format: u32,
    count: usize,
    out: &mut [u8],
) -> Result<Layout, Refusal>
    requires { (options.fill ≤ 126) × (count ≤ 131072) }
    ensures { (digits : List ℕ) → length digits ≡ count → Around (framed options negative format digits) digits out.old result out.new }
{
    let layout = lay_out(options, negative, format, count);
    if out.len() < layout.need {
        return Err(Refusal::NoRoom(layout.need));
    }
    let pad = layout.pad;
    let fill = options.fill as u8;
    buffer::fill(fill, pad.behind, out, layout.need);
    padding::put_front(
        pad,
        fill,
        negative,
        options.plus,
        options.alternate,
        format,
        out,
        layout.end - count,
    );
    Ok(layout)
}

// The format is document 01's number, here and in padding, framed_exponents and values: with the types of the crate formats in its place (tried, proved)
// lgv_write took 105 instructions more under options, and 33 without; and docs/ name write_hex and write_framed, which answer to every number.
// How many digits a form of a number has.
fn count_digits(format: u32, n: u64) -> usize
    ensures { result ≡ length (numeral format n) }
{
    if format == 0 {
        return digits::digit_count(n);
    }
    radix::count(format, n)
}

// Not by framed_exponents::letter_of, nor formats::Case: the letters are others, and the format is a number here (below).
// The first letter of a hex form.
fn hex_letter(format: u32) -> u8
    requires { 2 < format }
    ensures { (57 < result) × (result ≤ 250) × ((n : ℕ) → numeral format n ≡ text (digit_byte result) 16 n) }
{
    if format == 3 {
        return b'a';
    }
    b'A'
}

// A length and no Result, as in write_bare: the answer is made once, above (`writing::settle`).
// Hex digits alone: their length, and in out where they have room. The one place where hex is written, so that the compiler writes it out here.
pub fn write_hex(format: u32, n: u64, out: &mut [u8]) -> usize
    requires { 2 < format }
    ensures { Places (numeral format n) out.old result out.new }
{
    let letter = hex_letter(format);
    let len = hex_digits::count(n);
    if out.len() < len {
        return len;
    }
    hex_digits::write(letter, n, len, out, len)
}

// The digits of a radix form, so many as were counted, just before end. A function of its own, so that decimal's way saves no registers for it; written out in `write_digits` it cost a short decimal four instructions.
#[inline(never)]
fn write_radix(format: u32, n: u64, count: usize, out: &mut [u8], end: usize)
    requires { (1 ≤ format) × (count ≡ length (numeral format n)) × (count ≤ end) × (end ≤ length out.old) }
    ensures { out.new ≡ ended out.old end (numeral format n) }
{
    match format {
        1 => {
            radix::counted_binary(n, count, out, end);
        }
        2 => {
            radix::counted_octal(n, count, out, end);
        }
        _ => {
            write_hex(format, n, &mut out[end - count..end]);
        }
    }
}

// The end travels beside the buffer, as in all crates of writers: the crate buffer says why.
// The digits, so many as were counted, just before end.
fn write_digits(format: u32, n: u64, count: usize, out: &mut [u8], end: usize)
    requires { (count ≡ length (numeral format n)) × (count ≤ end) × (end ≤ length out.old) }
    ensures { out.new ≡ ended out.old end (numeral format n) }
{
    if format == 0 {
        decimal::write_before(n, out, end);
        return;
    }
    write_radix(format, n, count, out, end);
}

// Digits with nothing around them but a minus: their length, and in out where they have room. One function for all that call it, as `write_radix` is.
#[inline(never)]
pub fn write_bare(format: u32, n: u64, negative: bool, out: &mut [u8]) -> usize
    ensures { Places (unframed negative (numeral format n)) out.old result out.new }
{
    let count = count_digits(format, n);
    if negative {
        let need = count + 1;
        if out.len() < need {
            return need;
        }
        out[0] = b'-';
        write_digits(format, n, count, out, need);
        return need;
    }
    if out.len() < count {
        return count;
    }
    write_digits(format, n, count, out, count);
    count
}

// Digits with what the options put around them, told as an answer: the whole length, or that it has no room.
pub fn fit_framed(format: u32, n: u64, negative: bool, options: Options, out: &mut [u8]) -> Written
    requires { options.fill ≤ 126 }
    ensures { Writes (framed options negative format (numeral format n)) (fitted (framed options negative format (numeral format n)) (length out.old)) out.old result out.new }
{
    let count = count_digits(format, n);
    let layout = put_around(options, negative, format, count, out)?;
    write_digits(format, n, count, out, layout.end);
    Ok(layout.need)
}

// The same without a refusal: the whole length, and in out where that has room.
pub fn write_framed(format: u32, n: u64, negative: bool, options: Options, out: &mut [u8]) -> usize
    requires { options.fill ≤ 126 }
    ensures { Places (framed options negative format (numeral format n)) out.old result out.new }
{
    writing::value(fit_framed(format, n, negative, options, out))
}
