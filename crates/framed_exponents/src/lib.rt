// The exponent form with what is around it, a minus alone or all that the options ask for, checked for room before the first byte.
// Carries over pad_formatted_parts of fmt/mod.rs, where the exponent form asks for it.
#![tactic(auto)]

ghost use Rattle.std.specs.Prelude.{None, ◌≡◌, ◌≤◌, length};
ghost use Rattle.exponent.specs.Coefficient.{Sized, scaled_text};
ghost use Rattle.scientific.specs.Sci.{sci};
ghost use Rattle.scientific.specs.Layout.{exp_text};
ghost use Rattle.writing.specs.Text.{exponent_letter, framed, unframed};
ghost use Rattle.writing.specs.Promise.{kept_answer, exponent_answer, Writes, Places};

use scaling::Scaled;
use writing::{Options, Refusal, Written};

// The format is document 01's number: the crate framing says why.
// The letter of an exponent form.
fn letter_of(format: u32) -> u8
    ensures { result ≡ exponent_letter format }
{
    if format == 5 {
        return b'e';
    }
    b'E'
}

// What was scaled, with nothing around it but a minus: its length, and in out where it has room. No scratch.
// The steps of framing::write_bare around another writer: a function that takes the writer would hide from the compiler which it is.
fn write_scaled(format: u32, scaled: Scaled, negative: bool, out: &mut [u8]) -> usize
    requires { Sized scaled }
    ensures { Places (unframed negative (scaled_text (exponent_letter format) scaled)) out.old result out.new }
{
    let size = exponent::size(scaled);
    if negative {
        let need = size + 1;
        if out.len() < need {
            return need;
        }
        exponent::write_at(scaled, letter_of(format), out, 1);
        out[0] = b'-';
        return need;
    }
    if out.len() < size {
        return size;
    }
    exponent::write_at(scaled, letter_of(format), out, 0);
    size
}

// The exponent form without precision, with nothing around it but a minus. No magnitude of 64 bits has an exponent of three digits: there is no refusal but NO_ROOM.
pub fn write_bare_in_full(format: u32, n: u64, negative: bool, out: &mut [u8]) -> usize
    ensures { ((sci None n).expo ≤ 99) × Places (unframed negative (exp_text (exponent_letter format) None n)) out.old result out.new }
{
    write_scaled(format, scaling::in_full(n), negative, out)
}

// The exponent form with nothing around it but a minus.
pub fn write_bare_exponent(
    format: u32,
    n: u64,
    negative: bool,
    precision: Option<u16>,
    out: &mut [u8],
) -> Written
    ensures { Writes (unframed negative (exp_text (exponent_letter format) precision n)) (kept_answer precision n (unframed negative (exp_text (exponent_letter format) precision n)) (length out.old)) out.old result out.new }
{
    let room = out.len();
    let Some(_) = precision else {
        return writing::settle(write_bare_in_full(format, n, negative, out), room);
    };
    let scaled = scaling::scale(n, precision);
    if 99 < scaled.exp {
        return Err(Refusal::Exponent);
    }
    writing::settle(write_scaled(format, scaled, negative, out), room)
}

// The exponent form with what the options put around it: three parts over a scratch of 24 bytes.
pub fn write_framed_exponent(
    format: u32,
    n: u64,
    negative: bool,
    options: Options,
    out: &mut [u8],
) -> Written
    requires { options.fill ≤ 126 }
    ensures { Writes (framed options negative format (exp_text (exponent_letter format) options.precision n)) (exponent_answer options negative format n (length out.old)) out.old result out.new }
{
    let mut scratch = [0u8; 24];
    let shown = exponent::formatted(n, letter_of(format), options.precision, &mut scratch);
    let Some(parts) = shown else {
        return Err(Refusal::Exponent);
    };
    let layout = framing::put_around(options, negative, format, parts.size(), out)?;
    parts.write_before(&scratch, out, layout.end);
    Ok(layout.need)
}
