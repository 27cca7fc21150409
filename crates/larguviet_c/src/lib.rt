// The archive's exports: what the firmware in C calls, by the names of include/larguviet.h. Each is larguviet's entry of that name, with its promise.
// Numbers for flags and formats, and a name for each type, are the C interface.
#![tactic(auto)]

ghost use Rattle.std.specs.Prelude.{length};
ghost use Rattle.digits.specs.Text.{decimal, signed};
ghost use Rattle.decimal.specs.Ends.{EndPromise};
ghost use Rattle.kinds.specs.Kinds.{meaning};
ghost use Rattle.writing.specs.Text.{text_of};
ghost use Rattle.writing.specs.Promise.{answer, house};
ghost use Rattle.edge.specs.Edge.{set, options_from, Answers, Reads};

use edge::Answer;

#[unsafe(no_mangle)]
pub extern "C" fn lgv_write(
    bits: u32,
    is_signed: u32,
    value: u64,
    format: u32,
    plus: u32,
    alternate: u32,
    zero: u32,
    fill: u32,
    align: u32,
    width: u16,
    has_precision: u32,
    precision: u16,
    out: &mut [u8],
) -> Answer
    ensures { Answers (text_of bits (meaning 64 (set is_signed) value) format (options_from plus alternate «zero» fill align width has_precision precision)) (answer (set is_signed) bits value format (options_from plus alternate «zero» fill align width has_precision precision) (length out.old)) out.old result.number result.value out.new }
{
    larguviet::lgv_write(
        bits,
        is_signed,
        value,
        format,
        plus,
        alternate,
        zero,
        fill,
        align,
        width,
        has_precision,
        precision,
        out,
    )
}

#[unsafe(no_mangle)]
pub extern "C" fn lgv_write_short(
    bits: u32,
    is_signed: u32,
    value: u64,
    format: u32,
    out: &mut [u8],
) -> Answer
    ensures { Answers (text_of bits (meaning 64 (set is_signed) value) format house) (answer (set is_signed) bits value format house (length out.old)) out.old result.number result.value out.new }
{
    larguviet::lgv_write_short(bits, is_signed, value, format, out)
}

#[unsafe(no_mangle)]
pub extern "C" fn lgv_read(bits: u32, is_signed: u32, format: u32, text: &[u8]) -> Answer
    ensures { Reads (set is_signed) bits format text.now result.number result.value }
{
    larguviet::lgv_read(bits, is_signed, format, text)
}

#[unsafe(no_mangle)]
pub extern "C" fn lgv_decimal_end_u64(value: u64, out: &mut [u8]) -> usize
    ensures { EndPromise (decimal value) out.old result out.new }
{
    larguviet::lgv_decimal_end_u64(value, out)
}

#[unsafe(no_mangle)]
pub extern "C" fn lgv_decimal_end_i64(value: i64, out: &mut [u8]) -> usize
    ensures { EndPromise (signed value) out.old result out.new }
{
    larguviet::lgv_decimal_end_i64(value, out)
}
