// The C edge: the entries that larguviet_c exports to the firmware in C and to the Rust oracle. A slice is a pointer and a length; an answer is two words.
// Flags, formats and alignments are numbers, and the end entry has a name for each type, since C calls them so.
#![tactic(auto)]

ghost use Rattle.std.specs.Prelude.{length};
ghost use Rattle.digits.specs.Text.{decimal, signed};
ghost use Rattle.decimal.specs.Ends.{EndPromise};
ghost use Rattle.kinds.specs.Kinds.{meaning};
ghost use Rattle.writing.specs.Text.{text_of};
ghost use Rattle.writing.specs.Promise.{answer, house};
ghost use Rattle.edge.specs.Edge.{set, options_from, Answers, Reads};

use decimal::Number;
use edge::Answer;
use kinds::Kind;
use writing::Options;

// The text of a value by type, format and options, at the start of out.
pub fn lgv_write(
    bits: u32,
    is_signed: u32,
    value: u64,
    format: u32,
    plus: u32,
    alternate: u32,
    zero: u32,
    fill: u32,
    align: u32,
    width: u16,
    has_precision: u32,
    precision: u16,
    out: &mut [u8],
) -> Answer
    ensures { Answers (text_of bits (meaning 64 (set is_signed) value) format (options_from plus alternate «zero» fill align width has_precision precision)) (answer (set is_signed) bits value format (options_from plus alternate «zero» fill align width has_precision precision) (length out.old)) out.old result.number result.value out.new }
{
    let kind = Kind {
        bits,
        signed: is_signed != 0,
    };
    let digits = edge::precision_from(has_precision, precision);
    let options = Options {
        plus: plus != 0,
        alternate: alternate != 0,
        zero: zero != 0,
        fill,
        align,
        width,
        precision: digits,
    };
    Answer::from(writer::write(kind, value, format, options, out))
}

// The same at the house default.
pub fn lgv_write_short(bits: u32, is_signed: u32, value: u64, format: u32, out: &mut [u8]) -> Answer
    ensures { Answers (text_of bits (meaning 64 (set is_signed) value) format house) (answer (set is_signed) bits value format house (length out.old)) out.old result.number result.value out.new }
{
    let kind = Kind {
        bits,
        signed: is_signed != 0,
    };
    Answer::from(writer::write_short(kind, value, format, out))
}

// A plain text back to its value. What most calls hand over, a short decimal text, is read at once; its answer stays in registers,
// since those of read_any are copied out of memory only where it is called.
pub fn lgv_read(bits: u32, is_signed: u32, format: u32, text: &[u8]) -> Answer
    ensures { Reads (set is_signed) bits format text.now result.number result.value }
{
    let kind = Kind {
        bits,
        signed: is_signed != 0,
    };
    if format == 0 {
        if let Some(value) = reader::read_short(kind, text) {
            return Answer { number: 0, value };
        }
        let any = edge::read_any(kind, format, text);
        return Answer {
            number: any.number,
            value: any.value,
        };
    }
    let any = edge::read_any(kind, format, text);
    Answer {
        number: any.number,
        value: any.value,
    }
}

// The decimal of a u64 at the end of out: where it starts, or out's length where it has no room and nothing is changed.
pub fn lgv_decimal_end_u64(value: u64, out: &mut [u8]) -> usize
    ensures { EndPromise (decimal value) out.old result out.new }
{
    u64::end_at(value, out)
}

// As lgv_decimal_end_u64, for an i64.
pub fn lgv_decimal_end_i64(value: i64, out: &mut [u8]) -> usize
    ensures { EndPromise (signed value) out.old result out.new }
{
    i64::end_at(value, out)
}
