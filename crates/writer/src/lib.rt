// The public writer: a number to text by type, format and options, as one 64-bit core that judges type and value first, and its short form.
// The format comes as a number: both promise to refuse one that is none as OPTIONS (`answer`; the edit `short_call_without_a_format`).
#![tactic(auto)]

ghost use Rattle.std.specs.Prelude.{length};
ghost use Rattle.kinds.specs.Kinds.{meaning};
ghost use Rattle.writing.specs.Text.{text_of};
ghost use Rattle.writing.specs.Promise.{house, answer, Writes};

use kinds::{Kind, Value};
use writing::{Options, Refusal, Written};

// The 64-bit core: the value comes as a two's complement pattern, of an unsigned type as an unsigned number.
pub fn write(kind: Kind, value: u64, format: u32, options: Options, out: &mut [u8]) -> Written
    ensures { Writes (text_of kind.bits (meaning 64 kind.signed value) format options) (answer kind.signed kind.bits value format options (length out.old)) out.old result out.new }
{
    let value = Value::judge(kind, value)?;
    values::write_value(value, format, options, out)
}

// At the house default.
#[tactic(auto, using(crate::proofs::Short::short_refused))]
pub fn write_short(kind: Kind, value: u64, format: u32, out: &mut [u8]) -> Written
    ensures { Writes (text_of kind.bits (meaning 64 kind.signed value) format house) (answer kind.signed kind.bits value format house (length out.old)) out.old result out.new }
{
    let value = Value::judge(kind, value)?;
    let room = out.len();
    if format <= 2 {
        let need = values::write_plainly(value, format, out);
        return writing::settle(need, room);
    }
    // Hex at once: on the way of the others it would cost a tenth more.
    if format <= 4 {
        let need = values::write_hex(value, format, out);
        return writing::settle(need, room);
    }
    if 6 < format {
        return Err(Refusal::Options);
    }
    let split = value.kind.split_pattern(value.pattern);
    let need = framed_exponents::write_bare_in_full(format, split.magnitude, split.negative, out);
    writing::settle(need, room)
}
