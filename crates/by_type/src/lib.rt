// The writer by type, the value by value: type and value need no check.
#![tactic(auto)]

ghost use Rattle.std.specs.Prelude.{length};
ghost use Rattle.writing.specs.Text.{text_of};
ghost use Rattle.writing.specs.Promise.{answer_of, Writes};

use kinds::{Integer, Value};
use writing::{Options, Written};

// A number of one of the eight types: at u8 the text is `text_of 8 (pos value) format options`, at i8 `text_of 8 value format options`.
// The format is document 01's number, as in writer: one that is none is refused as OPTIONS (`answer_of`).
pub fn write<T: Integer>(value: T, format: u32, options: Options, out: &mut [u8]) -> Written
    ensures { Writes (text_of T.KIND.bits (T.number value) format options) (answer_of T.KIND.bits (T.number value) format options (length out.old)) out.old result out.new }
{
    values::write_value(Value::from(value), format, options, out)
}
