// Document 01's reading trials at the edges, the rules of reading clause by clause, and the refusals in their order.
// A row of standard input is `r BITS SIGNED FORMAT TEXT`, the text up to the line's end, and answered by `NUMBER VALUE` of reader::read:
// the value as a 64-bit pattern. A row with no text reads the empty one. `LABEL|ROW` has `LABEL: ` in front of the answer, and `# ..` is
// a heading. The file stdout is written by hand from the document, never from what this program writes.
#![tactic(auto)]

use fields::held::held;
use fields::lines::split_once;
use fields::numbers::number;
use fields::output::Output;
use fields::{answers, lines};
use kinds::Kind;
use outcomes::Outcome;
use std::io::Write;

// The text behind three numbers, read as they say: nothing where they are no three numbers.
#[inline(always)]
fn read(row: &[u8]) -> Option<Outcome> {
    let (bits, rest) = split_once(row, b' ')?;
    let (signed, rest) = split_once(rest, b' ')?;
    let (format, text) = split_once(rest, b' ').unwrap_or((rest, &[]));
    let kind = Kind {
        bits: held(number(bits)?),
        signed: number(signed)? != 0,
    };
    Some(reader::read(kind, held(number(format)?), text))
}

#[inline(always)]
fn answer_row<W: Write>(row: &[u8], out: &mut W) -> std::io::Result<()> {
    match read(row) {
        Some(outcome) => answers::pair(
            out,
            outcomes::number(outcome) as u64,
            outcomes::value(outcome),
        ),
        None => answers::unknown(out),
    }
}

#[inline(always)]
fn answer<W: Write>(line: &[u8], out: &mut W) -> std::io::Result<()> {
    match line {
        [b'r', _, row @ ..] => answer_row(row, out),
        [b'#', _, ..] => out.write_all(line),
        _ => answers::unknown(out),
    }
}

// Not by `player::run`, which answers other rows, and whose lines the edit line_played_for_ever turns.
fn main() {
    let mut space = lines::space();
    let n = io::read_full(0, &mut space);
    let lines = space[..n].split_inclusive(|byte| *byte == b'\n');
    let _ = lines::play(
        lines,
        &mut Output::new(),
        |line, out| answer(lines::past_label(line, out)?, out),
    );
}
