// Plays lines of input and writes the answer to each: what the programs replay, trials and trials_write share. No part of the archive.
// A line is one of these, and any other is answered by `?`:
//
//     u VALUE, i PATTERN    the plain decimal of a 64-bit number, by the end entries
//     the same and a room   `LENGTH [PART] [BUFFER]` of the part that is handed back, over a buffer of so many dots, 24 at most
//     12 numbers            bits signed value format plus alternate zero fill align width given precision: the text by writer::write,
//                           or `! NUMBER VALUE` of a refusal
//     13 numbers            the same, with the room at the end: `NUMBER VALUE [BUFFER]`, over a buffer of so many dots
//     t and 13 numbers      the same by the type's own entry, write_u8 to write_i64
//     s and 5 numbers       bits signed value format room: the same by write_short
//     LABEL|LINE            `LABEL: ` and the answer to LINE
//     # ..                  a heading, which is written as it is
#![tactic(auto)]

use fields::output::Output;
use fields::{answers, lines};
use std::io::Write;

mod plain;
mod typed;

#[inline(always)]
fn answer<W: Write>(line: &[u8], out: &mut W) -> std::io::Result<()> {
    match line {
        // No line says anything in so few.
        [] | [_] => answers::unknown(out),
        [b'u', b' ', row @ ..] => plain::answer(row, false, out),
        [b'i', b' ', row @ ..] => plain::answer(row, true, out),
        [b't', b' ', row @ ..] => typed::answer(row, out),
        [b's', b' ', row @ ..] => write_lines::answer_short(row, out),
        [b'#', b' ', ..] => out.write_all(line),
        _ => write_lines::answer(line, out),
    }
}

// Plays standard input. The output never fails: what it can't write it passes over.
pub fn run() {
    let mut space = lines::space();
    let n = io::read_full(0, &mut space);
    let lines = space[..n].split_inclusive(|byte| *byte == b'\n');
    let _ = lines::play(
        lines,
        &mut Output::new(),
        |line, out| answer(lines::past_label(line, out)?, out),
    );
}
