// Plays lines of parts and writes the answer to each: what replay_parts and replay_lists share. No part of the archive.
// A line is one of these, and any other is answered by `?`:
//
//     p and 12 numbers      source sign, kind and two numbers for each of three parts, room: `NUMBER VALUE` of Formatted::length,
//                           and `NUMBER VALUE [BUFFER]` of Formatted::write
//     l and 4 to 40 numbers count source sign, kind and two numbers for each of so many parts, 12 at most, room: the same of
//                           twelve_parts::length and write
#![tactic(auto)]

use fields::output::Output;
use fields::{answers, lines};
use std::io::Write;

mod list;
mod row;
mod three;

#[inline(always)]
fn answer<W: Write>(line: &[u8], out: &mut W) -> std::io::Result<()> {
    match line {
        [b'p', _, row @ ..] => three::answer(row, out),
        [b'l', _, row @ ..] => list::answer(row, out),
        _ => answers::unknown(out),
    }
}

// Plays standard input. The output never fails: what it can't write it passes over.
// Not by player::run, which answers other lines, takes off labels, and has the edit line_played_for_ever.
pub fn run() {
    let mut space = lines::space();
    let n = io::read_full(0, &mut space);
    let lines = space[..n].split_inclusive(|byte| *byte == b'\n');
    let _ = lines::play(lines, &mut Output::new(), |line, out| answer(line, out));
}
