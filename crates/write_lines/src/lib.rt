// The lines of 12 and 13 numbers, a call of writer::write with all its fields, and those behind `s`, the short form. What they are stands
// at the head of crates/player, which plays them. No part of the archive.
#![tactic(auto)]

use fields::answers;
use fields::held::held;
use fields::numbers::{Numbers, exactly, numbers};
use kinds::Kind;
use std::io;
use std::io::Write;
use writing::{Options, Written};

// A call of writer::write, but for its room.
#[derive(Clone, Copy)]
pub struct Call {
    pub kind: Kind,
    pub value: u64,
    // A number of the line, as the entry takes it.
    pub format: u32,
    pub options: Options,
}

impl Call {
    // The call of 12 or 13 numbers, and of 13 its room.
    #[inline(always)]
    pub fn of(row: &[u8]) -> Option<(Call, Option<u64>)> {
        let mut space = Numbers::new();
        let (call, rest) = numbers(row, &mut space)?.split_first_chunk::<12>()?;
        let room = match rest {
            [] => None,
            [room] => Some(*room),
            _ => return None,
        };
        Some((Call::from(*call), room))
    }
}

impl From<[u64; 12]> for Call {
    fn from(numbers: [u64; 12]) -> Call {
        let [
            bits,
            signed,
            value,
            format,
            plus,
            alternate,
            zero,
            fill,
            align,
            width,
            given,
            digits,
        ] = numbers;
        Call {
            kind: kind(bits, signed),
            value,
            format: held(format),
            options: Options {
                plus: plus != 0,
                alternate: alternate != 0,
                zero: zero != 0,
                fill: held(fill),
                align: held(align),
                width: held(width),
                precision: precision(given, digits),
            },
        }
    }
}

fn kind(bits: u64, signed: u64) -> Kind {
    Kind {
        bits: held(bits),
        signed: signed != 0,
    }
}

fn precision(given: u64, digits: u64) -> Option<u16> {
    (given != 0).then_some(held(digits))
}

fn write(call: Call, room: &mut [u8]) -> Written {
    writer::write(call.kind, call.value, call.format, call.options, room)
}

// `NUMBER VALUE`.
#[inline(always)]
fn told<W: Write>(written: Written, out: &mut W) -> io::Result<()> {
    answers::pair(
        out,
        writing::number(written),
        writing::value(written) as u64,
    )
}

// The text into room that suffices, or `! NUMBER VALUE` of a refusal.
#[inline(always)]
fn text<W: Write>(call: Call, out: &mut W) -> io::Result<()> {
    let mut space = [b'.'; 512];
    let written = write(call, &mut space);
    let Ok(length) = written else {
        out.write_all(b"! ")?;
        return told(written, out);
    };
    let n = space.len().min(length);
    out.write_all(&space[..n])
}

// What is written over a buffer of so many dots, 512 at most: `NUMBER VALUE [BUFFER]`.
#[inline(always)]
pub fn over<W, F>(size: u64, out: &mut W, write: F) -> io::Result<()>
where
    W: Write,
    F: FnOnce(&mut [u8]) -> Written,
    requires { F.IsAlwaysCallable write }
{
    let mut space = [b'.'; 512];
    let n = space.len().min(size as usize);
    let room = &mut space[..n];
    told(write(room), out)?;
    answers::buffer(out, room)
}

// The lines of 12 and 13 numbers.
#[inline(always)]
pub fn answer<W: Write>(line: &[u8], out: &mut W) -> io::Result<()> {
    match Call::of(line) {
        Some((call, None)) => text(call, out),
        Some((call, Some(size))) => over(size, out, move |room| write(call, room)),
        None => answers::unknown(out),
    }
}

// The short form: bits signed value format room.
#[inline(always)]
pub fn answer_short<W: Write>(row: &[u8], out: &mut W) -> io::Result<()> {
    let Some(numbers) = exactly(row) else {
        return answers::unknown(out);
    };
    let [bits, signed, value, format, size]: [u64; 5] = numbers;
    over(size, out, move |room| {
        writer::write_short(kind(bits, signed), value, held(format), room)
    })
}
