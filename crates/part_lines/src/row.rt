// What the lines of three parts and of a list have in common.
use fields::answers;
use fields::held::held;
use part_answers::Refusal;
use parts::Part;
use std::io;
use std::io::Write;

// What the parts copy from.
const SOURCE: [u8; 26] = *b"abcdefghijklmnopqrstuvwxyz";

// The source, as far as the line says.
pub fn source(len: u64) -> &'static [u8] {
    let n = SOURCE.len().min(len as usize);
    &SOURCE[..n]
}

// The two numbers are how many zeros, a number, or start and length of the copied run; what a kind does not use is not read.
// The kind is a number of the line.
pub fn part(kind: u64, a: u64, b: u64) -> Part {
    Part::of_kind(held(kind), held(a), a, a, b)
}

// `NUMBER VALUE` of an answer.
#[inline(always)]
fn told<W: Write>(answer: Result<u64, Refusal>, out: &mut W) -> io::Result<()> {
    answers::pair(
        out,
        part_answers::number(answer) as u64,
        part_answers::value(answer),
    )
}

// `NUMBER VALUE` of the length, and `NUMBER VALUE [BUFFER]` of what is written over a buffer of so many dots, 512 at most.
#[inline(always)]
pub fn both<W, F>(length: Result<u64, Refusal>, size: u64, out: &mut W, write: F) -> io::Result<()>
where
    W: Write,
    F: FnOnce(&mut [u8]) -> Result<u64, Refusal>,
    requires { F.IsAlwaysCallable write }
{
    let mut space = [b'.'; 512];
    let n = space.len().min(size as usize);
    let room = &mut space[..n];
    let wrote = write(room);
    told(length, out)?;
    out.write_all(b" ")?;
    told(wrote, out)?;
    answers::buffer(out, room)
}
