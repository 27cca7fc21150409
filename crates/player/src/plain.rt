// The lines `u VALUE` and `i PATTERN`, and the same with a room: the plain decimal, by the end entries.
use decimal::Number;
use fields::answers;
use fields::numbers::{Numbers, numbers};
use std::io;
use std::io::Write;

#[inline(always)]
fn text<N: Number, W: Write>(value: N, out: &mut W) -> io::Result<()> {
    let mut space = [0u8; 20];
    let at = value.end_at(&mut space);
    out.write_all(&space[at..])
}

// The length of the part that is handed back, the part, and the whole buffer, whose bytes in front of the part no contract can name.
#[inline(always)]
fn part<N: Number, W: Write>(value: N, size: u64, out: &mut W) -> io::Result<()> {
    let mut space = [b'.'; 24];
    let n = space.len().min(size as usize);
    let room = &mut space[..n];
    let part = decimal::end_slice(value, room);
    answers::number(out, part.len() as u64)?;
    answers::buffer(out, part)?;
    answers::buffer(out, room)
}

#[inline(always)]
fn shown<N: Number, W: Write>(value: N, room: Option<u64>, out: &mut W) -> io::Result<()> {
    match room {
        None => text(value, out),
        Some(size) => part(value, size, out),
    }
}

#[inline(always)]
pub fn answer<W: Write>(row: &[u8], signed: bool, out: &mut W) -> io::Result<()> {
    let mut space = Numbers::new();
    let (value, room) = match numbers(row, &mut space) {
        Some([value]) => (*value, None),
        Some([value, size]) => (*value, Some(*size)),
        _ => return answers::unknown(out),
    };
    if signed {
        shown(value.cast_signed(), room, out)
    } else {
        shown(value, room, out)
    }
}
