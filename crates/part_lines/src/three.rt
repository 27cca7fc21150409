// The lines `p` and 12 numbers: the length of the source, the sign code, the kind and two numbers of each of three parts, the room.
use crate::row::{both, part, source};
use fields::answers;
use fields::held::held;
use fields::numbers::exactly;
use formatted::Formatted;
use parts::Sign;
use std::io;
use std::io::Write;

// The length, and writing over a buffer of so many dots.
#[inline(always)]
pub fn answer<W: Write>(row: &[u8], out: &mut W) -> io::Result<()> {
    let Some(numbers) = exactly(row) else {
        return answers::unknown(out);
    };
    let [len, sign, first, a, b, second, c, d, third, e, f, size]: [u64; 12] = numbers;
    let formatted = Formatted {
        sign: Sign::from(held::<u32>(sign)),
        first: part(first, a, b),
        second: part(second, c, d),
        third: part(third, e, f),
    };
    let source = source(len);
    let length = formatted.length(source.len());
    both(length, size, out, move |room| formatted.write(source, room))
}
