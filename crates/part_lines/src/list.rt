// The lines `l COUNT SOURCE SIGN [KIND A B ..] ROOM`: a list of 0 to 12 parts, each its kind and two numbers.
ghost use Rattle.std.specs.Prelude.{◌≤◌, IfSome};

use crate::row::{both, part, source};
use fields::answers;
use fields::held::held;
use fields::numbers::{Numbers, numbers};
use parts::{Part, Sign};
use std::io;
use std::io::Write;

// Puts parts of three numbers each, 12 at most, into the list; how many they are.
// An array and a count, as twelve_parts takes them.
#[inline(always)]
fn put_parts(numbers: &[u64], list: &mut [Part; 12]) -> Option<usize>
    ensures { IfSome result (λ listed. listed ≤ 12) }
{
    let (triples, rest) = numbers.as_chunks::<3>();
    if !rest.is_empty() {
        return None;
    }
    if 12 < triples.len() {
        return None;
    }
    for (place, [kind, a, b]) in list.iter_mut().zip(triples) {
        *place = part(*kind, *a, *b);
    }
    Some(triples.len())
}

// The length, and writing over a buffer of so many dots.
#[inline(always)]
pub fn answer<W: Write>(row: &[u8], out: &mut W) -> io::Result<()> {
    let mut space = Numbers::new();
    let Some([count, len, sign, parts @ .., size]) = numbers(row, &mut space) else {
        return answers::unknown(out);
    };
    let mut list = [part(0, 0, 0); 12];
    let Some(listed) = put_parts(parts, &mut list) else {
        return answers::unknown(out);
    };
    if listed as u64 != *count {
        return answers::unknown(out);
    }
    let sign = Sign::from(held::<u32>(*sign));
    let source = source(*len);
    let length = twelve_parts::length(sign, list, listed, source.len());
    // Lent to the closure, which would copy it.
    let lent = &list;
    both(length, *size, out, move |room| {
        twelve_parts::write(sign, *lent, listed, source, room)
    })
}
