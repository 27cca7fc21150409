// Decimal: the fast form by size class, and the end entries. A short buffer takes the plain form, which has the same contract, and so the same bytes.
#![tactic(auto)]

ghost use Rattle.std.specs.Prelude.{List, ℕ, ◌≡◌, ◌+◌, ◌-◌, ◌≤◌, leb, length};
ghost use Rattle.buffer.specs.AtEnd.{ended};
ghost use Rattle.digits.specs.Text.{decimal, signed};
ghost use Rattle.decimal.specs.Ends.{EndPromise, end_start, end_part};

use kinds::Integer;

// The decimal text of n just before the index end, eight digits at a time. The answer is where it starts.
// The end travels beside the buffer, as in all crates of writers: the crate buffer says why.
pub fn write_before(n: u64, buf: &mut [u8], end: usize) -> usize
    requires { (length (decimal n) ≤ end) × (end ≤ length buf.old) }
    ensures { (result ≡ end - length (decimal n)) × (buf.new ≡ ended buf.old end (decimal n)) }
{
    classes::write_before(n, buf, end)
}

// Whether the decimal text of n is at most room bytes long: one comparison with a power of ten, none where 20 bytes are there.
#[tactic(auto, using(crate::proofs::Room::room_for_any))]
fn has_room(n: u64, room: usize) -> bool
    ensures { result ≡ leb (length (decimal n)) room }
{
    if 20 <= room {
        return true;
    }
    if room == 0 {
        return false;
    }
    n < digits::power(room)
}

// A whole number with its decimal text: u64 and i64.
pub trait Number: Copy {
    ghost text: { Self → List ℕ };

    // The end entry: where the text starts at the end of out, or out's length where it has no room. A place and no Option: `EndPromise` and C have it so.
    fn end_at(self, out: &mut [u8]) -> usize
        ensures { EndPromise (text self) out.old result out.new };
}

impl Number for u64 {
    ghost text = { decimal };

    fn end_at(self, out: &mut [u8]) -> usize {
        let end = out.len();
        if 20 <= end {
            return write_before(self, out, end);
        }
        if has_room(self, end) {
            return pairs::write_pairs_before(self, out, end);
        }
        end
    }
}

// A minus in front of the magnitude of a negative.
impl Number for i64 {
    ghost text = { signed };

    fn end_at(self, out: &mut [u8]) -> usize {
        let end = out.len();
        let split = self.split();
        if split.negative {
            if end == 0 {
                return end;
            }
            // The first byte is kept for the minus: what has room behind it has room with it.
            let at = split.magnitude.end_at(&mut out[1..]);
            if at == end - 1 {
                return end;
            }
            out[at] = b'-';
            return at;
        }
        split.magnitude.end_at(out)
    }
}

// The end part of the caller's own buffer that holds the text of the value; the empty part at the end where it has no room.
// Of the bytes in front it can promise nothing, since the part takes the place of out: end_at does.
pub fn end_slice<'a, N: Number>(value: N, out: &'a mut [u8]) -> &'a mut [u8]
    ensures { (result.now ≡ end_part (length out.old) (N.text value)) × (result.ref_ptr.0 ≡ out.entry.ref_ptr.0) × (result.ref_ptr.1 ≡ end_start (length out.old) (N.text value) + out.entry.ref_ptr.1) }
{
    let at = value.end_at(out);
    &mut out[at..]
}
