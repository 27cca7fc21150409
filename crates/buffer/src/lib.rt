// Where a text stands in a lent buffer: definitions and laws, which the writers of every layer share, and the two leaves that write a run.
// All writers take the buffer whole and an end beside it, and not a part that is lent up to the end: a writer puts several texts before one another
// in one buffer, so it has each end as a number anyway, and would owe at each text a lemma that joins the bytes behind it on again (padding `put_front`).
#![tactic(auto)]

ghost use Rattle.std.specs.Prelude.{◌≡◌, ◌+◌, ◌≤◌, length, replicate, take, drop};
ghost use Rattle.buffer.specs.AtEnd.{ended};

// So many copies of a byte, just before end.
pub fn fill(byte: u8, count: usize, buf: &mut [u8], end: usize)
    requires { (count ≤ end) × (end ≤ length buf.old) }
    ensures { buf.new ≡ ended buf.old end (replicate count byte) }
{
    buf[end - count..end].fill(byte);
}

// The run of len bytes of a source that begins at the index from, just before end.
pub fn copy(src: &[u8], from: usize, len: usize, buf: &mut [u8], end: usize)
    requires { (from + len ≤ length src.now) × (len ≤ end) × (end ≤ length buf.old) }
    ensures { buf.new ≡ ended buf.old end (take len (drop from src.now)) }
{
    buf[end - len..end].copy_from_slice(&src[from..from + len]);
}
