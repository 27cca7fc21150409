// The text of a list of parts, lent as a slice of any length, written from its last part to its first, with no check.
// Carries over the loop of write of Formatted of num/imp/fmt.rs. Each turn is a step of parts.
#![tactic(auto)]

ghost use Rattle.std.specs.Prelude.{◌≡◌, ◌-◌, ◌≤◌, length};
ghost use Rattle.buffer.specs.AtEnd.{ended};
ghost use Rattle.parts.specs.Parts.{text_of, Inside, true_length};

use parts::{Part, Sign};

// The text just before end: for a caller who has made all checks. Its start is handed back.
// The end travels beside the buffer, as in all crates of writers: the crate buffer says why.
pub fn write_before(sign: Sign, list: &[Part], src: &[u8], out: &mut [u8], end: usize) -> usize
    requires { Inside (length src.now) list.now × (true_length sign list.now ≤ end) × (end ≤ length out.old) }
    ensures { (result ≡ end - true_length sign list.now) × (out.new ≡ ended out.old end (text_of sign src.now list.now)) }
{
    let mut at = end;
    for part in list.iter().rev() {
        at = part.write_before(src, out, at);
    }
    sign.write_before(out, at)
}
