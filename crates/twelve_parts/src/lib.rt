// The first so many of twelve parts by value, their length and their writing: for callers, as part_lines, that have an array of parts.
// A count beyond twelve takes them all.
#![tactic(auto)]

ghost use Rattle.std.specs.Prelude.{◌≡◌};
ghost use Rattle.part_answers.specs.Answers.{measured, Writes};
ghost use Rattle.twelve_parts.specs.Twelve.{first};

use part_answers::Refusal;
use parts::{Part, Sign};

// An array and a count: docs/PROMISES.md names both entries with them.
// The length over a source of so many bytes.
pub fn length(sign: Sign, list: [Part; 12], count: usize, source: usize) -> Result<u64, Refusal>
    ensures { result ≡ measured source sign (first count list) }
{
    part_scan::length(sign, &list[..count.min(12)], source)
}

// The text at the start of out, checked before the first byte is written.
pub fn write(
    sign: Sign,
    list: [Part; 12],
    count: usize,
    src: &[u8],
    out: &mut [u8],
) -> Result<u64, Refusal>
    ensures { Writes sign (first count list) src.now out.old result out.new }
{
    part_list::write(sign, &list[..count.min(12)], src, out)
}
