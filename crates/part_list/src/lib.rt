// A list of parts of any length, lent as a slice: its text, once the whole list is judged.
// Carries over write of Formatted of num/imp/fmt.rs, whose parts are such a slice: the length is part_scan's, the judgement part_steps',
// the writing part_walk's.
#![tactic(auto)]

ghost use Rattle.part_answers.specs.Answers.{Writes};

use part_answers::Refusal;
use parts::{Part, Sign};

// The text at the start of out. The whole list is checked before the first byte is written.
pub fn write(sign: Sign, list: &[Part], src: &[u8], out: &mut [u8]) -> Result<u64, Refusal>
    ensures { Writes sign list.now src.now out.old result out.new }
{
    let need = part_steps::judge(part_scan::length(sign, list, src.len()), out.len())?;
    part_walk::write_before(sign, list, src, out, need as usize);
    Ok(need)
}
