// The length of a list of parts, lent as a slice of any length.
// Carries over len of Formatted of num/imp/fmt.rs, whose parts are such a slice. Each turn is a step of part_steps.
#![tactic(auto)]

ghost use Rattle.std.specs.Prelude.{◌≡◌};
ghost use Rattle.part_answers.specs.Answers.{measured};

use part_answers::Refusal;
use parts::{Part, Sign};

// The length over a source of so many bytes.
pub fn length(sign: Sign, list: &[Part], source: usize) -> Result<u64, Refusal>
    ensures { result ≡ measured source sign list.now }
{
    let mut past = part_steps::scan_start(sign);
    for (i, part) in list.iter().enumerate() {
        past = part_steps::scan_step(past, *part, i, source);
    }
    past
}
