// The answers to parts, part by part: of the length from the sign on, each from the answer for the parts before it, and of writing from that of the length.
#![tactic(auto)]

ghost use Rattle.std.specs.Prelude.{◌≡◌, List, [], ◌∷◌, ◌++◌, ℕ, ◌^◌, ◌<◌, length};
ghost use Rattle.part_answers.specs.Answers.{measured, wrote};

use part_answers::Refusal;
use parts::{Part, Sign};

// The answer for the sign, with no part yet.
pub fn scan_start(sign: Sign) -> Result<u64, Refusal>
    ensures { (n : ℕ) → result ≡ measured n sign [] }
{
    match sign {
        Sign::Unknown => Err(Refusal::Options),
        _ => Ok(sign.length()),
    }
}

// From the answer for the i parts so far to that for one part more.
pub fn scan_step(
    past: Result<u64, Refusal>,
    part: Part,
    i: usize,
    source: usize,
) -> Result<u64, Refusal>
    ensures { (sign : Sign) (ps : List Part) → i ≡ length ps → past ≡ measured source sign ps → result ≡ measured source sign (ps ++ (part ∷ [])) }
{
    if let Part::Unknown { .. } = part {
        return Err(Refusal::Options);
    }
    let sum = past?;
    if part.leaves(source) {
        return Err(Refusal::Part(i));
    }
    Ok(sum.saturating_add(part.length()))
}

// From the answer of the length to that of writing into so many bytes. The held sum suffices, since no buffer is as long.
pub fn judge(found: Result<u64, Refusal>, room: usize) -> Result<u64, Refusal>
    requires { room < 2 ^ 63 }
    ensures { (n : ℕ) (sign : Sign) (ps : List Part) → found ≡ measured n sign ps → result ≡ wrote n room sign ps }
{
    let need = found?;
    if (room as u64) < need {
        return Err(Refusal::NoRoom(need));
    }
    Ok(need)
}
