// The answer to a list of parts, of its length or of its writing: a length, or why there is none. Its number by document 01, and what it returns.
#![tactic(auto)]

ghost use Rattle.std.specs.Prelude.{◌≡◌};
ghost use Rattle.part_answers.specs.Answers.{number_of, value_of};

// A sign or a kind is unknown; the index of the first part that leaves its source; the length that has no room.
#[derive(Clone, Copy, Debug, PartialEq, Eq)]
pub enum Refusal {
    Options,
    Part(usize),
    NoRoom(u64),
}

// Document 01's number of an answer, and what it returns. A function for each of the three answers: docs/RULES.md names a definition for each.
pub fn number(answer: Result<u64, Refusal>) -> u32
    ensures { result ≡ number_of answer }
{
    match answer {
        Ok(_) => 0,
        Err(Refusal::Options) => 6,
        Err(Refusal::Part(_)) => 9,
        Err(Refusal::NoRoom(_)) => 8,
    }
}

pub fn value(answer: Result<u64, Refusal>) -> u64
    ensures { result ≡ value_of answer }
{
    match answer {
        Ok(n) => n,
        Err(Refusal::Options) => 0,
        Err(Refusal::Part(i)) => i as u64,
        Err(Refusal::NoRoom(need)) => need,
    }
}
