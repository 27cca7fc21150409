// What reading answers, and the answer for a value that was read.
#![tactic(auto)]

ghost use Rattle.std.specs.Prelude.{◌≡◌, true, ◌≤◌, ◌<◌};
ghost use Rattle.reading.specs.Formats.{whole};
ghost use Rattle.outcomes.specs.Outcomes.{fault_number, fault_value, number_of, value_of, value_outcome, pattern_outcome};
ghost use Rattle.outcomes.specs.Found.{SplitOf};

use kinds::{Kind, Split};

// Why a text has no value, in the order of the numbers. Shape has the place.
#[derive(Clone, Copy, PartialEq, Eq, Debug)]
pub enum Fault {
    Empty,
    Shape(usize),
    NotCanonical,
    Range,
    Type,
    Options,
}

// What became of reading: the value as a 64-bit pattern, or why there is none.
pub type Outcome = Result<u64, Fault>;

impl Fault {
    pub fn number(self) -> u32
        ensures { result ≡ fault_number self }
    {
        match self {
            Fault::Empty => 1,
            Fault::Shape(_) => 2,
            Fault::NotCanonical => 3,
            Fault::Range => 4,
            Fault::Type => 5,
            Fault::Options => 6,
        }
    }

    // What is returned beside the number: the place of SHAPE, else nothing.
    pub fn value(self) -> u64
        ensures { result ≡ fault_value self }
    {
        match self {
            Fault::Shape(k) => k as u64,
            _ => 0,
        }
    }
}

// Document 01's number of an answer, and what it returns.
// A function for each of the three answers: docs/RULES.md names a definition for each (number_of, value_of).
pub fn number(outcome: Outcome) -> u32
    ensures { result ≡ number_of outcome }
{
    match outcome {
        Ok(_) => 0,
        Err(fault) => fault.number(),
    }
}

pub fn value(outcome: Outcome) -> u64
    ensures { result ≡ value_of outcome }
{
    match outcome {
        Ok(value) => value,
        Err(fault) => fault.value(),
    }
}

// A number by its sign and its unsigned magnitude, which is None if it is over 64 bits.
#[derive(Clone, Copy, Debug, PartialEq, Eq)]
pub struct WideSplit {
    pub negative: bool,
    pub magnitude: Option<u64>,
}

impl WideSplit {
    // The same with a magnitude of 64 bits. One over them is in no type.
    pub fn split(self) -> Result<Split, Fault>
        ensures { SplitOf self result }
    {
        let Some(magnitude) = self.magnitude else {
            return Err(Fault::Range);
        };
        Ok(Split {
            negative: self.negative,
            magnitude,
        })
    }
}

// A type whose values fit a word, as those of each known type do.
#[derive(Clone, Copy)]
pub struct WordKind {
    pub kind: Kind,
    ghost fits: { (1 ≤ kind.bits) × (kind.bits ≤ 64) },
}

// The answer for a magnitude behind a minus or none.
pub fn of_magnitude(target: WordKind, split: Split) -> Outcome
    requires { ((split.negative ≡ true → target.kind.signed ≡ true)) × ((split.negative ≡ true → 0 < split.magnitude)) }
    ensures { result ≡ value_outcome target.kind.signed target.kind.bits (whole split.negative split.magnitude) }
{
    let half = 1u64 << (target.kind.bits - 1);
    let n = split.magnitude;
    if split.negative {
        if n - 1 < half {
            return Ok(u64::MAX - (n - 1));
        }
        return Err(Fault::Range);
    }
    if target.kind.signed {
        if n < half {
            return Ok(n);
        }
        return Err(Fault::Range);
    }
    if n / 2 < half {
        return Ok(n);
    }
    Err(Fault::Range)
}

// The answer for a pattern of the type's bits: of a signed type its upper half is negative, and in 64 bits has ones in front.
pub fn of_pattern(target: WordKind, p: u64) -> Outcome
    ensures { result ≡ pattern_outcome target.kind.signed target.kind.bits p }
{
    let half = 1u64 << (target.kind.bits - 1);
    if p / 2 < half {
        if target.kind.signed {
            if half <= p {
                return Ok(p + (u64::MAX - (half - 1) - half));
            }
        }
        return Ok(p);
    }
    Err(Fault::Range)
}
