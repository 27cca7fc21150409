// The numbers of the C edge: an answer as two words, a precision that may be given, and a text read into an answer.
#![tactic(auto)]

ghost use Rattle.std.specs.Prelude.{◌≡◌};
ghost use Rattle.outcomes.specs.Outcomes.{number_of, value_of};
ghost use Rattle.writing.specs.Promise.{number, value};
ghost use Rattle.edge.specs.Edge.{given_precision, Reads};

use kinds::Kind;
use outcomes::Outcome;
use writing::Written;

// Document 01's number of the answer, and what it returns.
#[repr(C)]
#[derive(Clone, Copy)]
pub struct Answer {
    pub number: u64,
    pub value: u64,
}

impl From<Written> for Answer {
    ghost from_gives = { λ written answer. (answer.number ≡ number written) × (answer.value ≡ value written) };

    fn from(written: Written) -> Self {
        Answer {
            number: writing::number(written),
            value: writing::value(written) as u64,
        }
    }
}

impl From<Outcome> for Answer {
    ghost from_gives = { λ outcome answer. (answer.number ≡ number_of outcome) × (answer.value ≡ value_of outcome) };

    fn from(outcome: Outcome) -> Self {
        Answer {
            number: outcomes::number(outcome) as u64,
            value: outcomes::value(outcome),
        }
    }
}

// The precision, where one is given: by a number, since C hands it over so.
pub fn precision_from(given: u32, digits: u16) -> Option<u16>
    ensures { result ≡ given_precision given digits }
{
    (given != 0).then_some(digits)
}

// Any text back to its value, or why it has none. A short one in hex is read at once. The format is a number, as in reader and in C.
pub fn read_any(kind: Kind, format: u32, text: &[u8]) -> Answer
    ensures { Reads kind.signed kind.bits format text.now result.number result.value }
{
    if let Some(value) = reader::read_short_hex(kind, format, text) {
        return Answer { number: 0, value };
    }
    let found = reader::read(kind, format, text);
    Answer::from(found)
}
