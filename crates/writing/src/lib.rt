// What a writing call is given and answers: the options, the answer, document 01's numbers, and which options are known.
// The text of a call and the promise of every writing entry are this crate's specs/.
#![tactic(auto)]

ghost use Rattle.std.specs.Prelude.{◌≡◌};
ghost use Rattle.writing.specs.Promise.{house, refusal_of, known_options, settled, number, value};

use kinds::Misfit;

// The options of a call. Fill and alignment are the caller's numbers: one that is none is refused as OPTIONS (`known_options`).
#[derive(Clone, Copy)]
pub struct Options {
    pub plus: bool,
    pub alternate: bool,
    pub zero: bool,
    pub fill: u32,
    pub align: u32,
    pub width: u16,
    // Digits behind the point, in the exponent forms: so many, or as many as are needed.
    pub precision: Option<u16>,
}

// Why there is no text. One that has no room says how long it is.
#[derive(Clone, Copy, Debug, PartialEq, Eq)]
pub enum Refusal {
    Type,
    Value,
    Options,
    Exponent,
    NoRoom(usize),
}

// What is no value of a type is refused.
impl From<Misfit> for Refusal {
    ghost from_gives = { λ misfit refusal. refusal ≡ refusal_of misfit };

    fn from(misfit: Misfit) -> Refusal {
        match misfit {
            Misfit::Type => Refusal::Type,
            Misfit::Value => Refusal::Value,
        }
    }
}

// The answer: the length of the text, or why there is none.
pub type Written = Result<usize, Refusal>;

impl Options {
    // The house default: no flag, fill space, alignment unset, width 0, precision none.
    pub fn house() -> Self
        ensures { result ≡ house }
    {
        Options {
            plus: false,
            alternate: false,
            zero: false,
            fill: 32,
            align: 0,
            width: 0,
            precision: None,
        }
    }
}

// Document 01's number of an answer.
// A function for each of the three answers: docs/RULES.md names a definition for each (number, value).
pub fn number(written: Written) -> u64
    ensures { result ≡ number written }
{
    match written {
        Ok(_) => 0,
        Err(Refusal::Type) => 5,
        Err(Refusal::Options) => 6,
        Err(Refusal::Value) => 7,
        Err(Refusal::NoRoom(_)) => 8,
        Err(Refusal::Exponent) => 10,
    }
}

// What document 01 says is returned.
pub fn value(written: Written) -> usize
    ensures { result ≡ value written }
{
    match written {
        Ok(n) => n,
        Err(Refusal::NoRoom(n)) => n,
        Err(_) => 0,
    }
}

// Whether format, alignment and fill are known.
pub fn options_known(format: u32, options: Options) -> bool
    ensures { result ≡ known_options format options }
{
    // One test after the other: joined by `&&` they cost each call of lgv_write an instruction more.
    if 6 < format {
        return false;
    }
    if 3 < options.align {
        return false;
    }
    if options.fill < 32 {
        return false;
    }
    options.fill <= 126
}

// The answer for a text of so many bytes that was asked for in so many.
pub fn settle(need: usize, room: usize) -> Written
    ensures { result ≡ settled need room }
{
    if room < need {
        return Err(Refusal::NoRoom(need));
    }
    Ok(need)
}
