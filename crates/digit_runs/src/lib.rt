// A minus in front and runs of digits in any base to 16, read a byte at a time.
#![tactic(auto)]

ghost use Rattle.std.specs.Prelude.{◌+◌, ◌*◌, ◌^◌, ◌<◌, ◌≤◌, length, SomeIff};
ghost use Rattle.radix.specs.Radix.{digit_byte};
ghost use Rattle.digit_runs.specs.Runs.{IsDigit, DigitRun, Scanned, Front};

// A run of digits: where it ends, and the number that they stand for, unless it is over 64 bits.
#[derive(Clone, Copy)]
pub struct Run {
    pub end: usize,
    pub value: Option<u64>,
}

// What the digits of a base look like: the base, and the letter that the digit 10 has or would have.
#[derive(Clone, Copy)]
pub struct Numerals {
    pub base: u64,
    pub letter: u8,
    ghost few: { (1 < base) × (base ≤ 16) },
    ghost apart: { (57 < letter) × (letter ≤ 97) },
}

pub const BINARY: Numerals = Numerals {
    base: 2,
    letter: b'a',
};

pub const OCTAL: Numerals = Numerals {
    base: 8,
    letter: b'a',
};

pub const DECIMAL: Numerals = Numerals {
    base: 10,
    letter: b'a',
};

pub const LOWER_HEX: Numerals = Numerals {
    base: 16,
    letter: b'a',
};

pub const UPPER_HEX: Numerals = Numerals {
    base: 16,
    letter: b'A',
};

impl Numerals {
    // The digit that a byte is, if it is one.
    pub fn digit(self, byte: u8) -> Option<u64>
        ensures { IsDigit (digit_byte self.letter) self.base byte result }
    {
        let figure = std::num::wrapping_sub_u8(byte, 48);
        if figure < 10 {
            return self.below(figure as u64);
        }
        let d = std::num::wrapping_sub_u8(byte, self.letter);
        if d < 6 {
            return self.below(10 + d as u64);
        }
        None
    }

    // A digit, if it is one of the base.
    fn below(self, d: u64) -> Option<u64>
        ensures { SomeIff result (d < self.base) d }
    {
        if d < self.base { Some(d) } else { None }
    }
}

// Where the run of digits from a place on ends, whatever they stand for.
fn skip(text: &[u8], from: usize, numerals: Numerals) -> usize
    requires { from ≤ length text.now }
    ensures { DigitRun (digit_byte numerals.letter) numerals.base text.now from result }
{
    // By the index: where the run ends is the answer, and `skip` goes on from there.
    for i in from..text.len() {
        let Some(_) = numerals.digit(text[i]) else {
            return i;
        };
    }
    text.len()
}

// The number with a digit behind it, unless it is over 64 bits. LLVM makes no division of this.
fn appended(value: u64, base: u64, d: u64) -> Option<u64>
    ensures { SomeIff result (value * base + d < 2 ^ 64) (value * base + d) }
{
    value.checked_mul(base)?.checked_add(d)
}

// The run of digits from a place on, read behind what was read before.
pub fn scan(text: &[u8], from: usize, numerals: Numerals, before: u64) -> Run
    requires { from ≤ length text.now }
    ensures { Scanned (digit_byte numerals.letter) numerals.base before text.now from result }
{
    let mut value = before;
    // By the index, as in `skip`.
    for i in from..text.len() {
        let Some(d) = numerals.digit(text[i]) else {
            return Run {
                end: i,
                value: Some(value),
            };
        };
        let Some(more) = appended(value, numerals.base, d) else {
            return Run {
                end: skip(text, i + 1, numerals),
                value: None,
            };
        };
        value = more;
    }
    Run {
        end: text.len(),
        value: Some(value),
    }
}

// How many bytes a minus in front takes, where one may stand.
pub fn front(text: &[u8], may: bool) -> usize
    requires { 0 < length text.now }
    ensures { Front may text.now result }
{
    if may {
        if text[0] == 45 {
            return 1;
        }
    }
    0
}
