// Parts of a text: a sign, then zeros, numbers in decimal and copied runs of one lent source. The length and the writing of each.
// Carries over Part of num/imp/fmt.rs. By document 01 a copied run is a start and a length in the source, so that one that leaves it is refused.
#![tactic(auto)]

ghost use Rattle.std.specs.Prelude.{◌≡◌, false, ◌-◌, ◌≤◌, length};
ghost use Rattle.buffer.specs.AtEnd.{ended};
ghost use Rattle.digits.specs.Text.{decimal};
ghost use Rattle.parts.specs.Parts.{sign_of, sign_text, part_of, part_text, leaves_source, part_length, zero_part, num_part, copy_part};

// Unknown is a case and no None: a list with such a code is a list, which is refused as OPTIONS in its order (part_answers: checked).
// A sign: none, a minus or a plus; or that the code given for it is no sign's, which is refused: its text is that of a plus.
#[derive(Clone, Copy, Debug, PartialEq, Eq)]
pub enum Sign {
    None,
    Minus,
    Plus,
    Unknown,
}

// The sign of a code: 0 none, 1 minus, 2 plus.
impl From<u32> for Sign {
    ghost from_gives = { λ code sign. sign ≡ sign_of code };

    fn from(code: u32) -> Sign {
        match code {
            0 => Sign::None,
            1 => Sign::Minus,
            2 => Sign::Plus,
            _ => Sign::Unknown,
        }
    }
}

impl Sign {
    #[tactic(auto, unfolding(crate::specs::Parts::sign_text))]
    pub fn length(self) -> u64
        ensures { result ≡ length (sign_text self) }
    {
        match self {
            Sign::None => 0,
            Sign::Minus | Sign::Plus | Sign::Unknown => 1,
        }
    }

    // The sign just before end; its start is handed back.
    // The end travels beside the buffer, as in all crates of writers: the crate buffer says why.
    #[tactic(auto, using(crate::proofs::Writing::ended_nothing, crate::proofs::Writing::ended_byte), unfolding(crate::specs::Parts::sign_text))]
    pub fn write_before(self, out: &mut [u8], end: usize) -> usize
        requires { (length (sign_text self) ≤ end) × (end ≤ length out.old) }
        ensures { (result ≡ end - length (sign_text self)) × (out.new ≡ ended out.old end (sign_text self)) }
    {
        let byte = match self {
            Sign::None => return end,
            Sign::Minus => b'-',
            Sign::Plus | Sign::Unknown => b'+',
        };
        let at = end - 1;
        out[at] = byte;
        at
    }
}

// So many zeros, a number, or the run of len bytes of the source from start on; or that the code given for its kind is no part's,
// which is refused: its text is that of the run.
#[derive(Clone, Copy, Debug, PartialEq, Eq)]
pub enum Part {
    Zero(u64),
    Num(u16),
    Copy { start: u64, len: u64 },
    Unknown { start: u64, len: u64 },
}

impl Part {
    // Kept beside the variants: the edits zeros_lost, number_as_a_run and run_from_its_length turn these.
    pub fn zero(n: u64) -> Self
        ensures { result ≡ zero_part n }
    {
        Part::Zero(n)
    }

    pub fn num(v: u16) -> Self
        ensures { result ≡ num_part v }
    {
        Part::Num(v)
    }

    pub fn copy(start: u64, len: u64) -> Self
        ensures { result ≡ copy_part start len }
    {
        Part::Copy { start, len }
    }

    // The part of a kind's code and what each kind takes of the rest: 0, the zeros; 1, the number; 2 and any other code, start and len.
    pub fn of_kind(kind: u32, number: u16, zeros: u64, start: u64, len: u64) -> Self
        ensures { result ≡ part_of kind number zeros start len }
    {
        match kind {
            0 => Part::zero(zeros),
            1 => Part::num(number),
            2 => Part::copy(start, len),
            _ => Part::Unknown { start, len },
        }
    }

    // The length of the part. `len` in the Rust.
    #[tactic(auto, unfolding(crate::specs::Parts::part_length))]
    pub fn length(self) -> u64
        ensures { result ≡ part_length self }
    {
        match self {
            Part::Zero(zeros) => zeros,
            Part::Num(number) => digits::digit_count(number as u64) as u64,
            Part::Copy { len, .. } | Part::Unknown { len, .. } => len,
        }
    }

    // Whether the part leaves a source of so many bytes. Where the sum does not fit, it is beyond every source.
    #[tactic(auto, unfolding(crate::specs::Parts::leaves_source))]
    pub fn leaves(self, source: usize) -> bool
        ensures { result ≡ leaves_source source self }
    {
        let (Part::Copy { start: from, len } | Part::Unknown { start: from, len }) = self else {
            return false;
        };
        match from.checked_add(len) {
            Some(end) => (source as u64) < end,
            None => true,
        }
    }

    // The part just before end, where it has room; its start is handed back. A step over parts that are known to be inside.
    #[tactic(auto, using(crate::proofs::Writing::ended_nothing), unfolding(crate::specs::Parts::part_length, crate::specs::Parts::part_text, crate::specs::Parts::leaves_source))]
    pub fn write_before(self, src: &[u8], out: &mut [u8], end: usize) -> usize
        requires { (leaves_source (length src.now) self ≡ false) × (part_length self ≤ end) × (end ≤ length out.old) }
        ensures { (result ≡ end - part_length self) × (out.new ≡ ended out.old end (part_text src.now self)) }
    {
        match self {
            Part::Zero(zeros) => {
                let count = zeros as usize;
                buffer::fill(b'0', count, out, end);
                end - count
            }
            Part::Num(number) => write_number(number, out, end),
            Part::Copy { start: from, len } | Part::Unknown { start: from, len } => {
                let count = len as usize;
                buffer::copy(src, from as usize, count, out, end);
                end - count
            }
        }
    }
}

// The decimal of v just before end, by its last digit first. A loop of its own: with a second caller `pairs::write_pairs_before` is no longer
// written out in the end entries, which then take a call and 615 bytes more.
fn write_number(v: u16, out: &mut [u8], end: usize) -> usize
    requires { (length (decimal v) ≤ end) × (end ≤ length out.old) }
    ensures { (result ≡ end - length (decimal v)) × (out.new ≡ ended out.old end (decimal v)) }
{
    let mut rest = v;
    let mut at = end;
    while 9 < rest {
        at -= 1;
        out[at] = 48 + (rest % 10) as u8;
        rest = rest / 10;
    }
    at -= 1;
    out[at] = 48 + rest as u8;
    at
}
