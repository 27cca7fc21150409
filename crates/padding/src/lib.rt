// Sign, prefix and padding around digits that another layer writes.
// Carries over pad_integral and, for the exponent form, pad_formatted_parts of fmt/mod.rs, as one layout.
#![tactic(auto)]

ghost use Rattle.std.specs.Prelude.{true, [], ◌∷◌, ◌++◌, ◌≡◌, ◌+◌, ◌-◌, ◌≤◌, length, replicate};
ghost use Rattle.buffer.specs.AtEnd.{ended};
ghost use Rattle.padding.specs.Padding.{Planned, sign_of, prefix_of};

// How many bytes of padding stand in front of the sign, between prefix and digits, and behind the digits.
#[derive(Clone, Copy)]
pub struct Pad {
    pub before: usize,
    pub zeros: usize,
    pub behind: usize,
}

// The alignment is a number: `known_options` judges the caller's, and `padded` gives a text for any.
// The padding of a text of len bytes, sign and prefix included, to a width.
pub fn plan(zero_pad: bool, align: u32, width: u16, len: usize) -> Pad
    ensures { Planned zero_pad align (width - len) result.before result.zeros result.behind × (result.before + (result.zeros + result.behind) ≤ 65535) }
{
    let w = width as usize;
    if w <= len {
        return Pad {
            before: 0,
            zeros: 0,
            behind: 0,
        };
    }
    let lack = w - len;
    if zero_pad {
        return Pad {
            before: 0,
            zeros: lack,
            behind: 0,
        };
    }
    if align == 1 {
        return Pad {
            before: 0,
            zeros: 0,
            behind: lack,
        };
    }
    if align == 2 {
        return Pad {
            before: lack / 2,
            zeros: 0,
            behind: lack - lack / 2,
        };
    }
    Pad {
        before: lack,
        zeros: 0,
        behind: 0,
    }
}

// How long the sign is.
pub fn sign_length(negative: bool, plus: bool) -> usize
    ensures { result ≡ length (sign_of negative plus) }
{
    if negative {
        return 1;
    }
    if plus {
        return 1;
    }
    0
}

// The format is document 01's number: the crate framing says why.
// How long the prefix is.
pub fn prefix_length(alternate: bool, code: u32) -> usize
    ensures { result ≡ length (prefix_of alternate code) }
{
    if alternate {
        if 1 <= code {
            if code <= 4 {
                return 2;
            }
        }
    }
    0
}

// The end travels beside the buffer, as in all crates of writers: the crate buffer says why.
// The sign just before end.
fn put_sign(negative: bool, plus: bool, out: &mut [u8], end: usize)
    requires { (length (sign_of negative plus) ≤ end) × (end ≤ length out.old) }
    ensures { out.new ≡ ended out.old end (sign_of negative plus) }
{
    if negative {
        out[end - 1] = b'-';
        return;
    }
    if plus {
        out[end - 1] = b'+';
    }
}

// A zero and a letter just before end.
fn put_letter(letter: u8, out: &mut [u8], end: usize)
    requires { (2 ≤ end) × (end ≤ length out.old) }
    ensures { out.new ≡ ended out.old end (48 ∷ letter ∷ []) }
{
    out[end - 2] = b'0';
    out[end - 1] = letter;
}

// The letter of a prefix: hex has the same for both cases.
fn prefix_letter(code: u32) -> u8
    requires { (1 ≤ code) × (code ≤ 4) }
    ensures { prefix_of true code ≡ 48 ∷ result ∷ [] }
{
    if code == 1 {
        return b'b';
    }
    if code == 2 {
        return b'o';
    }
    b'x'
}

// The prefix just before end.
fn put_prefix(alternate: bool, code: u32, out: &mut [u8], end: usize)
    requires { (length (prefix_of alternate code) ≤ end) × (end ≤ length out.old) }
    ensures { out.new ≡ ended out.old end (prefix_of alternate code) }
{
    if alternate {
        if 1 <= code {
            if code <= 4 {
                put_letter(prefix_letter(code), out, end);
            }
        }
    }
}

// What is in front of the digits, just before end: fill, sign, prefix, zeros.
// Flags one by one: Options stand in writing, above this crate.
pub fn put_front(
    pad: Pad,
    fill: u8,
    negative: bool,
    plus: bool,
    alternate: bool,
    code: u32,
    out: &mut [u8],
    end: usize,
)
    requires { (pad.before + (length (sign_of negative plus) + (length (prefix_of alternate code) + pad.zeros)) ≤ end) × (end ≤ length out.old) }
    ensures { out.new ≡ ended out.old end (replicate pad.before fill ++ (sign_of negative plus ++ (prefix_of alternate code ++ replicate pad.zeros 48))) }
{
    let before = pad.before;
    let zeros = pad.zeros;
    buffer::fill(b'0', zeros, out, end);
    let behind_prefix = end - zeros;
    put_prefix(alternate, code, out, behind_prefix);
    let behind_sign = behind_prefix - prefix_length(alternate, code);
    put_sign(negative, plus, out, behind_sign);
    let behind_fill = behind_sign - sign_length(negative, plus);
    buffer::fill(fill, before, out, behind_fill);
}
