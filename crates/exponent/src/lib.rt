// The exponent form: the text of a coefficient and an exponent, written where it has room, or as three parts.
// Carries over the end of impl_Exp! of fmt/num.rs; `scaling` has its first half, and `encoding` the pieces of the text.
#![tactic(auto)]

ghost use Rattle.std.specs.Prelude.{◌≡◌, ℕ, ◌+◌, ◌<◌, ◌≤◌, length};
ghost use Rattle.buffer.specs.AtEnd.{ended};
ghost use Rattle.exponent.specs.Coefficient.{Sized, scaled_text};
ghost use Rattle.exponent.specs.Form.{Answers};

use formatted::Formatted;
use parts::{Part, Sign};
use scaling::Scaled;

// How long the text is. `Sized` is asked and no invariant of Scaled, of which `formatted` tests the exponent.
pub fn size(scaled: Scaled) -> usize
    requires { Sized scaled }
    ensures { (result < 131072) × ((letter : ℕ) → result ≡ length (scaled_text letter scaled)) }
{
    let coef_len = encoding::coef_length(scaled.coef_prec, scaled.more_prec);
    coef_len + (scaled.more_prec + encoding::exp_length(scaled.exp))
}

// The text from the index at on, with no scratch and no copy: for a caller who has found that it has room.
pub fn write_at(scaled: Scaled, letter: u8, buf: &mut [u8], at: usize)
    requires { Sized scaled × (at + length (scaled_text letter scaled) ≤ length buf.old) }
    ensures { buf.new ≡ ended buf.old (at + length (scaled_text letter scaled)) (scaled_text letter scaled) }
{
    let coef_len = encoding::coef_length(scaled.coef_prec, scaled.more_prec);
    let behind = at + coef_len + scaled.more_prec;
    encoding::encode_exp(letter, scaled.exp, buf, behind);
    buffer::fill(b'0', scaled.more_prec, buf, behind);
    encoding::encode_coef(scaled.coef, scaled.coef_prec, scaled.more_prec, buf, at);
}

// The exponent form of the magnitude n: in scratch the coefficient, and right behind it the letter and the exponent; as parts, with zeros between the two.
// None where the exponent has more than two digits, which no 64-bit number's has.
// 24 bytes hold 20 digits, a point, a letter and two digits.
pub fn formatted(
    n: u64,
    letter: u8,
    precision: Option<u16>,
    scratch: &mut [u8; 24],
) -> Option<Formatted>
    ensures { Answers letter precision n scratch.new result }
{
    let scaled = scaling::scale(n, precision);
    if 99 < scaled.exp {
        return None;
    }
    let coef_len = encoding::encode_coef(
        scaled.coef,
        scaled.coef_prec,
        scaled.more_prec,
        scratch,
        0,
    );
    let exp_len = encoding::encode_exp(letter, scaled.exp, scratch, coef_len);
    Some(Formatted {
        sign: Sign::None,
        first: Part::copy(0, coef_len as u64),
        second: Part::zero(scaled.more_prec as u64),
        third: Part::copy(coef_len as u64, exp_len as u64),
    })
}
