// The pieces of the exponent form's text: the coefficient, and the letter with the exponent, each with its length.
// Carries over of impl_Exp! of fmt/num.rs what encodes the two; `exponent` joins them.
#![tactic(auto)]

ghost use Rattle.std.specs.Prelude.{◌≡◌, ◌∷◌, ℕ, ◌+◌, ◌<◌, ◌≤◌, length};
ghost use Rattle.buffer.specs.AtEnd.{ended};
ghost use Rattle.digits.specs.Text.{decimal};
ghost use Rattle.scientific.specs.Sci.{exponent_of};
ghost use Rattle.encoding.specs.Coefficient.{coef_text};

// How long the lead digit, the point and the fraction are, without the zeros that are to follow.
pub fn coef_length(coef_prec: usize, more_prec: usize) -> usize
    requires { (coef_prec ≤ 19) × (more_prec ≤ 65535) }
    ensures { (result ≤ 21) × ((m : ℕ) → result ≡ length (coef_text m coef_prec more_prec)) }
{
    if coef_prec + more_prec == 0 {
        return 1;
    }
    coef_prec + 2
}

// The lead digit, the point and the fraction from the index at on: the digits one place to the right, and the lead moved in front of the point. Their length.
// Not a Scaled: this crate does not stand on scaling.
pub fn encode_coef(
    coef: u64,
    coef_prec: usize,
    more_prec: usize,
    buf: &mut [u8],
    at: usize,
) -> usize
    requires { (exponent_of coef ≡ coef_prec) × (more_prec ≤ 65535) × (at + (coef_prec + 2) ≤ length buf.old) }
    ensures { (result ≡ length (coef_text coef coef_prec more_prec)) × (buf.new ≡ ended buf.old (at + result) (coef_text coef coef_prec more_prec)) }
{
    if coef_prec + more_prec == 0 {
        buf[at] = 48 + coef as u8;
        return 1;
    }
    let coef_len = coef_prec + 2;
    decimal::write_before(coef, buf, at + coef_len);
    let lead = buf[at + 1];
    buf[at + 1] = b'.';
    buf[at] = lead;
    coef_len
}

// How long the letter and the exponent's one or two digits are.
pub fn exp_length(exp: usize) -> usize
    requires { exp < 100 }
    ensures { (result ≤ 3) × ((letter : ℕ) → result ≡ length (letter ∷ decimal exp)) }
{
    if exp < 10 {
        return 2;
    }
    3
}

// The letter and the exponent's one or two digits from the index at on, with no branch: where there is one, the last is written over the first. Their length.
pub fn encode_exp(letter: u8, exp: usize, buf: &mut [u8], at: usize) -> usize
    requires { (exp < 100) × (at + length (letter ∷ decimal exp) ≤ length buf.old) }
    ensures { (result ≡ length (letter ∷ decimal exp)) × (buf.new ≡ ended buf.old (at + result) (letter ∷ decimal exp)) }
{
    let len = exp_length(exp);
    let short = exp as u32;
    buf[at] = letter;
    buf[at + 1] = 48 + (short / 10) as u8;
    buf[at + len - 1] = 48 + (short % 10) as u8;
    len
}
