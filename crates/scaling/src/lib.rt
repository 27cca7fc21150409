// The coefficient and the exponent of a number, rounded to a precision or without its last zeros.
// Carries over the first half of impl_Exp! of fmt/num.rs. checked_ilog10 becomes the count of digits, checked_pow the table of powers.
#![tactic(auto)]

ghost use Rattle.std.specs.Prelude.{None, Some, ◌≡◌, ◌≤◌};
ghost use Rattle.scientific.specs.Sci.{exponent_of, up, rounded};
ghost use Rattle.scaling.specs.Coefficient.{Scales};

// The digits of coef, coef_prec of them behind the point, and more_prec zeros behind those; the exponent.
#[derive(Clone, Copy)]
pub struct Scaled {
    pub coef: u64,
    pub coef_prec: usize,
    pub more_prec: usize,
    pub exp: usize,
}

// What is added to the quotient floor, for the rest over and half of the scale: half rounds to even.
fn round_up(floor: u64, over: u64, half: u64) -> u64
    ensures { (result ≡ up half over floor) × (result ≤ 1) }
{
    if over < half {
        return 0;
    }
    if half < over {
        return 1;
    }
    floor % 2
}

// The quotient of coef by scale, rounded: one division, for however many digits are dropped.
fn scale_down(coef: u64, scale: u64) -> u64
    requires { 2 ≤ scale }
    ensures { result ≡ rounded scale coef }
{
    let floor = coef / scale;
    let over = coef % scale;
    let half = scale / 2;
    floor + round_up(floor, over, half)
}

// With a precision: zeros behind the digits of n, or digits dropped. A quotient that is rounded up to the next power of ten loses its last zero.
fn fixed(n: u64, exp: usize, fmt_prec: usize) -> Scaled
    requires { (exp ≡ exponent_of n) × (fmt_prec ≤ 65535) }
    ensures { Scales (Some fmt_prec) n result }
{
    if exp <= fmt_prec {
        return Scaled {
            coef: n,
            coef_prec: exp,
            more_prec: fmt_prec - exp,
            exp,
        };
    }
    let less_prec = exp - fmt_prec;
    let coef = scale_down(n, digits::power(less_prec));
    if coef == digits::power(fmt_prec + 1) {
        return Scaled {
            coef: coef / 10,
            coef_prec: fmt_prec,
            more_prec: 0,
            exp: exp + 1,
        };
    }
    Scaled {
        coef,
        coef_prec: fmt_prec,
        more_prec: 0,
        exp,
    }
}

// Without precision: any and all trailing zeros are dropped, four at a time, then two, then one.
#[tactic(auto, using(crate::proofs::LastZeros::last_zeros))]
fn short(n: u64, exp: usize) -> Scaled
    requires { exp ≡ exponent_of n }
    ensures { Scales None n result }
{
    if n < 10 {
        return Scaled {
            coef: n,
            coef_prec: exp,
            more_prec: 0,
            exp,
        };
    }
    let mut coef = n;
    let mut coef_prec = exp;
    // Over the number, whose last zeros are no list: no `for`.
    while coef % 10000 == 0 {
        coef = coef / 10000;
        coef_prec -= 4;
    }
    if coef % 100 == 0 {
        coef = coef / 100;
        coef_prec -= 2;
    }
    if coef % 10 == 0 {
        coef = coef / 10;
        coef_prec -= 1;
    }
    Scaled {
        coef,
        coef_prec,
        more_prec: 0,
        exp,
    }
}

// The coefficient and the exponent of n without precision. Most numbers have no trailing zero: they are told first.
pub fn in_full(n: u64) -> Scaled
    ensures { Scales None n result }
{
    let exp = digits::digit_count(n) - 1;
    if n % 10 != 0 {
        return Scaled {
            coef: n,
            coef_prec: exp,
            more_prec: 0,
            exp,
        };
    }
    short(n, exp)
}

// The coefficient and the exponent of n, with so many digits behind the point, or as many as are needed.
pub fn scale(n: u64, precision: Option<u16>) -> Scaled
    ensures { Scales precision n result }
{
    match precision {
        None => in_full(n),
        Some(fmt_prec) => { fixed(n, digits::digit_count(n) - 1, fmt_prec as usize) }
    }
}
