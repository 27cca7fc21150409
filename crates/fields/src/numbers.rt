// The numbers of a row: unsigned decimal, one space between two. A minus in front of one gives the 64-bit pattern of the negative.
ghost use Rattle.std.specs.Prelude.{◌≡◌, ◌+◌, ◌*◌, ◌<◌, IfSome};
ghost use Rattle.std.specs.Char.{digit_value};
ghost use Rattle.fields.specs.Numbers.{Writes, Says};

use arrayvec::ArrayVec;

// The numbers of a row, 40 at most.
pub type Numbers = ArrayVec<u64, 40>;

// The number whose digits are those of n and then the byte: `None` where that is no digit, or the number has more than 64 bits.
#[inline(always)]
fn with_digit(n: u64, byte: u8) -> Option<u64>
    ensures { IfSome result (λ more. (digit_value byte < 10) × (more ≡ n * 10 + digit_value byte)) }
{
    let digit = byte.wrapping_sub(b'0');
    if 9 < digit {
        return None;
    }
    n.checked_mul(10)?.checked_add(u64::from(digit))
}

// The number of a field without a sign, in one pass over its bytes: std's `parse` takes a text, and reads a plus too.
#[inline(always)]
fn unsigned(field: &[u8]) -> Option<u64>
    ensures { IfSome result (λ n. Writes field.now n) }
{
    if field.is_empty() {
        return None;
    }
    let mut n = 0;
    for byte in field {
        n = with_digit(n, *byte)?;
    }
    Some(n)
}

// The number of a field: `None` where it is none, or has more than 64 bits.
#[inline(always)]
pub fn number(field: &[u8]) -> Option<u64>
    ensures { IfSome result (λ n. Says field.now n) }
{
    match field {
        [b'-', digits @ ..] => Some(unsigned(digits)?.wrapping_neg()),
        _ => unsigned(field),
    }
}

// The numbers of a row, put into a space that is lent, for whatever stood there: `None` where a field of it is no number, or they are more than 40.
#[inline(always)]
pub fn numbers<'a>(row: &[u8], space: &'a mut Numbers) -> Option<&'a [u64]> {
    space.clear();
    for field in row.split(|byte| *byte == b' ') {
        space.try_push(number(field)?).ok()?;
    }
    Some(space.as_slice())
}

// The numbers of a row that has so many.
#[inline(always)]
pub fn exactly<const N: usize>(row: &[u8]) -> Option<[u64; N]> {
    let mut space = Numbers::new();
    <[u64; N]>::try_from(numbers(row, &mut space)?).ok()
}
