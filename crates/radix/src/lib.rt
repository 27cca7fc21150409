// Binary, octal, lower and upper hex, and their lengths before a byte is written.
// Carries over the four formats of radix_integer! of fmt/num.rs. Its one writer is the crate bit_table, for binary and octal of up to four digits;
// more of them, and hex, have faster ones: the crates bit_eights and hex_digits.
#![tactic(auto)]

ghost use Rattle.std.specs.Prelude.{◌≡◌, ◌-◌, ◌<◌, ◌≤◌, length};
ghost use Rattle.buffer.specs.AtEnd.{ended};
ghost use Rattle.digits.specs.Text.{text};
ghost use Rattle.radix.specs.Radix.{lower, radix};

// Binary and octal of n, whose len digits are counted: a few by the table, more of them in words. Two entries, since the words of each have their own code.
// The end travels beside the buffer, as in all crates of writers: the crate buffer says why.
pub fn counted_binary(n: u64, len: usize, buf: &mut [u8], end: usize) -> usize
    requires { (len ≡ length (text lower 2 n)) × (len ≤ end) × (end ≤ length buf.old) }
    ensures { (result ≡ end - length (text lower 2 n)) × (buf.new ≡ ended buf.old end (text lower 2 n)) }
{
    if len <= 4 {
        return bit_table::write_digits(1, n, buf, end);
    }
    bit_eights::binary(n, len, buf, end)
}

pub fn counted_octal(n: u64, len: usize, buf: &mut [u8], end: usize) -> usize
    requires { (len ≡ length (text lower 8 n)) × (len ≤ end) × (end ≤ length buf.old) }
    ensures { (result ≡ end - length (text lower 8 n)) × (buf.new ≡ ended buf.old end (text lower 8 n)) }
{
    if len <= 4 {
        return bit_table::write_digits(3, n, buf, end);
    }
    bit_eights::octal(n, len, buf, end)
}

// The text of n by the format code, just before the index end. The answer is where it starts. This and `count` keep the code: `radix` gives a text of
// any, at 0 that of upper hex, which no `Numeral` says; docs/RULES.md names both.
pub fn write_before(format: u32, n: u64, buf: &mut [u8], end: usize) -> usize
    requires { (length (radix format n) ≤ end) × (end ≤ length buf.old) }
    ensures { (result ≡ end - length (radix format n)) × (buf.new ≡ ended buf.old end (radix format n)) }
{
    let len = count(format, n);
    match format {
        1 => counted_binary(n, len, buf, end),
        2 => counted_octal(n, len, buf, end),
        3 => end - hex_digits::write(b'a', n, len, buf, end),
        _ => end - hex_digits::write(b'A', n, len, buf, end),
    }
}

// How long the text of n is by the format code, before a byte of it is written. Each arm has the bits of a digit as a number, so that the
// compiler divides by no variable.
pub fn count(format: u32, n: u64) -> usize
    ensures { result ≡ length (radix format n) }
{
    match format {
        1 => bit_table::digit_count(1, n),
        2 => bit_table::digit_count(3, n),
        _ => bit_table::digit_count(4, n),
    }
}
