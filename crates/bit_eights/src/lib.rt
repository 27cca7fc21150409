// Binary and octal of a pattern, eight digits at a time in a word; the last up to 16 by two stores that may overlap.
// Carries over the binary and the octal of radix_integer! of fmt/num.rs. Each has its own code, so that the compiler has the bits of a digit as a number.
#![tactic(auto)]

ghost use Rattle.std.specs.Prelude.{◌≡◌, ◌-◌, ◌<◌, ◌≤◌, length};
ghost use Rattle.buffer.specs.AtEnd.{ended};
ghost use Rattle.digits.specs.Text.{ascii, text};

use words::Word;

// The text of n, of len digits, which are more than four, just before the index end. The answer is where it starts.
// The end travels beside the buffer, as in all crates of writers: the crate buffer says why.
pub fn binary(n: u64, len: usize, buf: &mut [u8], end: usize) -> usize
    requires { (len ≡ length (text ascii 2 n)) × (4 < len) × (len ≤ end) × (end ≤ length buf.old) }
    ensures { (result ≡ end - length (text ascii 2 n)) × (buf.new ≡ ended buf.old end (text ascii 2 n)) }
{
    if len <= 8 {
        return words::tail(lanes::eight_bits(n % 256), (8 - len) as u32, buf, end);
    }
    let mut left = len;
    let mut offset = end;
    let mut remain = n;
    // By the number and not by the count, so no `for`: a count that is known tempts the compiler to test for odd and even turns.
    while 65535 < remain {
        left -= 8;
        offset -= 8;
        lanes::eight_bits(remain % 256).put(buf, offset);
        remain = remain >> 8;
    }
    let front = lanes::eight_bits((remain >> 8) % 256);
    let back = lanes::eight_bits(remain % 256);
    words::tail_two(front, back, (16 - left) as u32, buf, offset)
}

// The same in octal, which has at most 22 digits: no loop.
pub fn octal(n: u64, len: usize, buf: &mut [u8], end: usize) -> usize
    requires { (len ≡ length (text ascii 8 n)) × (4 < len) × (len ≤ end) × (end ≤ length buf.old) }
    ensures { (result ≡ end - length (text ascii 8 n)) × (buf.new ≡ ended buf.old end (text ascii 8 n)) }
{
    let last = lanes::eight_octal(n % 16777216);
    if len <= 8 {
        return words::tail(last, (8 - len) as u32, buf, end);
    }
    let remain = n >> 24;
    let back = lanes::eight_octal(remain % 16777216);
    if len <= 16 {
        return words::tail_two(back, last, (16 - len) as u32, buf, end);
    }
    let offset = end - 8;
    last.put(buf, offset);
    let front = lanes::eight_octal(remain >> 24);
    words::tail_two(front, back, (24 - len) as u32, buf, offset)
}
