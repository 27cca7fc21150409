// Hex of a pattern, its digits spread in words: no loop, and no test of the exact length. By size there is one digit, or two stores that may overlap,
// of two, four or eight bytes each. Carries over the hex of radix_integer! of fmt/num.rs.
#![tactic(auto)]

ghost use Rattle.std.specs.Prelude.{◌≡◌, ◌<◌, ◌≤◌, length};
ghost use Rattle.buffer.specs.AtEnd.{ended};
ghost use Rattle.digits.specs.Digits.{digits};
ghost use Rattle.digits.specs.Text.{text};
ghost use Rattle.lanes.specs.Letters.{digit_byte};

// How many digits n has: four bits a digit, up to its highest bit. Not by bit_table's digit_count(4, n): this crate would stand a layer higher for it.
pub fn count(n: u64) -> usize
    ensures { result ≡ length (digits 16 n) }
{
    ((n | 1).ilog2() / 4 + 1) as usize
}

// The end travels beside the buffer, as in all crates of writers: the crate buffer says why.
// The text of n, of len digits with letters from `letter` on, just before the index end. The answer is len again: for most calls it is the answer to who asked.
pub fn write(letter: u8, n: u64, len: usize, buf: &mut [u8], end: usize) -> usize
    requires { (57 < letter) × (letter ≤ 250) × (len ≡ length (text (digit_byte letter) 16 n)) × (len ≤ end) × (end ≤ length buf.old) }
    ensures { (result ≡ len) × (buf.new ≡ ended buf.old end (text (digit_byte letter) 16 n)) }
{
    if n < 16 {
        buf[end - 1] = lanes::one(letter, n as u8);
        return len;
    }
    if n < 65536 {
        let word = lanes::four(letter as u32, n as u32);
        words::tail(word, (4 - len) as u32, buf, end);
        return len;
    }
    if n < 4294967296 {
        words::tail(lanes::eight(letter as u64, n), (8 - len) as u32, buf, end);
        return len;
    }
    let front = lanes::eight(letter as u64, n >> 32);
    let back = lanes::eight(letter as u64, n % 4294967296);
    words::tail_two(front, back, (16 - len) as u32, buf, end);
    len
}
