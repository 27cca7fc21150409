// Digits that stand for so many bits each, the shift: their text by a table of them, the plain form of binary, octal and hex, and how many they are before a byte is written.
// Carries over radix_integer! of fmt/num.rs: one writer over the bits of a digit and the table of digits, right to left, two digits a turn.
#![tactic(auto)]

ghost use Rattle.std.specs.Prelude.{◌≡◌, ◌+◌, ◌-◌, ◌%◌, ◌^◌, ◌<◌, ◌≤◌, length};
ghost use Rattle.std.proofs.lemmas.List.Edits.{sets};
ghost use Rattle.buffer.specs.AtEnd.{ended};
ghost use Rattle.digits.specs.Digits.{digits};
ghost use Rattle.digits.specs.Tables.{tabulate};
ghost use Rattle.digits.specs.Text.{text, last_text};
ghost use Rattle.bit_table.specs.Bits.{lower, table_byte};

// The digits in order.
const DIGITS: [u8; 16] = *b"0123456789abcdef";

// The table by value, with its rule. A constant that is named is copied each time: the writer takes it once here and lends it on.
fn digit_table() -> [u8; 16]
    ensures { result ≡ tabulate 16 lower 0 }
{
    DIGITS
}

// The byte of the last digit of n, which stands for shift bits. The shift is a number: a type for it would be no plainer, since each caller writes 1, 3 or 4.
fn last_byte(table: &[u8; 16], shift: u32, n: u64) -> u8
    requires { shift ≤ 4 }
    ensures { result ≡ table_byte table.now (n % 2 ^ shift) }
{
    table[(n & ((1 << shift) - 1)) as usize]
}

// The last two digits of n at the index at.
fn put2(table: &[u8; 16], shift: u32, n: u64, buf: &mut [u8], at: usize)
    requires { (shift ≤ 4) × (at + 2 ≤ length buf.old) }
    ensures { buf.new ≡ sets buf.old at (last_text (table_byte table.now) (2 ^ shift) 2 n) }
{
    buf[at] = last_byte(table, shift, n >> shift);
    buf[at + 1] = last_byte(table, shift, n);
}

// The text of n in base 2 to the shift by the table, just before the index end. The answer is where it starts.
// The loop runs over what is left of the number, of which nothing is a list: a `for` would need an iterator of quotients of its own.
// The end travels beside the buffer, as in all crates of writers: the crate buffer says why.
#[tactic(auto, using(crate::proofs::LastPair::last_pair))]
fn fmt_inner(table: &[u8; 16], shift: u32, n: u64, buf: &mut [u8], end: usize) -> usize
    requires { (0 < shift) × (shift ≤ 4) × (length (text (table_byte table.now) (2 ^ shift) n) ≤ end) × (end ≤ length buf.old) }
    ensures { (result ≡ end - length (text (table_byte table.now) (2 ^ shift) n)) × (buf.new ≡ ended buf.old end (text (table_byte table.now) (2 ^ shift) n)) }
{
    let pair = shift + shift;
    let mut offset = end;
    let mut remain = n;
    while remain >> pair != 0 {
        offset -= 2;
        put2(table, shift, remain, buf, offset);
        remain = remain >> pair;
    }
    if remain >> shift != 0 {
        offset -= 2;
        put2(table, shift, remain, buf, offset);
        return offset;
    }
    offset -= 1;
    buf[offset] = last_byte(table, shift, remain);
    offset
}

// The same by the digits in order.
pub fn write_digits(shift: u32, n: u64, buf: &mut [u8], end: usize) -> usize
    requires { (0 < shift) × (shift ≤ 4) × (length (text lower (2 ^ shift) n) ≤ end) × (end ≤ length buf.old) }
    ensures { (result ≡ end - length (text lower (2 ^ shift) n)) × (buf.new ≡ ended buf.old end (text lower (2 ^ shift) n)) }
{
    fmt_inner(&digit_table(), shift, n, buf, end)
}

// How many digits n has in base 2 to the shift: the bits that it needs over the shift, rounded up. The library's div_ceil divides, and then looks at
// the remainder: that is a product more where the shift is 3.
pub fn digit_count(shift: u32, n: u64) -> usize
    requires { (0 < shift) × (shift ≤ 4) }
    ensures { result ≡ length (digits (2 ^ shift) n) }
{
    ((digits::bit_length(n) + (shift - 1)) / shift) as usize
}
