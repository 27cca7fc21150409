// The decimal text of a number just before an end, by its size class: within a class no loop, and no branch on how many digits there are.
// The digits in front are shifted so that they start the text and are stored whole; those behind are stored over what is too much of them.
// No byte outside the text is touched, so the text's own room is enough.
#![tactic(auto)]

ghost use Rattle.std.specs.Prelude.{◌≡◌, ◌-◌, ◌<◌, ◌≤◌, length};
ghost use Rattle.buffer.specs.AtEnd.{ended};
ghost use Rattle.digits.specs.Text.{decimal};

use words::Word;

// 1 to 4 digits.
// The end travels beside the buffer, as in all crates of writers: the crate buffer says why.
// A function for each class, since each stores other words.
fn end4(n: u32, buf: &mut [u8], end: usize) -> usize
    requires { (n < 10000) × (length (decimal n) ≤ end) × (end ≤ length buf.old) }
    ensures { (result ≡ end - length (decimal n)) × (buf.new ≡ ended buf.old end (decimal n)) }
{
    if n < 10 {
        let at = end - 1;
        buf[at] = 48 + n as u8;
        return at;
    }
    let x = eights::four(n);
    let z = x.zeros();
    words::tail(lanes::shown4(x), z, buf, end)
}

// 5 to 8 digits.
fn end8(n: u32, buf: &mut [u8], end: usize) -> usize
    requires { (9999 < n) × (n < 100000000) × (length (decimal n) ≤ end) × (end ≤ length buf.old) }
    ensures { (result ≡ end - length (decimal n)) × (buf.new ≡ ended buf.old end (decimal n)) }
{
    let x = eights::eight(n);
    let z = x.zeros();
    words::tail(lanes::shown(x), z, buf, end)
}

// 9 to 16 digits.
fn end16(n: u64, buf: &mut [u8], end: usize) -> usize
    requires { (99999999 < n) × (n < 10000000000000000) × (length (decimal n) ≤ end) × (end ≤ length buf.old) }
    ensures { (result ≡ end - length (decimal n)) × (buf.new ≡ ended buf.old end (decimal n)) }
{
    let hi = n / 100000000;
    let lo = n % 100000000;
    let x = eights::eight(hi as u32);
    let z = x.zeros();
    let y = lanes::shown(eights::eight(lo as u32));
    words::tail_two(lanes::shown(x), y, z, buf, end)
}

// 17 to 20 digits.
fn end20(n: u64, buf: &mut [u8], end: usize) -> usize
    requires { (9999999999999999 < n) × (length (decimal n) ≤ end) × (end ≤ length buf.old) }
    ensures { (result ≡ end - length (decimal n)) × (buf.new ≡ ended buf.old end (decimal n)) }
{
    let top = n / 10000000000000000;
    let mid = n / 100000000 % 100000000;
    let lo = n % 100000000;
    let x = eights::four(top as u32);
    let z = x.zeros();
    let y = lanes::shown(eights::eight(mid as u32));
    let at = words::tail_two(lanes::shown4(x), y, z, buf, end - 8);
    lanes::shown(eights::eight(lo as u32)).put(buf, end - 8);
    at
}

// The decimal text of n just before the index end. The answer is where it starts.
pub fn write_before(n: u64, buf: &mut [u8], end: usize) -> usize
    requires { (length (decimal n) ≤ end) × (end ≤ length buf.old) }
    ensures { (result ≡ end - length (decimal n)) × (buf.new ≡ ended buf.old end (decimal n)) }
{
    if n < 100000000 {
        if n < 10000 {
            return end4(n as u32, buf, end);
        }
        return end8(n as u32, buf, end);
    }
    if n < 10000000000000000 {
        return end16(n, buf, end);
    }
    end20(n, buf, end)
}
