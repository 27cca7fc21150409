// Decimal by digit pairs, right to left: the plain form, which a short buffer takes.
// Carries over _fmt_inner and format_into of fmt/num.rs: four digits a turn, then two, then one.
#![tactic(auto)]

ghost use Rattle.std.specs.Prelude.{◌≡◌, ◌+◌, ◌-◌, ◌<◌, ◌≤◌, length};
ghost use Rattle.std.proofs.lemmas.List.Edits.{sets};
ghost use Rattle.buffer.specs.AtEnd.{ended};
ghost use Rattle.digits.specs.Tables.{pair_table};
ghost use Rattle.digits.specs.Text.{ascii, last_text, decimal};

// The two digits of k at the index at. Not the put2 of bit_table: there each digit is looked up by itself, here both are one entry.
// The table is lent with its rule: a struct that lends it, for three functions, would be no plainer.
fn put2(pairs: &[u8; 200], k: usize, buf: &mut [u8], at: usize)
    requires { (pairs.now ≡ pair_table) × (k < 100) × (at + 2 ≤ length buf.old) }
    ensures { buf.new ≡ sets buf.old at (last_text ascii 10 2 k) }
{
    buf[at] = pairs[k * 2];
    buf[at + 1] = pairs[k * 2 + 1];
}

// The four digits of k at the index at: two pairs.
fn put4(pairs: &[u8; 200], k: usize, buf: &mut [u8], at: usize)
    requires { (pairs.now ≡ pair_table) × (k < 10000) × (at + 4 ≤ length buf.old) }
    ensures { buf.new ≡ sets buf.old at (last_text ascii 10 4 k) }
{
    put2(pairs, k / 100, buf, at);
    put2(pairs, k % 100, buf, at + 2);
}

// The decimal text of n just before the index end, with the table of pairs. The answer is where it starts.
// The loop runs over what is left of the number, of which nothing is a list: a `for` would need an iterator of quotients of its own.
// The end travels beside the buffer, as in all crates of writers: the crate buffer says why.
fn fmt_inner(pairs: &[u8; 200], n: u64, buf: &mut [u8], end: usize) -> usize
    requires { (pairs.now ≡ pair_table) × (length (decimal n) ≤ end) × (end ≤ length buf.old) }
    ensures { (result ≡ end - length (decimal n)) × (buf.new ≡ ended buf.old end (decimal n)) }
{
    let mut offset = end;
    let mut remain = n;
    while 999 < remain {
        offset -= 4;
        put4(pairs, (remain % 10000) as usize, buf, offset);
        remain = remain / 10000;
    }
    if 9 < remain {
        offset -= 2;
        put2(pairs, (remain % 100) as usize, buf, offset);
        remain = remain / 100;
    }
    if remain != 0 || n == 0 {
        offset -= 1;
        buf[offset] = pairs[(remain % 16) as usize * 2 + 1];
    }
    offset
}

// The plain form: the decimal text of n just before the index end, two digits at a time. The answer is where it starts.
pub fn write_pairs_before(n: u64, buf: &mut [u8], end: usize) -> usize
    requires { (length (decimal n) ≤ end) × (end ≤ length buf.old) }
    ensures { (result ≡ end - length (decimal n)) × (buf.new ≡ ended buf.old end (decimal n)) }
{
    fmt_inner(&digits::decimal_pairs(), n, buf, end)
}
