// Four and eight decimal digits at a time, as the bytes of one word, the first digit in the lowest byte: no table and no loop.
// Each step splits every number in the word at once: a product and a shift give the quotients, a mask keeps them apart.
// No product leaves its word.
#![tactic(auto)]

ghost use Rattle.std.specs.Prelude.{◌≡◌, ◌+◌, ◌*◌, ◌/◌, ◌%◌, ◌<◌};
ghost use Rattle.digits.specs.Digits.{last};
ghost use Rattle.words.specs.Bytes.{bytes_of};
ghost use Rattle.eights.specs.Steps.{pairs_of, tens_of};

// The digits of two numbers below 100, which stand in the halves of y. 2559 is 10 * 256 - 1.
// Not by tens4, whose product has 64 bits: this one stays in 32.
fn tens2(y: u32) -> u32
    requires { (y % 65536 < 100) × (y / 65536 < 100) }
    ensures { result ≡ tens_of y }
{
    let t = ((y * 103) >> 10) & 0x000f_000f;
    (y << 8) - t * 2559
}

// The four digits of n. 6553599 is 100 * 65536 - 1.
pub fn four(n: u32) -> u32
    requires { n < 10000 }
    ensures { bytes_of 4 result ≡ last 10 4 n }
{
    let q = n / 100;
    tens2((n << 16) - q * 6553599)
}

// The pairs of two numbers below 10000, which stand in the halves of x. The steps of tens4 with other masks: with those as arguments it would need
// a law over all masks to say what these three say.
fn pairs2(x: u64) -> u64
    requires { (x % 4294967296 < 10000) × (x / 4294967296 < 10000) }
    ensures { result ≡ pairs_of (x / 4294967296) * 4294967296 + pairs_of (x % 4294967296) }
{
    let q = ((x * 10486) >> 20) & 0x7f_0000_007f;
    (x << 16) - q * 6553599
}

// The digits of four numbers below 100, which stand in the quarters of y.
fn tens4(y: u64) -> u64
    requires { (y % 4294967296 % 65536 < 100) × (y % 4294967296 / 65536 < 100) × (y / 4294967296 % 65536 < 100) × (y / 4294967296 / 65536 < 100) }
    ensures { result ≡ tens_of (y / 4294967296) * 4294967296 + tens_of (y % 4294967296) }
{
    let t = ((y * 103) >> 10) & 0x000f_000f_000f_000f;
    (y << 8) - t * 2559
}

// The eight digits of n.
pub fn eight(n: u32) -> u64
    requires { n < 100000000 }
    ensures { bytes_of 8 result ≡ last 10 8 n }
{
    let hi = n / 10000;
    let lo = n - hi * 10000;
    tens4(pairs2((hi as u64) + ((lo as u64) << 32)))
}
