// Hex, octal and binary digits side by side in a word, one a byte, the first in the lowest: four or eight of them at once, and no loop.
#![tactic(auto)]

ghost use Rattle.std.specs.Prelude.{map, ◌≡◌, ◌<◌, ◌≤◌};
ghost use Rattle.digits.specs.Digits.{last, Below};
ghost use Rattle.digits.specs.Text.{ascii, last_text};
ghost use Rattle.lanes.specs.Lanes.{word};
ghost use Rattle.lanes.specs.Letters.{digit_byte};
ghost use Rattle.words.specs.Bytes.{bytes_of};

// The four hex digits of n. The halves of each lane go into lanes of half the size.
fn spread4(n: u32) -> u32
    requires { n < 65536 }
    ensures { result ≡ word 256 (last 16 4 n) }
{
    let bytes = (n >> 8) + ((n % 256) << 16);
    ((bytes >> 4) | (bytes << 8)) & 0x0f0f_0f0f
}

// The four bytes of n in the other order.
fn swapped(n: u32) -> u32
    ensures { result ≡ word 256 (last 256 4 n) }
{
    n.swap_bytes()
}

// They go into lanes of twice the size, the first lowest.
fn wide_bytes(n: u64) -> u64
    requires { n < 4294967296 }
    ensures { result ≡ word 65536 (last 256 4 n) }
{
    let x = swapped(n as u32) as u64;
    let halves = (x | (x << 16)) & 0x0000_ffff_0000_ffff;
    (halves | (halves << 8)) & 0x00ff_00ff_00ff_00ff
}

// The eight hex digits of n: the halves of each byte go into lanes of half the size.
// No twin of spread4: eight digits are turned first.
fn spread8(n: u64) -> u64
    requires { n < 4294967296 }
    ensures { result ≡ word 256 (last 16 8 n) }
{
    let bytes = wide_bytes(n);
    ((bytes >> 4) | (bytes << 8)) & 0x0f0f_0f0f_0f0f_0f0f
}

// The text of eight hex digits that lie one a byte: not `shown`, which knows no letters and so takes less. Six more carry a digit from ten on into the next bit of its lane: there the step from `:` (58) to the letter is added.
// A letter is a number: a type for its two bounds would be no plainer, since each caller passes one of two letters. So with how many bits an argument has.
pub fn spelled(letter: u64, x: u64) -> u64
    requires { (57 < letter) × (letter ≤ 250) × (Below 16 (bytes_of 8 x)) }
    ensures { bytes_of 8 result ≡ map (digit_byte letter) (bytes_of 8 x) }
{
    let tens = ((x + 0x0606_0606_0606_0606) >> 4) & 0x0101_0101_0101_0101;
    x + 0x3030_3030_3030_3030 + tens * (letter - 58)
}

// The text of the four hex digits of n: that of eight, of which four are zeros behind.
pub fn four(letter: u32, n: u32) -> u32
    requires { (57 < letter) × (letter ≤ 250) × (n < 65536) }
    ensures { bytes_of 4 result ≡ last_text (digit_byte letter) 16 4 n }
{
    (spelled(letter as u64, spread4(n) as u64) % 4294967296) as u32
}

// The text of the eight hex digits of n.
pub fn eight(letter: u64, n: u64) -> u64
    requires { (57 < letter) × (letter ≤ 250) × (n < 4294967296) }
    ensures { bytes_of 8 result ≡ last_text (digit_byte letter) 16 8 n }
{
    spelled(letter, spread8(n))
}

// The byte of one hex digit.
pub fn one(letter: u8, n: u8) -> u8
    requires { (letter ≤ 250) × (n < 16) }
    ensures { result ≡ digit_byte letter n }
{
    if n < 10 {
        return 48 + n;
    }
    letter + (n - 10)
}

// The eight binary digits of n. The product has n at seven places, nine bits apart: in the k-th lane its digit k stands lowest.
fn spread_bits(n: u64) -> u64
    requires { n < 256 }
    ensures { result ≡ word 256 (last 2 8 n) }
{
    (n >> 7) + ((n * 0x0100_8040_2010_0804) & 0x0101_0101_0101_0100)
}

// The text of eight digits that lie one a byte and are below ten: `0` more in each.
pub fn shown(x: u64) -> u64
    requires { Below 10 (bytes_of 8 x) }
    ensures { bytes_of 8 result ≡ map ascii (bytes_of 8 x) }
{
    x + 0x3030_3030_3030_3030
}

// The same of four: of eight, of which four are zeros behind.
pub fn shown4(x: u32) -> u32
    requires { Below 10 (bytes_of 4 x) }
    ensures { bytes_of 4 result ≡ map ascii (bytes_of 4 x) }
{
    (shown(x as u64) % 4294967296) as u32
}

// The text of the eight binary digits of n.
pub fn eight_bits(n: u64) -> u64
    requires { n < 256 }
    ensures { bytes_of 8 result ≡ last_text ascii 2 8 n }
{
    shown(spread_bits(n))
}

// Eight octal digits of n, four and four.
fn octal_halves(n: u64) -> u64
    requires { n < 16777216 }
    ensures { result ≡ word 4294967296 (last 4096 2 n) }
{
    (n >> 12) + ((n % 4096) << 32)
}

// One by one: twice the halves of each lane go into lanes of half the size.
fn spread_octal(n: u64) -> u64
    requires { n < 16777216 }
    ensures { result ≡ word 256 (last 8 8 n) }
{
    let halves = octal_halves(n);
    let pairs = ((halves >> 6) | (halves << 16)) & 0x003f_003f_003f_003f;
    ((pairs >> 3) | (pairs << 8)) & 0x0707_0707_0707_0707
}

// The text of the eight octal digits of n. No twin of eight_bits: the numbers are spread by other steps, and what shows them is one, `shown`.
pub fn eight_octal(n: u64) -> u64
    requires { n < 16777216 }
    ensures { bytes_of 8 result ≡ last_text ascii 8 8 n }
{
    shown(spread_octal(n))
}
