// Digit pairs, powers of ten, the count of decimal digits and the bits a pattern needs.
// Carries over DECIMAL_PAIRS and checked_ilog10 of fmt/num.rs; checked_pow becomes the table of powers.
#![tactic(auto)]

ghost use Rattle.std.specs.Prelude.{◌≡◌, ◌^◌, ◌<◌, length};
ghost use Rattle.digits.specs.Digits.{digits};
ghost use Rattle.digits.specs.Tables.{pair_table};
ghost use Rattle.digits.specs.Text.{decimal};

// The two digits of each number below 100, in ASCII.
const DECIMAL_PAIRS: [u8; 200] = *b"\
    0001020304050607080910111213141516171819\
    2021222324252627282930313233343536373839\
    4041424344454647484950515253545556575859\
    6061626364656667686970717273747576777879\
    8081828384858687888990919293949596979899";

// The table by value, with its rule. A constant that is named or indexed is copied whole each time: a writer takes it once here and lends it on.
pub fn decimal_pairs() -> [u8; 200]
    ensures { result ≡ pair_table }
{
    DECIMAL_PAIRS
}

// 10 to the k: the table of powers, each that 64 bits hold. A match that lists every arm becomes a table in read-only data, where a constant array
// would be copied to the stack at each use.
pub fn power(k: usize) -> u64
    requires { k < 20 }
    ensures { result ≡ 10 ^ k }
{
    match k {
        0 => 1,
        1 => 10,
        2 => 100,
        3 => 1000,
        4 => 10000,
        5 => 100000,
        6 => 1000000,
        7 => 10000000,
        8 => 100000000,
        9 => 1000000000,
        10 => 10000000000,
        11 => 100000000000,
        12 => 1000000000000,
        13 => 10000000000000,
        14 => 100000000000000,
        15 => 1000000000000000,
        16 => 10000000000000000,
        17 => 100000000000000000,
        18 => 1000000000000000000,
        19 => 10000000000000000000,
        _ => 0,
    }
}

// How many digits n has in decimal, with no division: the bits of n tell it but for one, and a comparison with a power of ten tells that one.
// 1233 / 4096 is a little more than the digits that a bit is worth. n | 1 has as many digits as n, and a bit where n has none.
pub fn digit_count(n: u64) -> usize
    ensures { result ≡ length (decimal n) }
{
    let x = n | 1;
    let t = (((64 - x.leading_zeros()) * 1233) >> 12) as usize;
    if x < power(t) {
        return t;
    }
    t + 1
}

// The bits that the pattern x needs: 64 less the leading zeros of x | 1, which are 63 for zero. So many binary digits has it.
pub fn bit_length(x: u64) -> u32
    ensures { result ≡ length (digits 2 x) }
{
    64 - (x | 1).leading_zeros()
}
