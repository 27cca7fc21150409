// The bytes of a buffer loaded as a word, the lowest first.
#![tactic(auto)]

ghost use Rattle.std.specs.Prelude.{◌≡◌, ◌+◌, ◌^◌, ◌≤◌, ◌<◌, length, take, drop};
ghost use Rattle.words.specs.Bytes.{bytes_of};

// The N bytes from the index at on.
fn bytes<const N: usize>(s: &[u8], at: usize) -> [u8; N]
    requires { at + N ≤ length s.now }
    ensures { result ≡ take N (drop at s.now) }
{
    let mut bytes = [0; N];
    bytes.copy_from_slice(&s[at..at + N]);
    bytes
}

// The four bytes from the index at on, as a word.
// Two names over one body: from_le_bytes of u32 and of u64 is a method of no trait of std.
pub fn load4(s: &[u8], at: usize) -> u64
    requires { at + 4 ≤ length s.now }
    ensures { (bytes_of 4 result ≡ take 4 (drop at s.now)) × (result < 2 ^ 32) }
{
    u32::from_le_bytes(bytes(s, at)) as u64
}

// The eight bytes.
pub fn load8(s: &[u8], at: usize) -> u64
    requires { at + 8 ≤ length s.now }
    ensures { bytes_of 8 result ≡ take 8 (drop at s.now) }
{
    u64::from_le_bytes(bytes(s, at))
}
