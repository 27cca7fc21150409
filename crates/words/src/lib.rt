// A word's bytes stored in a buffer, the lowest first, all of them or without the zeros in front.
// They are loaded by the crate loads.
#![tactic(auto)]

ghost use Rattle.std.specs.Prelude.{ℕ, ◌≡◌, ◌+◌, ◌-◌, ◌*◌, ◌/◌, ◌^◌, ◌≤◌, ◌<◌, ◌++◌, length, drop};
ghost use Rattle.std.proofs.Common.{rules};
ghost use Rattle.std.proofs.lemmas.List.Edits.{sets};
ghost use Rattle.words.specs.Bytes.{bytes_of, zeros_front};

// A number that is stored whole or by halves. The prover knows it by its value and by how many bytes it has.
// The bodies of the two types are alike and written out: a macro writes no ghost member, and std's own methods belong to no trait.
pub trait Word: Copy {
    ghost SIZE: { ℕ };

    ghost value: { Self → ℕ };

    const SIZE: usize;

    // All its bytes from the index at on.
    fn put(self, buf: &mut [u8], at: usize)
        requires { at + SIZE ≤ length buf.old }
        ensures { buf.new ≡ sets buf.old at (bytes_of SIZE (value self)) };

    // The lower half of them.
    fn put_low(self, buf: &mut [u8], at: usize)
        requires { at + SIZE / 2 ≤ length buf.old }
        ensures { buf.new ≡ sets buf.old at (bytes_of (SIZE / 2) (value self)) };

    // The word without its first z bytes: the others stand first, and zeros behind.
    fn without(self, z: u32) -> Self
        requires { z < SIZE }
        ensures { value result ≡ value self / 2 ^ (z * 8) };

    // How many of its bytes are 0 below the first that is not.
    fn zeros(self) -> u32
        ensures { result ≡ zeros_front (bytes_of SIZE (value self)) };

    ghost sized: { (0 < SIZE) × (SIZE ≤ 8) × (SIZE / 2 + SIZE / 2 ≡ SIZE) };
}

impl Word for u32 {
    ghost SIZE = { 4 };

    ghost value = { λ x. x };

    ghost sized = { Prim.search rules };

    const SIZE: usize = 4;

    fn put(self, buf: &mut [u8], at: usize) {
        buf[at..at + 4].copy_from_slice(&self.to_le_bytes());
    }

    fn put_low(self, buf: &mut [u8], at: usize) {
        buf[at..at + 2].copy_from_slice(&((self % 65536) as u16).to_le_bytes());
    }

    fn without(self, z: u32) -> u32 {
        self >> (z * 8)
    }

    fn zeros(self) -> u32 {
        self.trailing_zeros() / 8
    }
}

impl Word for u64 {
    ghost SIZE = { 8 };

    ghost value = { λ x. x };

    ghost sized = { Prim.search rules };

    const SIZE: usize = 8;

    fn put(self, buf: &mut [u8], at: usize) {
        buf[at..at + 8].copy_from_slice(&self.to_le_bytes());
    }

    fn put_low(self, buf: &mut [u8], at: usize) {
        buf[at..at + 4].copy_from_slice(&((self % 4294967296) as u32).to_le_bytes());
    }

    fn without(self, z: u32) -> u64 {
        self >> (z * 8)
    }

    fn zeros(self) -> u32 {
        self.trailing_zeros() / 8
    }
}

// The bytes of x without the first z, so that they end at the index end: two stores that overlap, whatever z is.
// Nothing is stored outside of them. The answer is where they start.
// The end travels beside the buffer, as in all crates of writers: the crate buffer says why.
pub fn tail<X: Word>(x: X, z: u32, buf: &mut [u8], end: usize) -> usize
    requires { (z ≤ X.SIZE / 2) × (X.SIZE ≤ end + z) × (end ≤ length buf.old) }
    ensures { (result ≡ end + z - X.SIZE) × (buf.new ≡ sets buf.old result (drop z (bytes_of X.SIZE (X.value x)))) }
{
    let at = end + z as usize - X::SIZE;
    x.without(z).put_low(buf, at);
    x.without(X::SIZE as u32 / 2)
        .put_low(buf, end - X::SIZE / 2);
    at
}

// The same of two words, one behind the other.
pub fn tail_two<X: Word, Y: Word>(x: X, y: Y, z: u32, buf: &mut [u8], end: usize) -> usize
    requires { (z < X.SIZE) × (z ≤ Y.SIZE) × (X.SIZE + Y.SIZE ≤ end + z) × (end ≤ length buf.old) }
    ensures { (result ≡ end + z - (X.SIZE + Y.SIZE)) × (buf.new ≡ sets buf.old result (drop z (bytes_of X.SIZE (X.value x)) ++ bytes_of Y.SIZE (Y.value y))) }
{
    let at = end + z as usize - (X::SIZE + Y::SIZE);
    x.without(z).put(buf, at);
    y.put(buf, end - Y::SIZE);
    at
}
