// The eight types: range test, sign and magnitude, patterns, and the sizes of num_buffer.rs.
// Carries over BUF_SIZE of fmt/num_buffer.rs and unsigned_abs.
#![tactic(auto)]

ghost use Rattle.std.specs.Prelude.{true, false, pos, IfOk, IsErrOf, ◌≡◌, ◌≤◌, refl};
ghost use Rattle.kinds.specs.Kinds.{known, is_in_type, pattern, meaning, split_of, BufSize};

// A type: its bits (8, 16, 32, 64), and whether it is signed. The bits are the caller's number: one that is no type's is refused as TYPE.
#[derive(Clone, Copy, Debug, PartialEq, Eq)]
pub struct Kind {
    pub bits: u32,
    pub signed: bool,
}

// A number by its sign and its unsigned magnitude.
#[derive(Clone, Copy, Debug, PartialEq, Eq)]
pub struct Split {
    pub negative: bool,
    pub magnitude: u64,
}

// A value of a type, by its 64-bit pattern.
#[derive(Clone, Copy, Debug, PartialEq, Eq)]
pub struct Value {
    pub kind: Kind,
    pub pattern: u64,
    pub ghost of_type: { known kind.bits ≡ true },
    pub ghost in_range: { is_in_type kind.signed kind.bits (meaning 64 kind.signed pattern) ≡ true },
}

// Why there is no such value: the bits are no type's, or the type has no such value.
#[derive(Clone, Copy, Debug, PartialEq, Eq)]
pub enum Misfit {
    Type,
    Value,
}

// One of the eight types of integers: what each value of it is as a whole number, as a pattern, and by sign and magnitude.
// Each type has its impl written out: a macro writes no ghost member, as number, KIND and of_type are, and a blanket impl has no place for the constants.
pub trait Integer: Copy {
    ghost use Rattle.std.specs.Prelude.{ℤ};
    ghost use Rattle.kinds.specs.declared.Kind.{Kind};

    ghost number: { Self → ℤ };

    ghost KIND: { Kind };

    const KIND: Kind;

    // The bytes that the type's longest decimal takes: `Kind::buf_size` proves it.
    const BUF_SIZE: usize;

    // The 64-bit two's complement pattern.
    fn pattern(self) -> u64
        ensures value { result ≡ pattern 64 (number self) }
        ensures in_range { is_in_type KIND.signed KIND.bits (number self) ≡ true };

    fn split(self) -> Split
        ensures { result ≡ split_of (number self) };

    ghost of_type: { known KIND.bits ≡ true };
}

impl Integer for u8 {
    ghost number = { pos };

    ghost KIND = { record { bits = 8; signed = false } };

    ghost of_type = { refl };

    const KIND: Kind = Kind {
        bits: 8,
        signed: false,
    };

    const BUF_SIZE: usize = 3;

    fn pattern(self) -> u64 {
        u64::from(self)
    }

    fn split(self) -> Split {
        u64::from(self).split()
    }
}

impl Integer for u16 {
    ghost number = { pos };

    ghost KIND = { record { bits = 16; signed = false } };

    ghost of_type = { refl };

    const KIND: Kind = Kind {
        bits: 16,
        signed: false,
    };

    const BUF_SIZE: usize = 5;

    fn pattern(self) -> u64 {
        u64::from(self)
    }

    fn split(self) -> Split {
        u64::from(self).split()
    }
}

impl Integer for u32 {
    ghost number = { pos };

    ghost KIND = { record { bits = 32; signed = false } };

    ghost of_type = { refl };

    const KIND: Kind = Kind {
        bits: 32,
        signed: false,
    };

    const BUF_SIZE: usize = 10;

    fn pattern(self) -> u64 {
        u64::from(self)
    }

    fn split(self) -> Split {
        u64::from(self).split()
    }
}

impl Integer for u64 {
    ghost number = { pos };

    ghost KIND = { record { bits = 64; signed = false } };

    ghost of_type = { refl };

    const KIND: Kind = Kind {
        bits: 64,
        signed: false,
    };

    const BUF_SIZE: usize = 20;

    fn pattern(self) -> u64 {
        self
    }

    fn split(self) -> Split {
        Split {
            negative: false,
            magnitude: self,
        }
    }
}

impl Integer for i8 {
    ghost number = { λ x. x };

    ghost KIND = { record { bits = 8; signed = true } };

    ghost of_type = { refl };

    const KIND: Kind = Kind {
        bits: 8,
        signed: true,
    };

    const BUF_SIZE: usize = 4;

    fn pattern(self) -> u64 {
        i64::from(self).pattern()
    }

    fn split(self) -> Split {
        i64::from(self).split()
    }
}

impl Integer for i16 {
    ghost number = { λ x. x };

    ghost KIND = { record { bits = 16; signed = true } };

    ghost of_type = { refl };

    const KIND: Kind = Kind {
        bits: 16,
        signed: true,
    };

    const BUF_SIZE: usize = 6;

    fn pattern(self) -> u64 {
        i64::from(self).pattern()
    }

    fn split(self) -> Split {
        i64::from(self).split()
    }
}

impl Integer for i32 {
    ghost number = { λ x. x };

    ghost KIND = { record { bits = 32; signed = true } };

    ghost of_type = { refl };

    const KIND: Kind = Kind {
        bits: 32,
        signed: true,
    };

    const BUF_SIZE: usize = 11;

    fn pattern(self) -> u64 {
        i64::from(self).pattern()
    }

    fn split(self) -> Split {
        i64::from(self).split()
    }
}

impl Integer for i64 {
    ghost number = { λ x. x };

    ghost KIND = { record { bits = 64; signed = true } };

    ghost of_type = { refl };

    const KIND: Kind = Kind {
        bits: 64,
        signed: true,
    };

    const BUF_SIZE: usize = 20;

    fn pattern(self) -> u64 {
        self.cast_unsigned()
    }

    fn split(self) -> Split {
        Split {
            negative: self < 0,
            magnitude: self.unsigned_abs(),
        }
    }
}

// Whether the bits are those of a type. Most calls are for 64 of them: one comparison tells those apart from the rest.
// One `matches!` for all four took the short call 6 to 8 instructions more.
pub fn is_known(bits: u32) -> bool
    ensures { result ≡ known bits }
{
    if 63 < bits {
        return bits == 64;
    }
    matches!(bits, 8 | 16 | 32)
}

impl Kind {
    // Whether the 64-bit pattern p is a value of the type: of one of 64 bits each is.
    pub fn in_type(self, p: u64) -> bool
        requires { (1 ≤ self.bits) × (self.bits ≤ 64) }
        ensures { result ≡ is_in_type self.signed self.bits (meaning 64 self.signed p) }
    {
        if 63 < self.bits {
            return true;
        }
        let half = 1u64 << (self.bits - 1);
        if self.signed {
            p < half || u64::MAX - p < half
        } else {
            p / 2 < half
        }
    }

    // Sign and magnitude of the value whose 64-bit pattern is p.
    pub fn split_pattern(self, p: u64) -> Split
        ensures { result ≡ split_of (meaning 64 self.signed p) }
    {
        // One test of both: by the sign alone (`p.cast_signed().split()`) the short call took an instruction more.
        if self.signed && 0x7fff_ffff_ffff_ffff < p {
            return Split {
                negative: true,
                magnitude: u64::MAX - p + 1,
            };
        }
        p.split()
    }

    // The pattern at the type's own bits of the value whose 64-bit pattern is p.
    pub fn own_pattern(self, p: u64) -> u64
        requires { (1 ≤ self.bits) × (self.bits ≤ 64) × (is_in_type self.signed self.bits (meaning 64 self.signed p) ≡ true) }
        ensures { result ≡ pattern self.bits (meaning 64 self.signed p) }
    {
        let spare = 64 - self.bits;
        (p << spare) >> spare
    }

    // The bytes that the type's longest decimal takes; 0 where the bits are no type's, and no Option: `BufSize` says so.
    pub fn buf_size(self) -> usize
        ensures { BufSize self.signed self.bits result }
    {
        match (self.bits, self.signed) {
            (8, false) => u8::BUF_SIZE,
            (8, true) => i8::BUF_SIZE,
            (16, false) => u16::BUF_SIZE,
            (16, true) => i16::BUF_SIZE,
            (32, false) => u32::BUF_SIZE,
            (32, true) => i32::BUF_SIZE,
            (64, false) => u64::BUF_SIZE,
            (64, true) => i64::BUF_SIZE,
            _ => 0,
        }
    }
}

impl Value {
    // The value of the type that has the 64-bit pattern, if there is one.
    pub fn judge(kind: Kind, pattern: u64) -> Result<Value, Misfit>
        ensures fits { IfOk result (λ v. (v.kind ≡ kind) × (v.pattern ≡ pattern)) }
        ensures no_type { IsErrOf result Misfit.Type → known kind.bits ≡ false }
        ensures no_value { IsErrOf result Misfit.Value → (known kind.bits ≡ true) × (is_in_type kind.signed kind.bits (meaning 64 kind.signed pattern) ≡ false) }
    {
        if !is_known(kind.bits) {
            return Err(Misfit::Type);
        }
        if !kind.in_type(pattern) {
            return Err(Misfit::Value);
        }
        Ok(Value { kind, pattern })
    }
}

// A number of a type is a value of it.
impl<T: Integer> From<T> for Value {
    ghost use Rattle.kinds.specs.Values.{stands_for};

    ghost from_gives = { λ x v. (v.kind ≡ T.KIND) × (stands_for v ≡ T.number x) };

    fn from(x: T) -> Value {
        Value {
            kind: T::KIND,
            pattern: x.pattern(),
        }
    }
}
