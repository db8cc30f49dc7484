//! Counts of dones, of a method and of an activation.
ghost use Rattle.std.specs.Prelude.{◌≡◌, ℕ, ◌+◌, ◌%◌, ◌^◌, ◌≤◌, min};

use std::marker::Model;

/// How many dones a method was told so far, modulo 2^32: what `zwp_input_method_v2.commit` carries as its serial. In
/// contracts it is that number.
#[derive(Clone, Copy, Debug, PartialEq, Eq)]
pub struct Count32 {
    dones: u32,
}

impl Model for Count32 {
    ghost use Rattle.std.specs.Prelude.{ℕ};

    ghost Value = { ℕ };

    ghost view = { λ count. count.dones };

    ghost inverse = { λ n. record { dones = n } };
}

impl Count32 {
    /// The count at `n`, any u32; 0 before the first done.
    pub fn at(n: u32) -> Self
        ensures { result ≡ n }
    {
        Self { dones: n }
    }

    /// Counts one done more. After 4,294,967,295 comes 0.
    pub fn next(&mut self)
        ensures number { self.new ≡ (self.old + 1) % 2 ^ 32 }
        ensures counts { (k : ℕ) → self.old ≡ k % 2 ^ 32 → self.new ≡ (k + 1) % 2 ^ 32 }
    {
        self.dones = self.dones.wrapping_add(1);
    }

    /// The number, which is the serial of the last done.
    pub fn get(&self) -> u32
        ensures { result ≡ self.now }
    {
        self.dones
    }
}

/// How many dones a method was told in the present activation, 0 where none is present. It stays at 2^32 once there,
/// since that many already have every serial. In contracts it is that number.
#[derive(Clone, Copy, Debug, PartialEq, Eq)]
pub struct Since {
    dones: u64,
}

impl Model for Since {
    ghost use Rattle.std.specs.Prelude.{ℕ, ◌≤◌, ◌^◌};

    ghost Value = { ℕ };

    ghost view = { λ since. since.dones };

    ghost invariant = { λ since. since.dones ≤ 2 ^ 32 };

    ghost inverse = { λ n. record { dones = n } };
}

impl Since {
    const ALL_SERIALS: u64 = 4_294_967_296;

    /// The count at `n`, any u64; what is above 2^32 is taken as 2^32.
    pub fn at(n: u64) -> Self
        ensures { result ≡ min n (2 ^ 32) }
    {
        Self {
            dones: n.min(Self::ALL_SERIALS),
        }
    }

    /// An activation begins, and its own done is the first.
    pub fn begin(&mut self)
        ensures { self.new ≡ 1 }
    {
        self.dones = 1;
    }

    /// Counts one done more; stays at 2^32 once there.
    pub fn next(&mut self)
        ensures number { self.new ≡ min (self.old + 1) (2 ^ 32) }
        ensures counts { (j : ℕ) → self.old ≡ min j (2 ^ 32) → self.new ≡ min (j + 1) (2 ^ 32) }
    {
        if self.dones < Self::ALL_SERIALS {
            self.dones += 1;
        }
    }

    /// The number, at most 2^32.
    pub fn get(&self) -> u64
        ensures number { result ≡ self.now }
        ensures limit { result ≤ 2 ^ 32 }
    {
        self.dones
    }
}
