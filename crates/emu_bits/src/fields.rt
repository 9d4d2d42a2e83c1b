//! The types of an instruction's fields.
ghost use Rattle.std.specs.Prelude.{◌≡◌, ◌+◌, ◌^◌, ◌<◌, ◌≤◌, MatchOption};
ghost use Rattle.emu_bits.specs.Fields.{field};

use crate::insn_words::bits;
use std::marker::Model;

/// A register's number, 0 to 31.
#[derive(Clone, Copy, PartialEq, Eq, Debug)]
pub struct Reg {
    number: u32,
}

impl Model for Reg {
    ghost use Rattle.std.specs.Prelude.{ℕ, ◌<◌};

    ghost Value = { ℕ };

    ghost view = { λ r. r.number };

    ghost invariant = { λ r. r.number < 32 };

    ghost inverse = { λ n. record { number = n } };
}

impl Reg {
    /// The register of this number, or none where the number is 32 or more.
    pub fn new(v: u32) -> Option<Self>
        ensures { MatchOption result (32 ≤ v) (λ r. (v < 32) × (r ≡ v)) }
    {
        if v < 32 {
            Some(Reg { number: v })
        } else {
            None
        }
    }

    /// The register that a word names in the 5 bits from `lo` on.
    pub fn at(w: u32, lo: u32) -> Self
        requires { lo ≤ 27 }
        ensures { result ≡ field w lo 5 }
    {
        Reg {
            number: bits(w, lo + 4, lo),
        }
    }

    /// Its number.
    pub fn get(self) -> u32
        ensures value { result ≡ self }
        ensures small { result < 32 }
    {
        self.number
    }
}

/// A predicate register's number, 0 to 15.
#[derive(Clone, Copy, PartialEq, Eq, Debug)]
pub struct Pred {
    number: u32,
}

impl Model for Pred {
    ghost use Rattle.std.specs.Prelude.{ℕ, ◌<◌};

    ghost Value = { ℕ };

    ghost view = { λ r. r.number };

    ghost invariant = { λ r. r.number < 16 };

    ghost inverse = { λ n. record { number = n } };
}

impl Pred {
    /// The predicate register of this number, or none where the number is 16 or more.
    pub fn new(v: u32) -> Option<Self>
        ensures { MatchOption result (16 ≤ v) (λ r. (v < 16) × (r ≡ v)) }
    {
        if v < 16 {
            Some(Pred { number: v })
        } else {
            None
        }
    }

    /// The predicate register that a word names in the 4 bits from `lo` on.
    pub fn at(w: u32, lo: u32) -> Self
        requires { lo ≤ 28 }
        ensures { result ≡ field w lo 4 }
    {
        Pred {
            number: bits(w, lo + 3, lo),
        }
    }

    /// Its number.
    pub fn get(self) -> u32
        ensures value { result ≡ self }
        ensures small { result < 16 }
    {
        self.number
    }
}

/// The number of a low predicate register, 0 to 7, as a governing predicate has it.
#[derive(Clone, Copy, PartialEq, Eq, Debug)]
pub struct PredLow {
    number: u32,
}

impl Model for PredLow {
    ghost use Rattle.std.specs.Prelude.{ℕ, ◌<◌};

    ghost Value = { ℕ };

    ghost view = { λ r. r.number };

    ghost invariant = { λ r. r.number < 8 };

    ghost inverse = { λ n. record { number = n } };
}

impl PredLow {
    /// The low predicate register of this number, or none where the number is 8 or more.
    pub fn new(v: u32) -> Option<Self>
        ensures { MatchOption result (8 ≤ v) (λ r. (v < 8) × (r ≡ v)) }
    {
        if v < 8 {
            Some(PredLow { number: v })
        } else {
            None
        }
    }

    /// The low predicate register that a word names in the 3 bits from `lo` on.
    pub fn at(w: u32, lo: u32) -> Self
        requires { lo ≤ 29 }
        ensures { result ≡ field w lo 3 }
    {
        PredLow {
            number: bits(w, lo + 2, lo),
        }
    }

    /// The same register as one of all sixteen.
    pub fn register(self) -> Pred
        ensures { result ≡ self }
    {
        Pred {
            number: self.number,
        }
    }

    /// Its number.
    pub fn get(self) -> u32
        ensures value { result ≡ self }
        ensures small { result < 8 }
    {
        self.number
    }
}

/// A number below 2^N: a field of N bits.
#[derive(Clone, Copy, PartialEq, Eq, Debug)]
pub struct U<const N: u32> {
    number: u32,
}

impl<const N: u32> Model for U<N> {
    ghost use Rattle.std.specs.Prelude.{ℕ, ◌<◌, ◌^◌};

    ghost Value = { ℕ };

    ghost view = { λ r. r.number };

    ghost invariant = { λ r. r.number < 2 ^ N };

    ghost inverse = { λ n. record { number = n } };
}

impl<const N: u32> U<N> {
    /// The number, or none where it is 2^N or more.
    #[tactic(auto, using(crate::proofs::Places::below_wide, crate::proofs::Places::below_power, crate::proofs::Places::from_power))]
    pub fn new(v: u32) -> Option<Self>
        ensures { MatchOption result (2 ^ N ≤ v) (λ r. (v < 2 ^ N) × (r ≡ v)) }
    {
        if N >= 32 {
            return Some(U { number: v });
        }
        if v >> N == 0 {
            Some(U { number: v })
        } else {
            None
        }
    }

    /// The number that a word has in the N bits from `lo` on.
    pub fn at(w: u32, lo: u32) -> Self
        requires some { 0 < N }
        requires fits { lo + N ≤ 32 }
        ensures { result ≡ field w lo N }
    {
        U {
            number: bits(w, lo + (N - 1), lo),
        }
    }

    /// The number.
    pub fn get(self) -> u32
        ensures value { result ≡ self.entry }
        ensures small { result < 2 ^ N }
    {
        self.number
    }
}
