//! Bits of a word read and put in.
ghost use Rattle.std.specs.Prelude.{◌≡◌, ◌+◌, ◌-◌, ◌*◌, ◌^◌, ◌<◌, ◌≤◌, bit_or, nat_eq};
ghost use Rattle.emu_bits.specs.Fields.{field, bit};

use crate::fields::{Pred, PredLow, Reg, U};

/// The bits hi down to lo of a word, as a number.
pub fn bits(w: u32, hi: u32, lo: u32) -> u32
    requires order { lo ≤ hi }
    requires within { hi ≤ 31 }
    ensures { result ≡ field w lo (hi - lo + 1) }
{
    (w >> lo) & (u32::MAX >> (31 - (hi - lo)))
}

/// Whether a word's bit is set.
pub fn flag(w: u32, lo: u32) -> bool
    requires { lo ≤ 31 }
    ensures set { result ≡ nat_eq (field w lo 1) 1 }
    ensures number { bit result ≡ field w lo 1 }
{
    bits(w, lo, lo) == 1
}

/// The word with a number's bits put in from the place `lo` on.
pub fn put(w: u32, v: u32, lo: u32) -> u32
    requires low { lo ≤ 31 }
    requires fits { v * 2 ^ lo < 2 ^ 32 }
    ensures { result ≡ bit_or w (v * 2 ^ lo) }
{
    w | v << lo
}

/// A word that is being put together from its fields.
#[derive(Clone, Copy, Debug)]
pub struct Word {
    pub bits: u32,
}

impl Word {
    /// The word with a flag put in at a place.
    pub fn flag(self, v: bool, lo: u32) -> Self
        requires { lo ≤ 31 }
        ensures bits { result.bits ≡ bit_or self.bits (bit v * 2 ^ lo) }
        ensures fits { bit v < 2 }
    {
        Word {
            bits: put(self.bits, u32::from(v), lo),
        }
    }

    /// The word with a register put in at a place.
    pub fn reg(self, v: Reg, lo: u32) -> Self
        requires { lo ≤ 27 }
        ensures bits { result.bits ≡ bit_or self.bits (v * 2 ^ lo) }
        ensures fits { v < 32 }
    {
        Word {
            bits: put(self.bits, v.get(), lo),
        }
    }

    /// The word with a predicate register put in at a place.
    pub fn pred(self, v: Pred, lo: u32) -> Self
        requires { lo ≤ 28 }
        ensures bits { result.bits ≡ bit_or self.bits (v * 2 ^ lo) }
        ensures fits { v < 16 }
    {
        Word {
            bits: put(self.bits, v.get(), lo),
        }
    }

    /// The word with a low predicate register put in at a place.
    pub fn pred_low(self, v: PredLow, lo: u32) -> Self
        requires { lo ≤ 29 }
        ensures bits { result.bits ≡ bit_or self.bits (v * 2 ^ lo) }
        ensures fits { v < 8 }
    {
        Word {
            bits: put(self.bits, v.get(), lo),
        }
    }

    /// The word with a number put in at a place.
    pub fn number<const N: u32>(self, v: U<N>, lo: u32) -> Self
        requires some { 0 < N }
        requires fits { lo + N ≤ 32 }
        ensures bits { result.bits ≡ bit_or self.bits (v.entry * 2 ^ lo) }
        ensures fits { v.entry < 2 ^ N }
    {
        Word {
            bits: put(self.bits, v.get(), lo),
        }
    }
}
