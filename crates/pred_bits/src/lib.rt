//! Predicates of up to 256 bits, kept as four words of 64 bits, and what SVE instructions make of them.
//!
//! Contracts see a predicate as the list of its bits, the lowest first. A lane of e bits has the field of e / 8 bits
//! from bit k * e / 8 on, and is active, or set, where the lowest of them is 1. The predicates of one call have the
//! same number of bits. No call allocates.
#![tactic(auto)]

mod lanes;
mod patterns;
mod pred_words;
mod whole;

ghost use Rattle.std.specs.Prelude.{◌≡◌, ◌<◌, ◌≤◌, ◌*◌, ◌/◌, true, false, length, get_or, set, replicate};
ghost use Rattle.emu_bits.specs.Flags.{size_of};
ghost use Rattle.lane_model.specs.Bits.{active, lanes_of};
ghost use Rattle.lane_model.specs.WordBits.{AreClearFrom, bits_of};

use emu_bits::Esize;
pub use lane_model::predicates::{LogicOp, WhileTest};
pub use lanes::{
    all_lanes, count, first_lanes, lanes_below, next, next_tested, pred_test, test_all, while_bits,
    while_tested,
};
pub use patterns::pattern_count;
use std::marker::Model;
pub use whole::{brk, brkn, brkp, first, logic, ones};

/// A predicate: up to 256 bits. Contracts see the list of its bits.
#[derive(Drop)]
pub struct PredBits {
    words: [u64; 4],
    bits: u32,
}

impl Model for PredBits {
    ghost use Rattle.std.specs.Prelude.{List, Bool};

    ghost Value = { List Bool };

    ghost use Rattle.pred_bits.specs.Shown.{shown, IsInside};

    ghost view = { shown };

    ghost invariant = { IsInside };
}

impl PredBits {
    /// So many bits, at most 256, all false.
    #[tactic(auto, using(crate::proofs::Views::views))]
    pub fn new(lanes: u32) -> PredBits
        requires { lanes ≤ 256 }
        ensures { result ≡ replicate lanes false }
    {
        PredBits {
            words: [0; 4],
            bits: lanes,
        }
    }

    /// The first so many bits of words, at most 256, the lowest first. The others have to be 0.
    pub fn of_words(bits: u32, words: &[u64; 4]) -> PredBits
        requires few { bits ≤ 256 }
        requires above { AreClearFrom bits words.now }
        ensures { result ≡ bits_of bits words.now }
    {
        PredBits {
            words: *words,
            bits,
        }
    }

    /// The words: 0 from the number of bits on.
    #[tactic(auto, using(crate::proofs::Views::views))]
    pub fn words(&self) -> &[u64; 4]
        ensures words { self.now ≡ bits_of (length self.now) result.now }
        ensures above { AreClearFrom (length self.now) result.now }
    {
        &self.words
    }

    /// The number of bits.
    #[tactic(auto, using(crate::proofs::Views::views))]
    pub fn bits(&self) -> u32
        ensures value { result ≡ length self.now }
        ensures few { result ≤ 256 }
    {
        self.bits
    }

    /// Bit k.
    #[tactic(auto, using(crate::proofs::Views::views))]
    pub fn get(&self, k: u32) -> bool
        requires { k < length self.now }
        ensures { result ≡ get_or self.now k false }
    {
        (self.words[k as usize / 64] >> (k % 64)) % 2 == 1
    }

    /// Writes bit k.
    #[tactic(auto, using(crate::proofs::Views::views))]
    pub fn set(&mut self, k: u32, v: bool)
        requires { k < length self.old }
        ensures { self.new ≡ set self.old k v }
    {
        let word = self.words[k as usize / 64];
        self.words[k as usize / 64] = pred_words::with_bit(word, k % 64, v);
    }

    /// The number of lanes of a size, whose fields lie within the bits.
    pub fn lanes(&self, e: Esize) -> u32
        ensures value { result ≡ lanes_of (size_of e) (length self.now) }
        ensures few { result ≤ 256 }
    {
        self.bits() / (e.bits() / 8)
    }

    /// Whether lane k is active, or set.
    pub fn lane(&self, e: Esize, k: u32) -> bool
        requires { k < lanes_of (size_of e) (length self.now) }
        ensures { result ≡ active (size_of e) self.now k }
    {
        let _bits = self.bits();
        self.get(k * (e.bits() / 8))
    }

    /// Sets lane k.
    pub fn set_lane(&mut self, e: Esize, k: u32)
        requires { k < lanes_of (size_of e) (length self.old) }
        ensures { self.new ≡ set self.old (k * (size_of e / 8)) true }
    {
        let _bits = self.bits();
        self.set(k * (e.bits() / 8), true);
    }
}
