//! The vector registers of a machine: 32 Z registers, 16 predicates and FFR, kept as words of 64 bits.
//!
//! Contracts see them as `Vectors` of `emu_model`: lists of bytes and of bits, the lowest first, as many as the present
//! vector length has, which is at most the starting one. Bits at or above the present length are 0, and every call
//! keeps them so. A call changes the register that it names and nothing else, and copies no other; `set_length` and
//! `after_call` clear.
#![tactic(auto)]

mod extension;
mod lower;
mod numbers;
mod packing;

ghost use Rattle.std.specs.Prelude.{◌≡◌, ℕ, Bool, ◌<◌, ◌≤◌, ◌*◌, ◌/◌, ◌%◌, ◌^◌, length, get_or, set, false};
ghost use Rattle.emu_model.specs.SoundState.{IsVectorLength};
ghost use Rattle.emu_model.specs.Lists.{each};
ghost use Rattle.emu_model.specs.State.{zero_vectors};
ghost use Rattle.emu_model.specs.Active.{active};
ghost use Rattle.emu_model.specs.Writes as model_call;
ghost use Rattle.emu_model.specs.AfterCall.{cleared};
ghost use Rattle.emu_model.specs.Lanes as model;
ghost use Rattle.emu_model.specs.Lanes.{read_z, read_p, with_z, with_p, with_ffr, with_lanes, with_fields, with_low};
ghost use Rattle.emu_model.specs.Writes.{with_ffr_fields};
ghost use Rattle.emu_model.specs.LaneSizes.{IsLaneSize};
ghost use Rattle.vec_regs.specs.Packed.{IsLowSize};
ghost use Rattle.vec_regs.specs.Words.{byte_with_pair, bytes_of, bits_of, AreZeroFrom, AreClearFrom};

use emu_bits::{Pred, Reg};
pub use emu_model::Length;
pub use extension::extended;
use std::marker::Model;

/// The vector registers of a machine, of the present vector length (VL), which may change up to the starting one.
/// Contracts see them as a record.
#[derive(Drop)]
pub struct VecRegs {
    z: [[u64; 32]; 32],
    p: [[u64; 4]; 16],
    ffr: [u64; 4],
    most: Length,
    length: Length,
}

impl Model for VecRegs {
    ghost use Rattle.emu_model.specs.State.{Vectors};
    ghost use Rattle.emu_model.specs.Codes.{coded_vectors};
    ghost use Rattle.vec_regs.specs.Shown.{shown, IsInside};

    ghost Value = { Vectors };

    ghost coded = { coded_vectors };

    ghost view = { shown };

    ghost invariant = { IsInside };
}

impl VecRegs {
    /// All registers 0, of a vector length, which is both the starting one and the present one.
    pub fn new(l: Length) -> VecRegs
        ensures { result ≡ zero_vectors l }
    {
        let _bits = l.bits();
        VecRegs {
            z: [[0; 32]; 32],
            p: [[0; 4]; 16],
            ffr: [0; 4],
            most: l,
            length: l,
        }
    }

    /// The same registers once more.
    pub fn copy(&self) -> VecRegs
        ensures { result ≡ self.now }
    {
        VecRegs {
            z: self.z,
            p: self.p,
            ffr: self.ffr,
            most: self.most,
            length: self.length,
        }
    }

    /// Becomes the same as other registers, where it stands. Of the Z registers only what is within one of the present
    /// lengths is moved.
    pub fn set(&mut self, other: &VecRegs)
        ensures { self.new ≡ other.now }
    {
        let count = lower::words_of(self.length, other.length);
        lower::copy_registers(&mut self.z, &other.z, count);
        self.p = other.p;
        self.ffr = other.ffr;
        self.most = other.most;
        self.length = other.length;
    }

    /// The starting vector length, in bits: a multiple of 128 from 128 to 2048. The present one is at most that.
    pub fn most(&self) -> Length
        ensures value { result ≡ self.now.most }
        ensures length { IsVectorLength self.now.most }
        ensures within { self.now.bits ≤ self.now.most }
    {
        self.most
    }

    /// The present vector length, in bits: a multiple of 128 from 128 to 2048.
    pub fn length(&self) -> Length
        ensures value { result ≡ self.now.bits }
        ensures length { IsVectorLength self.now.bits }
        ensures within { self.now.bits ≤ self.now.most }
    {
        self.length
    }

    /// Byte k of a Z register, one of its VL / 8.
    #[tactic(auto, using(crate::proofs::Views::views))]
    pub fn z_byte(&self, r: Reg, k: u32) -> u8
        requires { k < self.now.bits / 8 }
        ensures { result ≡ get_or (read_z self.now r) k 0 }
    {
        let n = r.get() as usize;
        let _bits = self.length.bits();
        ((self.z[n][k as usize / 8] >> (8 * (k % 8))) % 256) as u8
    }

    /// Writes byte k of a Z register, one of its VL / 8.
    pub fn set_z_byte(&mut self, r: Reg, k: u32, v: u8)
        requires { k < self.old.bits / 8 }
        ensures { self.new ≡ with_z self.old r (set (read_z self.old r) k v) }
    {
        let n = r.get() as usize;
        let _bits = self.length.bits();
        let word = self.z[n][k as usize / 8];
        self.z[n][k as usize / 8] = numbers::put(word, k % 8 * 8, 8, v as u64);
    }

    /// Bit k of a predicate register, one of its VL / 8.
    #[tactic(auto, using(crate::proofs::Views::views))]
    pub fn p_bit(&self, r: Pred, k: u32) -> bool
        requires { k < self.now.bits / 8 }
        ensures { result ≡ get_or (read_p self.now r) k false }
    {
        let n = r.get() as usize;
        let _bits = self.length.bits();
        (self.p[n][k as usize / 64] >> (k % 64)) % 2 == 1
    }

    /// Writes bit k of a predicate register, one of its VL / 8.
    pub fn set_p_bit(&mut self, r: Pred, k: u32, v: bool)
        requires { k < self.old.bits / 8 }
        ensures { self.new ≡ with_p self.old r (set (read_p self.old r) k v) }
    {
        let n = r.get() as usize;
        let _bits = self.length.bits();
        let word = self.p[n][k as usize / 64];
        self.p[n][k as usize / 64] = numbers::put(word, k % 64, 1, u64::from(v));
    }

    /// Bit k of FFR, one of its VL / 8.
    #[tactic(auto, using(crate::proofs::Views::views))]
    pub fn ffr_bit(&self, k: u32) -> bool
        requires { k < self.now.bits / 8 }
        ensures { result ≡ get_or self.now.ffr k false }
    {
        let _bits = self.length.bits();
        (self.ffr[k as usize / 64] >> (k % 64)) % 2 == 1
    }

    /// Writes bit k of FFR, one of its VL / 8.
    pub fn set_ffr_bit(&mut self, k: u32, v: bool)
        requires { k < self.old.bits / 8 }
        ensures { self.new ≡ with_ffr self.old (set self.old.ffr k v) }
    {
        let _bits = self.length.bits();
        let word = self.ffr[k as usize / 64];
        self.ffr[k as usize / 64] = numbers::put(word, k % 64, 1, u64::from(v));
    }

    /// The lowest 128 bits of a Z register.
    #[tactic(auto, using(crate::proofs::Low::low_read))]
    pub fn low(&self, r: Reg) -> u128
        ensures { result ≡ model.lane 128 (read_z self.now r) 0 }
    {
        let _length = self.length();
        let first = self.lane(r, 64, 0);
        let second = self.lane(r, 64, 1);
        numbers::joined(first, second)
    }

    /// Writes the low `bits` bits of v to a Z register, and zeros above.
    #[tactic(auto, using(crate::proofs::Low::low_written))]
    pub fn set_low(&mut self, r: Reg, bits: u32, v: u128)
        requires { IsLowSize bits }
        ensures { self.new ≡ with_low bits v r self.old }
    {
        let _length = self.length();
        let words = lower::register_of(numbers::low_part(bits, v));
        self.set_z_words(r, &words);
    }

    /// Makes l the vector length, which is at most the starting one: the low 128 bits of each Z register stay, and its
    /// other bits, the predicates and FFR are 0.
    pub fn set_length(&mut self, l: Length)
        requires { l ≤ self.old.most }
        ensures { self.new ≡ cleared l self.old }
    {
        let _bits = l.bits();
        lower::keep_low(&mut self.z);
        self.p = [[0; 4]; 16];
        self.ffr = [0; 4];
        self.length = l;
    }

    /// What a system call that returns leaves: the bits above 127 of each Z register, the predicates and FFR are 0.
    pub fn after_call(&mut self)
        ensures { self.new ≡ model_call.after_call self.old }
    {
        let length = self.length();
        self.set_length(length);
    }

    /// The words of a Z register, the lowest first: 0 from bit VL on.
    #[tactic(auto, using(crate::proofs::Views::views))]
    pub fn z_words(&self, r: Reg) -> &[u64; 32]
        ensures words { read_z self.now r ≡ bytes_of (self.now.bits / 8) result.now }
        ensures above { AreZeroFrom (self.now.bits / 64) result.now }
    {
        let n = r.get() as usize;
        &self.z[n]
    }

    /// Writes the words of a Z register, the lowest first. Their bits from VL on have to be 0.
    #[tactic(auto, using(crate::proofs::Views::views))]
    pub fn set_z_words(&mut self, r: Reg, w: &[u64; 32])
        requires { AreZeroFrom (self.old.bits / 64) w.now }
        ensures { self.new ≡ with_z self.old r (bytes_of (self.old.bits / 8) w.now) }
    {
        let n = r.get() as usize;
        self.z[n] = *w;
    }

    /// Writes part i of a Z register, its 128 bits from 128 * i on: a pair of words, the lower first.
    pub fn set_z_pair(&mut self, r: Reg, i: u32, pair: [u64; 2])
        requires { i < self.old.bits / 128 }
        ensures { self.new ≡ with_z self.old r (each (self.old.bits / 8) (byte_with_pair (read_z self.old r) i pair)) }
    {
        let n = r.get() as usize;
        let _bits = self.length.bits();
        lower::put_pair(&mut self.z[n], i, pair);
    }

    /// The words of a predicate register, the lowest first: 0 from bit VL / 8 on.
    #[tactic(auto, using(crate::proofs::Views::views))]
    pub fn p_words(&self, r: Pred) -> &[u64; 4]
        ensures words { read_p self.now r ≡ bits_of (self.now.bits / 8) result.now }
        ensures above { AreClearFrom (self.now.bits / 8) result.now }
    {
        let n = r.get() as usize;
        &self.p[n]
    }

    /// Writes the words of a predicate register, the lowest first. Their bits from VL / 8 on have to be 0.
    #[tactic(auto, using(crate::proofs::Views::views))]
    pub fn set_p_words(&mut self, r: Pred, w: &[u64; 4])
        requires { AreClearFrom (self.old.bits / 8) w.now }
        ensures { self.new ≡ with_p self.old r (bits_of (self.old.bits / 8) w.now) }
    {
        let n = r.get() as usize;
        self.p[n] = *w;
    }

    /// The words of FFR, the lowest first: 0 from bit VL / 8 on.
    #[tactic(auto, using(crate::proofs::Views::views))]
    pub fn ffr_words(&self) -> &[u64; 4]
        ensures words { self.now.ffr ≡ bits_of (self.now.bits / 8) result.now }
        ensures above { AreClearFrom (self.now.bits / 8) result.now }
    {
        &self.ffr
    }

    /// Writes the words of FFR, the lowest first. Their bits from VL / 8 on have to be 0.
    #[tactic(auto, using(crate::proofs::Views::views))]
    pub fn set_ffr_words(&mut self, w: &[u64; 4])
        requires { AreClearFrom (self.old.bits / 8) w.now }
        ensures { self.new ≡ with_ffr self.old (bits_of (self.old.bits / 8) w.now) }
    {
        self.ffr = *w;
    }

    /// Lane k of e bits of a Z register, one of its VL / e.
    #[tactic(auto, using(crate::proofs::WordLanes::lanes_shown))]
    pub fn lane(&self, r: Reg, e: u32, k: u32) -> u64
        requires size { IsLaneSize e }
        requires within { k < self.now.bits / e }
        ensures value { result ≡ model.lane e (read_z self.now r) k }
        ensures small { result < 2 ^ e }
    {
        let n = r.get() as usize;
        let _bits = self.length.bits();
        let at = k * (e / 8);
        let word = self.z[n][at as usize / 8] >> (8 * (at % 8));
        numbers::low_lane(e, word)
    }

    /// Whether lane k of e bits, one of VL / e, is active by a governing predicate.
    pub fn is_active(&self, pg: Pred, e: u32, k: u32) -> bool
        requires size { IsLaneSize e }
        requires within { k < self.now.bits / e }
        ensures { result ≡ active e (read_p self.now pg) k }
    {
        let _length = self.length();
        self.p_bit(pg, k * (e / 8))
    }

    /// Writes the VL / e lanes of e bits of a Z register, each modulo 2^e, the lowest first.
    pub fn set_lanes(&mut self, e: u32, zd: Reg, lanes: &[u64])
        requires size { IsLaneSize e }
        requires lanes { length lanes.now ≡ self.old.bits / e }
        // whatever function gives the lanes
        ensures { (f : ℕ → ℕ) → lanes.now ≡ each (self.old.bits / e) f → self.new ≡ with_lanes e f zd self.old }
    {
        let _length = self.length();
        let words = packing::pack(e, lanes);
        self.set_z_words(zd, &words);
    }

    /// Writes the VL / e fields of a predicate register, e / 8 bits each: a flag is the lowest bit of its field, and
    /// the other bits are 0.
    pub fn set_fields(&mut self, e: u32, pd: Pred, flags: &[bool])
        requires size { IsLaneSize e }
        requires flags { length flags.now ≡ self.old.bits / e }
        // whatever function gives the flags
        ensures { (f : ℕ → Bool) → flags.now ≡ each (self.old.bits / e) f → self.new ≡ with_fields e f pd self.old }
    {
        let _length = self.length();
        let words = packing::pack_fields(e, flags);
        self.set_p_words(pd, &words);
    }

    /// The same of FFR.
    pub fn set_ffr_fields(&mut self, e: u32, flags: &[bool])
        requires size { IsLaneSize e }
        requires flags { length flags.now ≡ self.old.bits / e }
        // whatever function gives the flags
        ensures { (f : ℕ → Bool) → flags.now ≡ each (self.old.bits / e) f → self.new ≡ with_ffr_fields e f self.old }
    {
        let _length = self.length();
        let words = packing::pack_fields(e, flags);
        self.set_ffr_words(&words);
    }
}
