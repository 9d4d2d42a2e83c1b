//! Reductions of lanes, by the instruction that makes them.
ghost use Rattle.std.specs.Prelude.{◌+◌, ◌-◌, ◌^◌, max, min, bit_and, bit_or, bit_xor, refl};
ghost use Rattle.std.specs.Int.{int_max, int_min};
ghost use Rattle.std.proofs.lemmas.Nat.{pow_pos};
ghost use Rattle.emu_bits.specs.Numbers.{signed, sign_extended};
ghost use Rattle.lane_tests.specs.Kept.{
  least_small,
  greatest_small,
  ones_small,
  sum_kept,
  signed_sum_kept,
  signed_sum_none,
  max_kept,
  max_none,
  min_kept,
  min_none,
  or_kept,
  or_none,
  xor_kept,
  xor_none,
  and_kept,
  and_none,
  smax_kept,
  smin_kept,
  unsigned_small,
};
ghost use Rattle.sve_effects.specs.declared.lane_functions.LaneOp.{LaneOp};
ghost use Rattle.sve_effects.specs.Lane.{lane_op};
ghost use Rattle.sve_effects.specs.Fold.{reduce_step, reduce_start};
ghost use Rattle.sve_insn.specs.declared.ops.ReduceOp.{ReduceOp};

use crate::active_folds::Reduction;
use emu_bits::sign_extended;
use lane_kernels::{LaneWise2, LaneWiseFold};
use lane_ops::{Smax, Smin};
use lane_pack::Lane;
use sve_elements::numbers::complement;
use sve_elements::{add, and, eor, orr, umax, umin};

/// The sum of signed lanes, modulo 2^64.
#[derive(Clone, Copy)]
pub struct Saddv;

impl LaneWiseFold for Saddv {
    ghost step = { λ _ e so_far a. reduce_step ReduceOp.Saddv e so_far a };

    #[inline(always)]
    fn one<T: Lane>(&self, so_far: u64, a: T) -> u64 {
        add(64, so_far, sign_extended(a.to_u64(), T::BITS, 64))
    }
}

impl Reduction for Saddv {
    ghost start = { λ _ e. reduce_start ReduceOp.Saddv e };

    #[inline(always)]
    fn start_of(&self, _e: u32) -> u64 {
        0
    }

    ghost start_small = { λ s e size. pow_pos e };

    ghost start_kept = { λ s e size. signed_sum_none e size };

    ghost step_kept = { λ s e n a size. signed_sum_kept e (n + sign_extended 64 e a) size };
}

/// The sum of unsigned lanes, modulo 2^64.
#[derive(Clone, Copy)]
pub struct Uaddv;

impl LaneWiseFold for Uaddv {
    ghost step = { λ _ e so_far a. reduce_step ReduceOp.Uaddv e so_far a };

    #[inline(always)]
    fn one<T: Lane>(&self, so_far: u64, a: T) -> u64 {
        add(64, so_far, a.to_u64())
    }
}

impl Reduction for Uaddv {
    ghost start = { λ _ e. reduce_start ReduceOp.Uaddv e };

    #[inline(always)]
    fn start_of(&self, _e: u32) -> u64 {
        0
    }

    ghost start_small = { λ s e size. pow_pos e };

    ghost start_kept = { λ s e size. refl };

    ghost step_kept = { λ s e n a size. sum_kept (n + a) };
}

/// The greatest signed lane.
#[derive(Clone, Copy)]
pub struct Smaxv;

impl LaneWiseFold for Smaxv {
    ghost step = { λ _ e so_far a. reduce_step ReduceOp.Smaxv e so_far a };

    #[inline(always)]
    fn one<T: Lane>(&self, so_far: u64, a: T) -> u64 {
        Smax.one(T::from_u64(so_far), a).to_u64()
    }
}

impl Reduction for Smaxv {
    ghost start = { λ _ e. reduce_start ReduceOp.Smaxv e };

    #[inline(always)]
    fn start_of(&self, e: u32) -> u64 {
        1 << (e - 1)
    }

    ghost start_small = { λ s e size. least_small e size };

    ghost start_kept = { λ s e size. smax_kept e (2 ^ (e - 1)) size (least_small e size) };

    ghost step_kept = { λ s e n a size. smax_kept e (lane_op LaneOp.Smax e n a) size
        (unsigned_small (int_max (signed n e) (signed a e)) e) };
}

/// The greatest unsigned lane.
#[derive(Clone, Copy)]
pub struct Umaxv;

impl LaneWiseFold for Umaxv {
    ghost step = { λ _ e so_far a. reduce_step ReduceOp.Umaxv e so_far a };

    #[inline(always)]
    fn one<T: Lane>(&self, so_far: u64, a: T) -> u64 {
        umax(T::BITS, so_far, a.to_u64())
    }
}

impl Reduction for Umaxv {
    ghost start = { λ _ e. reduce_start ReduceOp.Umaxv e };

    #[inline(always)]
    fn start_of(&self, _e: u32) -> u64 {
        0
    }

    ghost start_small = { λ s e size. pow_pos e };

    ghost start_kept = { λ s e size. max_none e };

    ghost step_kept = { λ s e n a size. max_kept e (max n a) };
}

/// The smallest signed lane.
#[derive(Clone, Copy)]
pub struct Sminv;

impl LaneWiseFold for Sminv {
    ghost step = { λ _ e so_far a. reduce_step ReduceOp.Sminv e so_far a };

    #[inline(always)]
    fn one<T: Lane>(&self, so_far: u64, a: T) -> u64 {
        Smin.one(T::from_u64(so_far), a).to_u64()
    }
}

impl Reduction for Sminv {
    ghost start = { λ _ e. reduce_start ReduceOp.Sminv e };

    #[inline(always)]
    fn start_of(&self, e: u32) -> u64 {
        (1 << (e - 1)) - 1
    }

    ghost start_small = { λ s e size. greatest_small e size };

    ghost start_kept = { λ s e size. smin_kept e (2 ^ (e - 1) - 1) size (greatest_small e size) };

    ghost step_kept = { λ s e n a size. smin_kept e (lane_op LaneOp.Smin e n a) size
        (unsigned_small (int_min (signed n e) (signed a e)) e) };
}

/// The smallest unsigned lane.
#[derive(Clone, Copy)]
pub struct Uminv;

impl LaneWiseFold for Uminv {
    ghost step = { λ _ e so_far a. reduce_step ReduceOp.Uminv e so_far a };

    #[inline(always)]
    fn one<T: Lane>(&self, so_far: u64, a: T) -> u64 {
        umin(T::BITS, so_far, a.to_u64())
    }
}

impl Reduction for Uminv {
    ghost start = { λ _ e. reduce_start ReduceOp.Uminv e };

    #[inline(always)]
    fn start_of(&self, e: u32) -> u64 {
        complement(e, 0)
    }

    ghost start_small = { λ s e size. ones_small e };

    ghost start_kept = { λ s e size. min_none e };

    ghost step_kept = { λ s e n a size. min_kept e (min n a) };
}

/// OR of the lanes.
#[derive(Clone, Copy)]
pub struct Orv;

impl LaneWiseFold for Orv {
    ghost step = { λ _ e so_far a. reduce_step ReduceOp.Orv e so_far a };

    #[inline(always)]
    fn one<T: Lane>(&self, so_far: u64, a: T) -> u64 {
        orr(T::BITS, so_far, a.to_u64())
    }
}

impl Reduction for Orv {
    ghost start = { λ _ e. reduce_start ReduceOp.Orv e };

    #[inline(always)]
    fn start_of(&self, _e: u32) -> u64 {
        0
    }

    ghost start_small = { λ s e size. pow_pos e };

    ghost start_kept = { λ s e size. or_none e };

    ghost step_kept = { λ s e n a size. or_kept e (bit_or n a) };
}

/// Exclusive OR of the lanes.
#[derive(Clone, Copy)]
pub struct Eorv;

impl LaneWiseFold for Eorv {
    ghost step = { λ _ e so_far a. reduce_step ReduceOp.Eorv e so_far a };

    #[inline(always)]
    fn one<T: Lane>(&self, so_far: u64, a: T) -> u64 {
        eor(T::BITS, so_far, a.to_u64())
    }
}

impl Reduction for Eorv {
    ghost start = { λ _ e. reduce_start ReduceOp.Eorv e };

    #[inline(always)]
    fn start_of(&self, _e: u32) -> u64 {
        0
    }

    ghost start_small = { λ s e size. pow_pos e };

    ghost start_kept = { λ s e size. xor_none e };

    ghost step_kept = { λ s e n a size. xor_kept e (bit_xor n a) };
}

/// AND of the lanes.
#[derive(Clone, Copy)]
pub struct Andv;

impl LaneWiseFold for Andv {
    ghost step = { λ _ e so_far a. reduce_step ReduceOp.Andv e so_far a };

    #[inline(always)]
    fn one<T: Lane>(&self, so_far: u64, a: T) -> u64 {
        and(T::BITS, so_far, a.to_u64())
    }
}

impl Reduction for Andv {
    ghost start = { λ _ e. reduce_start ReduceOp.Andv e };

    #[inline(always)]
    fn start_of(&self, e: u32) -> u64 {
        complement(e, 0)
    }

    ghost start_small = { λ s e size. ones_small e };

    ghost start_kept = { λ s e size. and_none e };

    ghost step_kept = { λ s e n a size. and_kept e (bit_and n a) };
}
