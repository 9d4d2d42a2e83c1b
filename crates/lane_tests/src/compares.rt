//! Comparisons of two lanes.
ghost use Rattle.sve_effects.specs.declared.lane_functions.LaneTest.{LaneTest};
ghost use Rattle.sve_effects.specs.Lane.{lane_test};

use lane_kernels::LaneWiseTest2;
use lane_ops::signed_less;
use lane_pack::Lane;

/// Equal.
#[derive(Clone, Copy)]
pub struct Eq;

impl LaneWiseTest2 for Eq {
    ghost entry = { λ _ e a b. lane_test LaneTest.Eq e a b };

    #[inline(always)]
    fn one<T: Lane>(&self, a: T, b: T) -> bool {
        a.to_u64() == b.to_u64()
    }
}

/// Not equal.
#[derive(Clone, Copy)]
pub struct Ne;

impl LaneWiseTest2 for Ne {
    ghost entry = { λ _ e a b. lane_test LaneTest.Ne e a b };

    #[inline(always)]
    fn one<T: Lane>(&self, a: T, b: T) -> bool {
        a.to_u64() != b.to_u64()
    }
}

/// Signed greater or equal.
#[derive(Clone, Copy)]
pub struct Ge;

impl LaneWiseTest2 for Ge {
    ghost entry = { λ _ e a b. lane_test LaneTest.Ge e a b };

    #[inline(always)]
    fn one<T: Lane>(&self, a: T, b: T) -> bool {
        !signed_less(a, b)
    }
}

/// Signed greater.
#[derive(Clone, Copy)]
pub struct Gt;

impl LaneWiseTest2 for Gt {
    ghost entry = { λ _ e a b. lane_test LaneTest.Gt e a b };

    #[inline(always)]
    fn one<T: Lane>(&self, a: T, b: T) -> bool {
        signed_less(b, a)
    }
}

/// Signed less.
#[derive(Clone, Copy)]
pub struct Lt;

impl LaneWiseTest2 for Lt {
    ghost entry = { λ _ e a b. lane_test LaneTest.Lt e a b };

    #[inline(always)]
    fn one<T: Lane>(&self, a: T, b: T) -> bool {
        signed_less(a, b)
    }
}

/// Signed less or equal.
#[derive(Clone, Copy)]
pub struct Le;

impl LaneWiseTest2 for Le {
    ghost entry = { λ _ e a b. lane_test LaneTest.Le e a b };

    #[inline(always)]
    fn one<T: Lane>(&self, a: T, b: T) -> bool {
        !signed_less(b, a)
    }
}

/// Unsigned higher or same.
#[derive(Clone, Copy)]
pub struct Hs;

impl LaneWiseTest2 for Hs {
    ghost entry = { λ _ e a b. lane_test LaneTest.Hs e a b };

    #[inline(always)]
    fn one<T: Lane>(&self, a: T, b: T) -> bool {
        a.to_u64() >= b.to_u64()
    }
}

/// Unsigned higher.
#[derive(Clone, Copy)]
pub struct Hi;

impl LaneWiseTest2 for Hi {
    ghost entry = { λ _ e a b. lane_test LaneTest.Hi e a b };

    #[inline(always)]
    fn one<T: Lane>(&self, a: T, b: T) -> bool {
        a.to_u64() > b.to_u64()
    }
}

/// Unsigned lower.
#[derive(Clone, Copy)]
pub struct Lo;

impl LaneWiseTest2 for Lo {
    ghost entry = { λ _ e a b. lane_test LaneTest.Lo e a b };

    #[inline(always)]
    fn one<T: Lane>(&self, a: T, b: T) -> bool {
        a.to_u64() < b.to_u64()
    }
}

/// Unsigned lower or same.
#[derive(Clone, Copy)]
pub struct Ls;

impl LaneWiseTest2 for Ls {
    ghost entry = { λ _ e a b. lane_test LaneTest.Ls e a b };

    #[inline(always)]
    fn one<T: Lane>(&self, a: T, b: T) -> bool {
        a.to_u64() <= b.to_u64()
    }
}
