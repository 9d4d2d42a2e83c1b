//! Products added to lanes and subtracted from them, and dot products.
ghost use Rattle.std.specs.Prelude.{true, false};
ghost use Rattle.sve_effects.specs.Lane as table;

use lane_kernels::LaneWise3;
use lane_pack::Lane;
use sve_elements::{dot_product, multiply_subtract};

/// The first plus the product of the second and the third.
#[derive(Clone, Copy)]
pub struct Mla;

impl LaneWise3 for Mla {
    ghost entry = { λ _ e c a b. table.multiply_add e c a b };

    #[inline(always)]
    fn one<T: Lane>(&self, c: T, a: T, b: T) -> T {
        c.add_mod(a.mul_mod(b))
    }
}

/// The first less the product of the second and the third.
#[derive(Clone, Copy)]
pub struct Mls;

impl LaneWise3 for Mls {
    ghost entry = { λ _ e c a b. table.multiply_subtract e c a b };

    #[inline(always)]
    fn one<T: Lane>(&self, c: T, a: T, b: T) -> T {
        T::from_u64(multiply_subtract(T::BITS, c.to_u64(), a.to_u64(), b.to_u64()))
    }
}

/// The third plus the product of the first and the second.
#[derive(Clone, Copy)]
pub struct Mad;

impl LaneWise3 for Mad {
    ghost entry = { λ _ e a b c. table.multiply_add e c a b };

    #[inline(always)]
    fn one<T: Lane>(&self, a: T, b: T, c: T) -> T {
        Mla.one(c, a, b)
    }
}

/// The third less the product of the first and the second.
#[derive(Clone, Copy)]
pub struct Msb;

impl LaneWise3 for Msb {
    ghost entry = { λ _ e a b c. table.multiply_subtract e c a b };

    #[inline(always)]
    fn one<T: Lane>(&self, a: T, b: T, c: T) -> T {
        Mls.one(c, a, b)
    }
}

/// The first plus the products of the signed quarters of the others.
#[derive(Clone, Copy)]
pub struct Sdot;

impl LaneWise3 for Sdot {
    ghost entry = { λ _ e c a b. table.dot_product true e c a b };

    #[inline(always)]
    fn one<T: Lane>(&self, c: T, a: T, b: T) -> T {
        T::from_u64(dot_product(true, T::BITS, c.to_u64(), a.to_u64(), b.to_u64()))
    }
}

/// The first plus the products of the unsigned quarters of the others.
#[derive(Clone, Copy)]
pub struct Udot;

impl LaneWise3 for Udot {
    ghost entry = { λ _ e c a b. table.dot_product false e c a b };

    #[inline(always)]
    fn one<T: Lane>(&self, c: T, a: T, b: T) -> T {
        T::from_u64(dot_product(false, T::BITS, c.to_u64(), a.to_u64(), b.to_u64()))
    }
}
