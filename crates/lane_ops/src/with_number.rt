//! Operations of a lane and one number for all lanes: an immediate, or the amount of a shift.
use lane_kernels::{LaneWise1, LaneWise2};
use lane_pack::Lane;

/// An operation of a lane and one number for all lanes.
#[derive(Drop)]
pub struct WithNumber<F> {
    pub op: F,
    pub n: u64,
}

impl<F: LaneWise2> LaneWise1 for WithNumber<F> {
    ghost entry = { λ s e a. F.entry s.op e a s.n };

    #[inline(always)]
    fn one<T: Lane>(&self, a: T) -> T {
        self.op.with_number(a, self.n)
    }
}
