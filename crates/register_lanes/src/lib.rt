//! Operations on the lanes of vector registers, carried out over their words, 128 bits at a time.
//!
//! A source gives the lanes of 128 bits: a register, one number, an operation of the lanes of others, or a choice by a
//! predicate. A loop writes what a source gives to each lane of a register. Operations are those of `lane_kernels`, by
//! their functions of chunks; a vector length is a multiple of 128 bits, so no rest is left.
#![tactic(auto)]

mod loops;
mod sources;

pub use loops::{Chunks, Gives, Local, merging, permuted, plain, zeroing};
pub use sources::{LaneOf, Map1, Map2, Map3, Merged, Number, Select, Updated, Zeroed, part_of};
