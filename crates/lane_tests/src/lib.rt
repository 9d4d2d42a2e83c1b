//! Comparisons and folds of lanes as operations, one struct for each name; tests of the lanes of registers, 128 bits at
//! a time, and folds of their active lanes.
//!
//! A struct stands for all lane types (8, 16, 32 and 64 bits, the manual's esize). What it tells of lanes, or makes of
//! the value so far and a lane, is its entry of the definitions.
#![tactic(auto)]

mod active_folds;
mod compares;
mod folds;
pub mod told;

pub use active_folds::{Reduction, fold_active};
pub use compares::{Eq, Ge, Gt, Hi, Hs, Le, Lo, Ls, Lt, Ne};
pub use folds::{Andv, Eorv, Orv, Saddv, Smaxv, Sminv, Uaddv, Umaxv, Uminv};
