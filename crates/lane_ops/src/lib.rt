//! The functions of lanes of SVE instructions as operations on lanes, one struct for each name.
//!
//! A struct stands for all lane types (8, 16, 32 and 64 bits, the manual's esize). What it makes of lanes is its entry
//! of the table of functions of lanes.
#![tactic(auto)]

mod logic;
mod order;
mod products;
mod saturated;
mod shifts;
mod single;
mod sums;
mod three;
mod with_number;

pub use logic::{And, Bic, Eor, Orr};
pub use order::signed_less;
pub use products::{Mul, Sdiv, Sdivr, Smulh, Udiv, Udivr, Umulh};
pub use saturated::{Sqadd, SqaddAmount, Sqsub, SqsubAmount, Uqadd, Uqsub};
pub use shifts::{Asr, Asrd, Asrr, Lsl, Lslr, Lsr, Lsrr};
pub use single::{
    Abs, Cls, Clz, Cnot, Cnt, Neg, Not, Rbit, Revb, Revh, Revw, Sxtb, Sxth, Sxtw, Uxtb, Uxth, Uxtw,
};
pub use sums::{Add, Sabd, Smax, Smin, Sub, Subr, Uabd, Umax, Umin};
pub use three::{Mad, Mla, Mls, Msb, Sdot, Udot};
pub use with_number::WithNumber;
