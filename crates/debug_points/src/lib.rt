//! The breaks and watches of a person's session, and what its commands seek.
#![tactic(auto)]

mod aims;
mod points;

pub use aims::{Aim, Goal};
pub use points::{Point, Points, What};
