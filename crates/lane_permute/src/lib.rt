//! Permutes of lanes over slices: each lane of a result comes from one lane of a source, from a scalar, or is 0.
//!
//! Lanes stand in the order of their places, the lowest first; contracts speak of their numbers. A permute that keeps
//! runs of lanes together copies them as slices; the others go pair by pair or lane by lane, and over slices of a
//! length that is known when they are compiled, as the lanes of 128 bits, they become shuffles.
//!
//! Fields of 1, 2, 4 or 8 bits among the 256 bits of four words, in other places: in turn, every second, in reverse
//! order (`four_words`). Such are the fields of predicates: a lane of e bits has a field of e / 8 bits. A field moves as
//! a whole. In a word the bits move by exchanges of runs of them, each of which is two shifts and three masks. No call
//! allocates.
#![tactic(auto)]

mod by_active;
mod by_number;
mod exchanges;
pub mod four_words;
mod pairs;
mod runs;

ghost use Rattle.std.specs.Prelude.{◌≡◌, length};
ghost use Rattle.lane_model.specs.Permute.{rev_place};
ghost use Rattle.lane_permute.specs.Slices.{IsPermuted, number_at};

pub use by_active::{compact, last, splice};
pub use by_number::{chosen, tbl, widen};
use lane_pack::Lane;
pub use pairs::{trn, uzp, zip};
pub use runs::{ext, insr, spliced, window};

/// The lanes in reverse order (rev).
#[inline(always)]
pub fn rev<T: Lane>(a: &[T], out: &mut [T])
    requires { length a.now ≡ length out.old }
    ensures { IsPermuted T.number a.now a.now 0 (rev_place (length out.old)) out.new }
{
    let n = out.len();
    for k in 0..n {
        out[k] = a[n - 1 - k];
    }
}
