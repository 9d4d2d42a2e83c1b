//! The place of a turn's context, and how a run stands that takes no further step.
ghost use Rattle.std.specs.Prelude.{◌≡◌, ◌<◌, ◌%◌, MatchOption, true, false};
ghost use Rattle.std.specs.List.{list_any};
ghost use Rattle.emu_run.specs.Worlds as worlds;

use crate::context::Context;
use crate::standings::is_some_ready;

/// How a run stands whose world hasn't ended, and that takes no further step.
#[derive(Clone, Copy)]
pub enum Rest {
    /// A context is ready, so the budget of steps is counted.
    Spent,
    /// No context is ready.
    Stuck,
}

/// The place of a turn's context among those that are ready, of which there are so many: behind the last place the
/// first one follows. None exactly where there are none.
#[inline(always)]
pub fn place_among(place: u64, count: u64) -> Option<u64>
    ensures { MatchOption result (count ≡ 0) (λ r. (r < count) × (r ≡ place % count)) }
{
    // mostly it is the place itself
    if place < count {
        return Some(place);
    }
    if count == 0 {
        return None;
    }
    Some(place % count)
}

/// How a run rests: Spent where a context is ready, else Stuck.
pub fn rest_of(contexts: &[Context]) -> Rest
    ensures spent { result ≡ Rest.Spent → list_any worlds.is_ready contexts.now ≡ true }
    ensures stuck { result ≡ Rest.Stuck → list_any worlds.is_ready contexts.now ≡ false }
{
    if is_some_ready(contexts) {
        Rest::Spent
    } else {
        Rest::Stuck
    }
}
