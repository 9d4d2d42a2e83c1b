//! Which contexts are ready, wait or have left, and waking.
ghost use Rattle.std.specs.Prelude.{◌≡◌, ◌<◌, ◌≤◌, ◌↔◌, true, length, get_or, set};
ghost use Rattle.std.specs.List.{All, list_all, list_any};
ghost use Rattle.guest_contexts.specs.Standings.{ready_among, IsReadyIn};
ghost use Rattle.emu_run.specs.Worlds as worlds;

use crate::context::Context;
use arrayvec::ArrayVec;
use emu_run::Standing;

/// The numbers of the contexts that are ready, in order.
pub fn ready(contexts: &[Context]) -> ArrayVec<usize, 64>
    requires { length contexts.now ≤ 64 }
    ensures ready { result.items ≡ ready_among contexts.now }
    ensures each { All (IsReadyIn contexts.now) result.items }
    ensures some { (list_any worlds.is_ready contexts.now ≡ true) ↔ (0 < length result.items) }
{
    let mut numbers = ArrayVec::new();
    for k in 0..contexts.len() {
        if contexts[k].is_ready() {
            numbers.push(k);
        }
    }
    numbers
}

/// Whether a context is ready.
pub fn is_some_ready(contexts: &[Context]) -> bool
    ensures { result ≡ list_any worlds.is_ready contexts.now }
{
    contexts.iter().any(|context| context.is_ready())
}

/// Whether all contexts have left.
pub fn are_all_gone(contexts: &[Context]) -> bool
    ensures { result ≡ list_all worlds.is_gone contexts.now }
{
    contexts.iter().all(|context| context.is_gone())
}

/// Says how a context stands.
pub fn stand(contexts: &mut [Context], k: usize, standing: Standing)
    requires { k < length contexts.old }
    ensures { contexts.new
        ≡ set contexts.old k (record (get_or contexts.old k worlds.no_context) { standing = standing }) }
{
    let context = &mut contexts[k];
    context.standing = standing;
}

/// Sets the clear address of a context.
pub fn set_clear(contexts: &mut [Context], k: usize, address: u64)
    requires { k < length contexts.old }
    ensures { contexts.new ≡ set contexts.old k (record (get_or contexts.old k worlds.no_context) { clear = address }) }
{
    let context = &mut contexts[k];
    context.clear = address;
}

/// Makes ready the contexts that wait at an address, those with the lowest numbers first and at most `most`, and
/// answers how many.
pub fn wake(contexts: &mut [Context], address: u64, most: u64) -> u64
    ensures contexts { contexts.new ≡ worlds.woken address most contexts.old }
    ensures count { result ≡ worlds.wake_count address most contexts.old }
{
    let mut left = most;
    for context in contexts.iter_mut() {
        if left > 0 && context.waits_at(address) {
            context.standing = Standing::Ready;
            left -= 1;
        }
    }
    most - left
}
