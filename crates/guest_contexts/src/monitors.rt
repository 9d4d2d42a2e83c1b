//! What the accesses and the calls of a context make of the exclusive monitors of others.
ghost use Rattle.std.specs.Prelude.{◌≡◌, None, map};
ghost use Rattle.std.specs.List.{list_any};
ghost use Rattle.guest_contexts.specs.Standings.{has_monitor};
ghost use Rattle.emu_run.specs.Worlds as worlds;

use crate::context::Context;
use emu_model::access::Access;

/// Whether an access wrote a byte of a monitor's, which keeps an address and a number of bytes.
fn wrote_to(address: u64, bytes: u32, access: &Access) -> bool
    ensures { result ≡ worlds.wrote_to (address, bytes) access.now }
{
    access.write
        && u128::from(access.address) < u128::from(address) + u128::from(bytes)
        && u128::from(address) < u128::from(access.address) + u128::from(access.bytes)
}

/// Whether one of these accesses wrote a byte of a monitor's.
fn is_written(made: &[Access], address: u64, bytes: u32) -> bool
    ensures { result ≡ list_any (worlds.wrote_to (address, bytes)) made.now }
{
    made.iter().any(|access| wrote_to(address, bytes, access))
}

/// The monitor of a context behind accesses of another one.
fn monitor_behind(made: &[Access], monitor: Option<(u64, u32)>) -> Option<(u64, u32)>
    ensures { result ≡ worlds.monitor_behind made.now monitor }
{
    match monitor {
        None => None,
        Some((address, bytes)) => {
            if is_written(made, address, bytes) {
                None
            } else {
                Some((address, bytes))
            }
        }
    }
}

/// Empties each monitor that one of these accesses wrote to.
pub fn note_accesses(contexts: &mut [Context], made: &[Access])
    ensures { contexts.new ≡ map (worlds.behind_accesses made.now) contexts.old }
{
    for context in contexts.iter_mut() {
        let monitor = monitor_behind(made, context.core.monitor());
        context.core.set_monitor(monitor);
    }
}

/// Empties all monitors.
pub fn empty_monitors(contexts: &mut [Context])
    ensures { contexts.new ≡ map (worlds.with_monitor None) contexts.old }
{
    for context in contexts.iter_mut() {
        context.core.set_monitor(None);
    }
}

/// Whether a context has a monitor.
pub fn is_some_watching(contexts: &[Context]) -> bool
    ensures { result ≡ list_any has_monitor contexts.now }
{
    contexts
        .iter()
        .any(|context| context.core.monitor().is_some())
}
