//! What the calls that speak of contexts read and change: of the context whose registers the machine has, and of what
//! is shared.
ghost use Rattle.std.specs.Prelude.{◌≡◌, ◌<◌, ◌≤◌, ◌+◌, ◌-◌, ◌^◌, MatchOption, is_some, length, set, true, false};
ghost use Rattle.emu_machine.specs.Contexts.{ended_with};
ghost use Rattle.emu_model.specs.Access.{refused, value};
ghost use Rattle.emu_model.specs.LoadsAndStores.{after_store};
ghost use Rattle.emu_system.specs.SystemCall.{call_argument as argument_of};
ghost use Rattle.guest_threads.specs.Calls.{IsCalling};
ghost use Rattle.guest_threads.specs.Started.{started_context};
ghost use Rattle.emu_run.specs.ThreadCall as model;
ghost use Rattle.emu_run.specs.Worlds as worlds;

use crate::held::{Held, MOST_CONTEXTS};
use core_regs::Core;
use emu_bits::Reg;
use emu_model::Kind;
use emu_run::{Standing, ThreadCall};
use guest_contexts::{
    Started, are_all_gone, copy_core, empty_monitors, ready, set_clear, stand, thread_call, wake,
};

impl Held {
    /// The call whose number is in x8.
    pub(crate) fn name(&self) -> ThreadCall
        ensures { result ≡ model.thread_call (worlds.context self.now.world self.now.world.last).core }
    {
        thread_call(self.machine.core())
    }

    /// The argument in register x0 to x7.
    pub(crate) fn argument(&self, number: u32) -> u64
        requires { number < 8 }
        ensures { result ≡ argument_of (worlds.context self.now.world self.now.world.last).core number }
    {
        self.machine.core().x(Reg::at(number, 0))
    }

    /// The number that names the context.
    pub(crate) fn id(&self) -> u64
        ensures { result ≡ model.thread_id self.now.world.last }
    {
        self.last as u64 + 1
    }

    /// The number that names the next context that is started.
    pub(crate) fn next_id(&self) -> u64
        ensures { result ≡ model.thread_id (length self.now.world.contexts) }
    {
        self.contexts.len() as u64 + 1
    }

    /// Whether no context can be started any more.
    pub(crate) fn is_full(&self) -> bool
        ensures room { result ≡ false → length self.now.world.contexts < 64 }
        ensures full { result ≡ true → 64 ≤ length self.now.world.contexts }
    {
        self.contexts.len() >= MOST_CONTEXTS
    }

    /// The 4 bytes from an address. None exactly where one of them may not be read.
    pub(crate) fn word(&mut self, address: u64) -> Option<u64>
        ensures word { MatchOption result (is_some (refused self.old.world.memory address 4 Kind.Read) ≡ true)
            (λ v. (is_some (refused self.old.world.memory address 4 Kind.Read) ≡ false)
            × (v ≡ value self.old.world.memory address 4)) }
        ensures unchanged { self.new ≡ self.old }
    {
        match self.machine.load(address, 4, Kind::Read) {
            Err(_) => None,
            Ok(word) => Some(word as u64),
        }
    }

    /// Whether the 4 bytes from an address may not be written.
    pub(crate) fn is_refused(&mut self, address: u64) -> bool
        ensures refused { result ≡ is_some (refused self.old.world.memory address 4 Kind.Write) }
        ensures unchanged { self.new ≡ self.old }
    {
        self.machine.load(address, 4, Kind::Write).is_err()
    }

    /// Stores 4 bytes where they may be written, and says whether they may not.
    pub(crate) fn put_word(&mut self, address: u64, v: u64) -> bool
        ensures refused { result ≡ is_some (refused self.old.world.memory address 4 Kind.Write) }
        ensures world { self.new ≡ record self.old {
          world = record self.old.world { memory = after_store self.old.world.memory address 4 v };
        } }
    {
        self.machine.store(address, 4, u128::from(v)).is_err()
    }

    /// Returns from a call with this answer.
    pub(crate) fn answer(&mut self, v: u64)
        requires { IsCalling self.old }
        ensures { self.new ≡ record self.old { world = model.answered self.old.world self.old.world.last v } }
    {
        self.machine.answer(v);
    }

    /// Counts a step that leaves the registers as they are, and ends the world with this code, where there is one.
    pub(crate) fn count_step(&mut self, code: Option<u8>)
        requires { self.old.world.steps < 2 ^ 64 - 1 }
        ensures { self.new ≡ record self.old {
          world = record self.old.world
              { steps = self.old.world.steps + 1; ended = ended_with code self.old.world.ended };
        } }
    {
        self.machine.count_step(code);
    }

    /// Says how the context stands.
    pub(crate) fn stand(&mut self, standing: Standing)
        ensures { self.new ≡ record self.old {
          world = worlds.with_context self.old.world self.old.world.last
              (record (worlds.context self.old.world self.old.world.last) { standing = standing });
        } }
    {
        stand(&mut self.contexts, self.last, standing);
        self.numbers = ready(&self.contexts);
        self.unwatched = false;
    }

    /// The clear address of the context.
    pub(crate) fn clear(&self) -> u64
        ensures { result ≡ (worlds.context self.now.world self.now.world.last).clear }
    {
        let context = &self.contexts[self.last];
        context.clear
    }

    /// Sets the clear address of the context.
    pub(crate) fn set_clear(&mut self, address: u64)
        ensures { self.new ≡ record self.old {
          world = worlds.with_context self.old.world self.old.world.last
              (record (worlds.context self.old.world self.old.world.last) { clear = address });
        } }
    {
        set_clear(&mut self.contexts, self.last, address);
        self.numbers = ready(&self.contexts);
        self.unwatched = false;
    }

    /// Makes ready the contexts that wait at an address, those with the lowest numbers first and at most `most`, and
    /// answers how many.
    pub(crate) fn wake(&mut self, address: u64, most: u64) -> u64
        ensures world { self.new ≡ record self.old { world = worlds.with_woken self.old.world address most } }
        ensures count { result ≡ worlds.wake_count address most self.old.world.contexts }
    {
        let count = wake(&mut self.contexts, address, most);
        self.numbers = ready(&self.contexts);
        self.unwatched = false;
        count
    }

    /// Whether all contexts have left.
    pub(crate) fn is_left(&self) -> bool
        ensures { result ≡ model.all_gone self.now.world }
    {
        are_all_gone(&self.contexts)
    }

    /// Empties all monitors.
    pub(crate) fn empty_monitors(&mut self)
        ensures { self.new ≡ record self.old { world = worlds.without_monitors self.old.world } }
    {
        empty_monitors(&mut self.contexts);
        self.unwatched = false;
        self.machine.clear_monitor();
    }

    /// A context with the registers of this one, behind its call, but for those that it is given.
    pub(crate) fn started(&self, flags: u64, stack: u64, tls: u64, clear: u64) -> Started
        ensures { result ≡ started_context (worlds.context self.now.world self.now.world.last) flags stack tls clear }
    {
        Started {
            core: started_core(self.machine.core(), flags, stack, tls),
            vec: self.machine.vec().copy(),
            clear: if has_flag(0x20_0000, flags) { clear } else { 0 },
        }
    }

    /// Adds a context.
    pub(crate) fn add(&mut self, context: Started)
        requires { length self.old.world.contexts < 64 }
        ensures { self.new ≡ record self.old { world = model.with_started self.old.world context } }
    {
        let Some(spare) = self.spares.pop() else {
            return;
        };
        self.contexts.push_reserved(spare.hold(context));
        self.numbers = ready(&self.contexts);
        self.unwatched = false;
    }
}

/// Whether a flag is among flags.
pub(crate) fn has_flag(flag: u64, flags: u64) -> bool
    ensures { result ≡ model.has_flag flag flags }
{
    flags & flag == flag
}

/// The scalar registers of a context that is started by a caller that has returned.
fn started_core(caller: &Core, flags: u64, stack: u64, tls: u64) -> Core
    ensures { result ≡ model.started_core (record caller.now { x = set caller.now.x 0 0 }) flags stack tls }
{
    let mut core = copy_core(caller);
    core.set_x(Reg::at(0, 0), 64, 0);
    if stack != 0 {
        core.set_x_sp(Reg::at(31, 0), 64, stack);
    }
    if has_flag(0x8_0000, flags) {
        core.set_tpidr(tls);
    }
    core
}
