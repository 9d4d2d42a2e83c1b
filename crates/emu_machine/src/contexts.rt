//! What a world of several contexts asks of its machine: other registers, single accesses to the memory, and the steps
//! of calls that the world makes itself.
ghost use Rattle.std.specs.Prelude.{◌≡◌, ◌<◌, ◌≤◌, ◌+◌, ◌-◌, ◌^◌, IfOk, get_or, length, set};
ghost use Rattle.emu_model.specs.Access.{refused};
ghost use Rattle.emu_model.specs.LoadsAndStores.{after_store, done_unless, loaded};
ghost use Rattle.emu_system.specs.SystemCall.{returned};
ghost use Rattle.emu_machine.specs.Contexts.{counted_to, without_monitor};
ghost use Rattle.guest_contexts.specs.Laid.{with_machine};
ghost use Rattle.emu_run.specs.Worlds as worlds;

use crate::machine::Machine;
use core_regs::Core;
use emu_bits::Reg;
use emu_model::{Denied, Ended, Kind};
use guest_contexts::{Context, exchange};
use vec_regs::VecRegs;

impl Machine {
    /// Exchanges the scalar and the vector registers with the machine's own.
    pub fn swap(&mut self, core: &mut Core, vec: &mut VecRegs)
        ensures machine { self.new
            ≡ record self.old { parts = record self.old.parts { core = core.old; vectors = vec.old } } }
        ensures core { core.new ≡ self.old.parts.core }
        ensures vec { vec.new ≡ self.old.parts.vectors }
    {
        std::mem::swap(&mut *self.running.core, core);
        std::mem::swap(&mut *self.running.vec, vec);
    }

    /// Exchanges them with those of the context at a place, by their boxes alone.
    #[inline(always)]
    pub fn exchange(&mut self, contexts: &mut [Context], k: usize)
        requires { k < length contexts.old }
        ensures machine { self.new ≡ record self.old {
          parts = record self.old.parts {
            core = (get_or contexts.old k worlds.no_context).core;
            vectors = (get_or contexts.old k worlds.no_context).vectors;
          };
        } }
        ensures contexts { contexts.new
            ≡ set contexts.old k (with_machine (get_or contexts.old k worlds.no_context) self.old.parts) }
    {
        exchange(&mut self.running.core, &mut self.running.vec, contexts, k);
    }

    /// Loads n bytes, 1 to 16, as a little-endian number, if none is refused.
    pub fn load(&mut self, address: u64, n: u32, kind: Kind) -> Result<u128, Denied>
        requires some { 1 ≤ n }
        requires most { n ≤ 16 }
        ensures machine { self.new ≡ self.old }
        ensures value { result ≡ loaded self.old.parts.memory address n kind }
        ensures small { IfOk result (λ v. v < 256 ^ n) }
    {
        self.running.memory.load(address, n, kind)
    }

    /// Stores the low n bytes of a number, 1 to 16, if none is refused.
    pub fn store(&mut self, address: u64, n: u32, v: u128) -> Result<(), Denied>
        requires some { 1 ≤ n }
        requires most { n ≤ 16 }
        ensures machine { self.new ≡ record self.old {
          parts = record self.old.parts { memory = after_store self.old.parts.memory address n v };
          spare = self.new.spare;
        } }
        ensures value { result
            ≡ done_unless (refused self.old.parts.memory address n Kind.Write) Kind.Write (record {}) }
    {
        self.running.memory.store(address, n, v)
    }

    /// Returns from a call with this answer in x0, and counts its step.
    pub fn answer(&mut self, v: u64)
        requires { self.old.parts.steps < 2 ^ 64 - 1 }
        ensures { self.new ≡ record self.old { parts = returned self.old.parts v } }
    {
        self.running.core.set_x(Reg::at(0, 0), 64, v);
        self.running.core.set_monitor(None);
        self.running.vec.after_call();
        let next = self.running.core.pc().wrapping_add(4);
        self.running.go_on(next);
    }

    /// Empties the exclusive monitor.
    pub fn clear_monitor(&mut self)
        ensures { self.new ≡ record self.old { parts = without_monitor self.old.parts } }
    {
        self.running.core.set_monitor(None);
    }

    /// Counts a step that leaves the registers and the memory as they are, and ends the machine with this code, where
    /// there is one.
    pub fn count_step(&mut self, code: Option<u8>)
        requires { self.old.parts.steps < 2 ^ 64 - 1 }
        ensures { self.new ≡ record self.old { parts = counted_to code self.old.parts } }
    {
        self.running.steps += 1;
        if let Some(code) = code {
            self.running.ended = Some(Ended::Exit(code));
        }
    }
}
