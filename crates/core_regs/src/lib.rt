//! The scalar registers: x0 to x30, SP, PC, the condition flags, TPIDR_EL0 and the exclusive monitor.
#![tactic(auto)]

mod places;

ghost use Rattle.std.specs.Prelude.{◌≡◌, ◌%◌, ◌^◌, ◌⊎◌};
ghost use Rattle.emu_bits.specs.Flags.{cond_holds};
ghost use Rattle.emu_model.specs.State.{read_x, read_x_sp, with_x, with_x_sp, with_pc, zero_core};
ghost use Rattle.emu_model.specs.SoundState.{IsSoundCore};

use emu_bits::{Cond, Flags, Reg};
pub use emu_model::{Effect, Trap, TrapKind};
pub use places::{RegOrSp, Source, Target};
use std::marker::Model;

/// The scalar registers of a machine. Contracts see them as a record.
#[derive(Debug, Drop)]
pub struct Core {
    // x0 to x30, SP, zero, and what no register keeps
    x: [u64; 34],
    pc: u64,
    flags: Flags,
    tpidr: u64,
    monitor: Option<(u64, u32)>,
}

impl Model for Core {
    ghost use Rattle.std.specs.Prelude.{◌≡◌, get_or, take};
    ghost use Rattle.emu_model.specs.State.{Core as CoreState};
    ghost use Rattle.emu_model.specs.Codes.{coded_core};
    ghost use Rattle.emu_model.specs.SoundState.{IsSoundCore};

    ghost Value = { CoreState };

    ghost coded = { coded_core };

    ghost view = { λ a. record {
      x = take 31 a.x;
      sp = get_or a.x 31 0;
      pc = a.pc;
      flags = a.flags;
      tpidr = a.tpidr;
      monitor = a.monitor;
    } };

    ghost invariant = { λ a. (get_or a.x 32 0 ≡ 0) × IsSoundCore (record {
      x = take 31 a.x;
      sp = get_or a.x 31 0;
      pc = a.pc;
      flags = a.flags;
      tpidr = a.tpidr;
      monitor = a.monitor;
    }) };
}

/// A number modulo 2^width, with no mask to be made.
#[inline(always)]
fn low(v: u64, width: u32) -> u64
    requires { (width ≡ 32) ⊎ (width ≡ 64) }
    ensures { result ≡ v % 2 ^ width }
{
    if width == 32 { v % 0x1_0000_0000 } else { v }
}

impl Core {
    /// All registers and flags 0, and the monitor empty.
    pub fn new() -> Core
        ensures { result ≡ zero_core }
    {
        Core {
            x: [0; 34],
            pc: 0,
            flags: Flags {
                n: false,
                z: false,
                c: false,
                v: false,
            },
            tpidr: 0,
            monitor: None,
        }
    }

    /// The same registers once more.
    pub fn copy(&self) -> Core
        ensures { result ≡ self.now }
    {
        Core {
            x: self.x,
            pc: self.pc,
            flags: self.flags,
            tpidr: self.tpidr,
            monitor: self.monitor,
        }
    }

    /// The 64 bits of X register `r`. Register 31 reads 0.
    pub fn x(&self, r: Reg) -> u64
        ensures { result ≡ read_x self.now r }
    {
        self.source(Source::of(r))
    }

    /// The 64 bits of X register `r`. Register 31 reads SP.
    pub fn x_sp(&self, r: Reg) -> u64
        ensures { result ≡ read_x_sp self.now r }
    {
        self.reg_or_sp(RegOrSp::of(r))
    }

    /// The same of a source.
    #[inline(always)]
    pub fn source(&self, r: Source) -> u64
        ensures { result ≡ read_x self.now r }
    {
        self.x[r.place()]
    }

    /// The 64 bits of a register that may be SP.
    #[inline(always)]
    pub fn reg_or_sp(&self, r: RegOrSp) -> u64
        ensures { result ≡ read_x_sp self.now r }
    {
        self.x[r.place()]
    }

    /// The program counter: the address of the instruction that runs.
    pub fn pc(&self) -> u64
        ensures value { result ≡ self.now.pc }
        // 31 registers, and each number within its 64 bits
        ensures sound { IsSoundCore self.now }
    {
        self.pc
    }

    /// The condition flags.
    pub fn flags(&self) -> Flags
        ensures { result ≡ self.now.flags }
    {
        self.flags
    }

    /// TPIDR_EL0, the thread pointer.
    pub fn tpidr(&self) -> u64
        ensures { result ≡ self.now.tpidr }
    {
        self.tpidr
    }

    /// The address and the size in bytes that the exclusive monitor keeps. None exactly where it is empty.
    pub fn monitor(&self) -> Option<(u64, u32)>
        ensures { result ≡ self.now.monitor }
    {
        self.monitor
    }

    /// Whether the condition `c` holds of the flags.
    pub fn holds(&self, c: Cond) -> bool
        ensures { result ≡ cond_holds c self.now.flags }
    {
        c.holds(self.flags)
    }

    /// Writes the low `width` bits of `v` to X register `r`, and zeros above. Register 31 isn't written.
    pub fn set_x(&mut self, r: Reg, width: u32, v: u64)
        requires { (width ≡ 32) ⊎ (width ≡ 64) }
        ensures { self.new ≡ with_x self.old r width v }
    {
        self.set_target(Target::of(r), width, v);
    }

    /// Writes the low `width` bits of `v` to X register `r`, and zeros above. Register 31 is SP.
    pub fn set_x_sp(&mut self, r: Reg, width: u32, v: u64)
        requires { (width ≡ 32) ⊎ (width ≡ 64) }
        ensures { self.new ≡ with_x_sp self.old r width v }
    {
        self.set_reg_or_sp(RegOrSp::of(r), width, v);
    }

    /// Writes the low `width` bits of `v` to a target, and zeros above.
    #[inline(always)]
    pub fn set_target(&mut self, r: Target, width: u32, v: u64)
        requires { (width ≡ 32) ⊎ (width ≡ 64) }
        ensures { self.new ≡ with_x self.old r width v }
    {
        self.x[r.place()] = low(v, width);
    }

    /// The same of a register that may be SP.
    #[inline(always)]
    pub fn set_reg_or_sp(&mut self, r: RegOrSp, width: u32, v: u64)
        requires { (width ≡ 32) ⊎ (width ≡ 64) }
        ensures { self.new ≡ with_x_sp self.old r width v }
    {
        self.x[r.place()] = low(v, width);
    }

    /// Writes the program counter.
    pub fn set_pc(&mut self, v: u64)
        ensures { self.new ≡ with_pc self.old v }
    {
        self.pc = v;
    }

    /// Writes the condition flags.
    pub fn set_flags(&mut self, f: Flags)
        ensures { self.new ≡ record self.old { flags = f } }
    {
        self.flags = f;
    }

    /// Writes TPIDR_EL0.
    pub fn set_tpidr(&mut self, v: u64)
        ensures { self.new ≡ record self.old { tpidr = v } }
    {
        self.tpidr = v;
    }

    /// Sets the exclusive monitor to an address and a size in bytes, or empties it.
    pub fn set_monitor(&mut self, m: Option<(u64, u32)>)
        ensures { self.new ≡ record self.old { monitor = m } }
    {
        self.monitor = m;
    }
}
