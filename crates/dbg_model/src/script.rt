//! A script of the debugger: its commands, and why a script is refused.
ghost use Rattle.std.specs.Prelude.{◌≡◌, ◌<◌, [], ◌∷◌, ◌++◌, IsTrue, OnErr, OnOk};
ghost use Rattle.dbg_model.specs.Commands.{has_back, is_back};
ghost use Rattle.dbg_model.specs.ScriptLimits.{HasRoom, IsScript, is_within};

use emu_bits::{Esize, Pred, Reg};
use std::alloc::{AllocError, Global};
use std::marker::Model;
use thiserror::Error;

/// Why a script is refused.
#[derive(Clone, Copy, Debug, PartialEq, Eq, Error)]
pub enum ScriptWhy {
    #[error("bytes that are no UTF-8")]
    NotUtf8,
    #[error("more than 10,000 lines")]
    TooManyLines,
    #[error("not the name of a command")]
    UnknownCommand,
    #[error("a word is missing")]
    MissingWord,
    #[error("not a number of at most 2^64 - 1")]
    BadNumber,
    #[error("outside of the command's range")]
    OutOfRange,
    #[error("a word too many")]
    ExtraWord,
    #[error("more than 64 breaks, or more than 64 watches")]
    TooMany,
}

/// A refused script: why, and the line, counted from 1. Where there are too many lines it is 10,001.
#[derive(Clone, Copy, Debug, PartialEq, Eq, Error)]
#[error("{why} at line {line}")]
pub struct ScriptFault {
    pub line: u32,
    pub why: ScriptWhy,
}

/// A watch: `count` bytes from an address on.
#[derive(Clone, Copy, Debug, Default, PartialEq, Eq)]
pub struct Watch {
    pub address: u64,
    pub count: u64,
}

/// What stopped `go` where the machine had neither ended nor spent its budget.
#[derive(Clone, Copy, Debug, PartialEq, Eq)]
pub enum Stop {
    /// The last step touched the watch of this number, counted from 0.
    AtWatch(u32),
    /// The program counter stands on a break.
    AtBreak,
}

/// A command of a script.
#[derive(Clone, Copy, Debug, PartialEq, Eq)]
pub enum Command {
    /// `step N`: takes N steps, at least 1.
    Step(u64),
    /// `go`: takes steps until the machine ends, a watch is touched, the program counter stands on a break, or the
    /// budget is spent.
    Go,
    /// `break A`: adds a break at an address.
    Break(u64),
    /// `watch A L`: adds a watch of L bytes, 1 to 4,096, from an address on.
    Watch(u64, u64),
    /// `regs`: prints the scalar registers and the vector length.
    Regs,
    /// `vl`: prints the present and the starting vector length.
    Vl,
    /// `zreg K`: prints a Z register.
    Zreg(Reg),
    /// `preg K`: prints a predicate register.
    Preg(Pred),
    /// `ffr`: prints FFR.
    Ffr,
    /// `lanes K T`: prints the lanes of a Z register.
    Lanes(Reg, Esize),
    /// `mem A L`: prints L bytes, 1 to 4,096, from an address below 2^47 on.
    Mem(u64, u64),
    /// `back K`: goes to the machine with K counted steps fewer, at least 1, or to the start where there were no more.
    Back(u64),
}

/// Whether a command goes back.
fn is_back(command: &Command) -> bool
    ensures { result ≡ is_back command.now }
{
    matches!(command, Command::Back(_))
}

/// The commands of a script, in order. The numbers of each are in its ranges, at most 64 are breaks and at most 64 are
/// watches. Contracts see the list of the commands.
#[derive(Drop)]
pub struct Script {
    commands: Vec<Command>,
}

impl Model for Script {
    ghost use Rattle.std.specs.Prelude.{List};
    ghost use Rattle.dbg_model.specs.declared.script.Command.{Command};
    ghost use Rattle.dbg_model.specs.ScriptLimits.{IsScript};

    ghost Value = { List Command };

    ghost view = { λ s. s.commands.items };

    ghost invariant = { λ s. IsScript s.commands.items };
}

impl Script {
    /// The script of no command.
    pub fn new(alloc: Global) -> Script
        ensures { result ≡ [] }
    {
        Script {
            commands: Vec::new(alloc),
        }
    }

    /// The commands in order.
    pub fn commands(&self) -> &[Command]
        ensures commands { result.now ≡ self.now }
        ensures script { IsScript self.now }
    {
        self.commands.as_slice()
    }

    /// Whether a command goes back.
    pub fn has_back(&self) -> bool
        ensures { result ≡ has_back self.now }
    {
        self.commands.iter().any(|command| is_back(command))
    }

    /// Appends a command whose numbers are in their ranges; a Break or Watch is one of fewer than 64 before it. Err is
    /// want of memory, and leaves the script as it was.
    pub fn push(&mut self, command: Command) -> Result<(), AllocError>
        requires within { IsTrue (is_within command) }
        requires room { HasRoom self.old command }
        ensures appended { OnOk result (self.new ≡ self.old ++ command ∷ []) }
        ensures kept { OnErr result (self.new ≡ self.old) }
    {
        self.commands.push(command)?;
        Ok(())
    }
}
