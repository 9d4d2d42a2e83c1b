//! The command that the words of a line are.
ghost use Rattle.std.specs.Prelude.{◌≡◌, ◌<◌, map, length, IfOk};
ghost use Rattle.dbg_model.specs.Script.{command_of, complete};
ghost use Rattle.dbg_core.specs.Readers.{
  back_of,
  break_of,
  command_named,
  lanes_of,
  later_command_named,
  mem_of,
  preg_of,
  step_of,
  watch_of,
  zreg_of,
};

use crate::script_arguments::{argument, size_argument};
use dbg_model::{Command, ScriptWhy};
use emu_bits::{Pred, Reg};

/// The greatest number of bytes that are watched or printed at once.
const MOST_BYTES: u64 = 4096;

/// The greatest address from which memory is printed.
const MOST_ADDRESS: u64 = 0x7FFF_FFFF_FFFF;

/// A command of so many words, or ExtraWord where there are more.
fn whole(words: &[&str], count: usize, command: Command) -> Result<Command, ScriptWhy>
    ensures command { result ≡ complete (map (λ word. word.now) words.now) count command }
    ensures same { IfOk result (λ c. c ≡ command) }
{
    if words.len() > count {
        return Err(ScriptWhy::ExtraWord);
    }
    Ok(command)
}

fn step_of(words: &[&str]) -> Result<Command, ScriptWhy>
    ensures { result ≡ step_of (map (λ word. word.now) words.now) }
{
    let steps = argument(words, 1, 1, u64::MAX)?;
    whole(words, 2, Command::Step(steps))
}

fn break_of(words: &[&str]) -> Result<Command, ScriptWhy>
    ensures { result ≡ break_of (map (λ word. word.now) words.now) }
{
    let address = argument(words, 1, 0, u64::MAX)?;
    whole(words, 2, Command::Break(address))
}

fn watch_of(words: &[&str]) -> Result<Command, ScriptWhy>
    ensures { result ≡ watch_of (map (λ word. word.now) words.now) }
{
    let address = argument(words, 1, 0, u64::MAX)?;
    let count = argument(words, 2, 1, MOST_BYTES)?;
    whole(words, 3, Command::Watch(address, count))
}

fn zreg_of(words: &[&str]) -> Result<Command, ScriptWhy>
    ensures { result ≡ zreg_of (map (λ word. word.now) words.now) }
{
    let k = argument(words, 1, 0, 31)?;
    whole(words, 2, Command::Zreg(register(k)))
}

fn preg_of(words: &[&str]) -> Result<Command, ScriptWhy>
    ensures { result ≡ preg_of (map (λ word. word.now) words.now) }
{
    let k = argument(words, 1, 0, 15)?;
    whole(words, 2, Command::Preg(predicate(k)))
}

fn lanes_of(words: &[&str]) -> Result<Command, ScriptWhy>
    ensures { result ≡ lanes_of (map (λ word. word.now) words.now) }
{
    let k = argument(words, 1, 0, 31)?;
    let size = size_argument(words, 2)?;
    whole(words, 3, Command::Lanes(register(k), size))
}

fn mem_of(words: &[&str]) -> Result<Command, ScriptWhy>
    ensures { result ≡ mem_of (map (λ word. word.now) words.now) }
{
    let address = argument(words, 1, 0, MOST_ADDRESS)?;
    let count = argument(words, 2, 1, MOST_BYTES)?;
    whole(words, 3, Command::Mem(address, count))
}

fn back_of(words: &[&str]) -> Result<Command, ScriptWhy>
    ensures { result ≡ back_of (map (λ word. word.now) words.now) }
{
    let steps = argument(words, 1, 1, u64::MAX)?;
    whole(words, 2, Command::Back(steps))
}

/// The Z register of a number.
fn register(k: u64) -> Reg
    requires { k < 32 }
    ensures { result ≡ k }
{
    Reg::at(k as u32, 0)
}

/// The predicate register of a number.
fn predicate(k: u64) -> Pred
    requires { k < 16 }
    ensures { result ≡ k }
{
    Pred::at(k as u32, 0)
}

/// The command of words whose first is none of the names that [`command_of`] tries first.
fn later_command_of(words: &[&str], name: &str) -> Result<Command, ScriptWhy>
    ensures { result ≡ later_command_named name.now (map (λ word. word.now) words.now) }
{
    if name == "zreg" {
        zreg_of(words)
    } else if name == "preg" {
        preg_of(words)
    } else if name == "ffr" {
        whole(words, 1, Command::Ffr)
    } else if name == "lanes" {
        lanes_of(words)
    } else if name == "mem" {
        mem_of(words)
    } else if name == "back" {
        back_of(words)
    } else {
        Err(ScriptWhy::UnknownCommand)
    }
}

/// The command of words by their first.
fn command_named(words: &[&str], name: &str) -> Result<Command, ScriptWhy>
    ensures { result ≡ command_named name.now (map (λ word. word.now) words.now) }
{
    if name == "step" {
        step_of(words)
    } else if name == "go" {
        whole(words, 1, Command::Go)
    } else if name == "break" {
        break_of(words)
    } else if name == "watch" {
        watch_of(words)
    } else if name == "regs" {
        whole(words, 1, Command::Regs)
    } else if name == "vl" {
        whole(words, 1, Command::Vl)
    } else {
        later_command_of(words, name)
    }
}

/// The command that a line's words are, of which there is at least one: UnknownCommand, then for each argument
/// MissingWord, BadNumber and OutOfRange, then ExtraWord.
#[tactic(auto, using(crate::specs::Readers::named_law))]
pub fn command_of(words: &[&str]) -> Result<Command, ScriptWhy>
    requires { 0 < length words.now }
    ensures command { result ≡ command_of (map (λ word. word.now) words.now) }
{
    command_named(words, words[0])
}
