//! What is said of a run without threads behind the line of its stop, and of a run whose threads all wait.
ghost use Rattle.std.specs.Prelude.{◌≡◌, [], string_bytes, IfOk, OnOk};
ghost use Rattle.tool_sites.specs.Explanation.{call_of, explanation_alone, then_hint, thread_call};
ghost use Rattle.tool_texts.specs.Explanations.{stuck_line};

use crate::lines::explain;
use elf_symbols::Symbol;
use emu_bits::Reg;
use emu_machine::Machine;
use emu_model::Ended;
use emu_system::Segment;
use std::alloc::{AllocError, Global};
use tool_texts::{push_call_hint, push_stuck};

/// The name of a call that only programs with threads make, by its number; empty of any other.
fn thread_call(number: u32) -> &'static str
    ensures { result.now ≡ thread_call number }
{
    match number {
        220 => "clone",
        98 => "futex",
        _ => "",
    }
}

/// The name of such a call, by the number in X8 of a machine that stopped; empty of one that exited.
fn call_of(machine: &Machine) -> &'static str
    ensures { result.now ≡ call_of machine.now.parts machine.now.parts.ended }
{
    match machine.ending() {
        Some(Ended::Exit(_)) => "",
        None | Some(Ended::Trap(_)) => {
            thread_call((machine.core().x(Reg::at(8, 0)) % 0x1_0000_0000) as u32)
        }
    }
}

/// Appends what is said of such a call. Err is want of memory.
fn push_hint(text: &mut String, call: &str) -> Result<(), AllocError>
    ensures { OnOk result (string_bytes text.new ≡ then_hint (string_bytes text.old) call.now) }
{
    if call.is_empty() {
        return Ok(());
    }
    push_call_hint(text, call)
}

/// What is said of a machine that runs alone and stopped, by the symbols of its file and the segments of its image: the
/// line of its stop, and one more where X8 has the number of a call for threads, which is refused; nothing of an exit.
/// Err is want of memory.
pub fn explain_alone(
    alloc: Global,
    machine: &Machine,
    symbols: &[Symbol<'_>],
    segments: &[Segment],
) -> Result<String, AllocError>
    ensures { IfOk result (λ text. string_bytes text
        ≡ explanation_alone symbols.now segments.now machine.now.parts) }
{
    let mut text = explain(alloc, machine, symbols, segments)?;
    push_hint(&mut text, call_of(machine))?;
    Ok(text)
}

/// What is said of a run of which no thread is ready. Err is want of memory.
pub fn explain_stuck(alloc: Global, steps: u64) -> Result<String, AllocError>
    ensures { IfOk result (λ text. string_bytes text ≡ stuck_line [] steps) }
{
    let mut text = String::new(alloc);
    push_stuck(&mut text, steps)?;
    Ok(text)
}
