//! The run of an image whose steps are told.
ghost use Rattle.std.specs.Prelude.{◌≡◌, map, string_bytes, false, IfSome, OnOk};
ghost use Rattle.io_gate.specs.Pieces.{PutsAll};
ghost use Rattle.io_gate.specs.Streams.{Rose, HasCause};
ghost use Rattle.elf_image.specs.Images.{seen_image};
ghost use Rattle.elf_image.specs.Loadable.{IsLoadable};
ghost use Rattle.emu_system.specs.ArgumentLimits.{AreArguments};
ghost use Rattle.emu_system.specs.Start.{opening};
ghost use Rattle.commands.specs.Promises.{is_failure};
ghost use Rattle.tool_refusals.specs.Endings.{EndsOver, Leaves};
ghost use Rattle.emu_machine.specs.Machines.{has_ended};
ghost use Rattle.emu_run.specs.Reports.{ending_line};
ghost use Rattle.trace_lines.specs.Lines.{HasGained};
ghost use Rattle.step_traces.specs.Traces.{closing_line, trace_text};

use crate::asked::Asked;
use command_lines::Ending;
use elf_image::Image;
use emu_machine::{Ended, Machine};
use emu_model::Length;
use emu_report::{put_exit, put_spent, put_step, put_trap};
use io_gate::{Failed, Sink, Source};
use std::alloc::Global;
use step_traces::trace;
use tool_refusals::input_bytes;

/// The run that a line says: the places of the words that name the file and the first argument, or the number of words;
/// the vector length, the greatest number of steps, and the greatest number of mapped pages.
#[derive(Clone, Copy)]
pub struct Program {
    pub file: usize,
    pub args: usize,
    pub length: Length,
    pub budget: u64,
    pub pages: u32,
}

/// Puts the line on how a run ended.
fn put_ending<O: Sink>(machine: &Machine, output: &mut O) -> Result<(), Failed>
    ensures bytes { PutsAll (O.held output.old) (O.held output.new)
        (ending_line machine.now.parts machine.now.parts.ended) result }
    ensures cause { HasCause (O.faults output.old) (O.faults output.new) result }
{
    match machine.ending() {
        None => put_spent(machine.steps(), output),
        Some(Ended::Exit(code)) => put_exit(code, machine.steps(), output),
        Some(Ended::Trap(trap)) => put_trap(&trap, machine.core().pc(), machine.steps(), output),
    }
}

/// Puts the line behind those of the steps: where the window was left, or how the run ended.
fn put_closing<O: Sink>(left: bool, machine: &Machine, output: &mut O) -> Result<(), Failed>
    ensures bytes { PutsAll (O.held output.old) (O.held output.new) (closing_line left machine.now.parts) result }
    ensures cause { HasCause (O.faults output.old) (O.faults output.new) result }
{
    if left {
        put_step(machine.steps(), machine.core().pc(), output)
    } else {
        put_ending(machine, output)
    }
}

/// Traces a machine over an input. The second machine is the same.
fn trace_machine<O: Sink>(
    asked: &Asked,
    machine: &mut Machine,
    ahead: &mut Machine,
    budget: u64,
    input: &[u8],
    output: &mut O,
) -> Result<(), Failed>
    requires going { has_ended machine.old ≡ false }
    requires whole { has_ended ahead.old ≡ false }
    requires same { ahead.old.parts ≡ machine.old.parts }
    ensures bytes { OnOk result (HasGained (O.held output.old) (O.held output.new)
        (trace_text asked.now.shown asked.now.window machine.old.parts input.now budget)) }
    ensures cause { HasCause (O.faults output.old) (O.faults output.new) result }
{
    let left = trace(
        &asked.shown,
        &asked.window,
        machine,
        ahead,
        budget,
        input,
        output,
    )?;
    put_closing(left, machine, output)?;
    Ok(())
}

/// Traces an image over an input, which was read.
fn trace_input<O: Sink>(
    alloc: Global,
    bytes: &[u8],
    image: &Image,
    args: &[String],
    program: &Program,
    asked: &Asked,
    input: &[u8],
    output: &mut O,
) -> Ending
    requires loadable { IsLoadable bytes.now program.now.pages (seen_image image.now) }
    requires arguments { AreArguments (map string_bytes args.now) }
    ensures done { result ≡ Ending.Done → HasGained (O.held output.old) (O.held output.new)
        (trace_text asked.now.shown asked.now.window (opening bytes.now (seen_image image.now)
        (map string_bytes args.now) program.now.length program.now.pages) input.now program.now.budget) }
    ensures ending { is_failure result ≡ false → result ≡ Ending.Done }
    ensures leaves { Leaves result ⊥ (output.new ≡ output.old) (Unit {0}) ⊥ ⊥
        (Rose (O.faults output.old) (O.faults output.new)) ⊥ }
{
    let (length, pages) = (program.length, program.pages);
    let Ok(mut machine) = Machine::open(alloc, bytes, image, args, length, pages) else {
        return Ending::OutOfMemory;
    };
    let Ok(mut ahead) = Machine::open(alloc, bytes, image, args, length, pages) else {
        return Ending::OutOfMemory;
    };
    match trace_machine(
        asked,
        &mut machine,
        &mut ahead,
        program.budget,
        input,
        output,
    ) {
        Ok(()) => Ending::Done,
        Err(_) => Ending::WriteFault,
    }
}

/// Reads the input, and traces an image.
pub fn trace_image<I: Source, O: Sink, E: Sink>(
    alloc: Global,
    bytes: &[u8],
    image: &Image,
    args: &[String],
    program: &Program,
    asked: &Asked,
    input: &mut I,
    output: &mut O,
    errors: &mut E,
) -> Ending
    requires loadable { IsLoadable bytes.now program.now.pages (seen_image image.now) }
    requires arguments { AreArguments (map string_bytes args.now) }
    ensures done { result ≡ Ending.Done → IfSome (I.left input.old) (λ i. HasGained (O.held output.old)
        (O.held output.new) (trace_text asked.now.shown asked.now.window (opening bytes.now
        (seen_image image.now) (map string_bytes args.now) program.now.length program.now.pages) i
        program.now.budget)) }
    ensures ending { is_failure result ≡ false → EndsOver (I.left input.old) result }
    ensures leaves { Leaves result (input.new ≡ input.old) (output.new ≡ output.old) (errors.new ≡ errors.old)
        ⊥ (Rose (I.faults input.old) (I.faults input.new))
        (Rose (O.faults output.old) (O.faults output.new)) (Rose (E.faults errors.old) (E.faults errors.new)) }
{
    match input_bytes(alloc, input, errors) {
        Err(ending) => ending,
        Ok(given) => trace_input(alloc, bytes, image, args, program, asked, &given, output),
    }
}
