//! The command `run`: from the file of a program to its report.
ghost use Rattle.std.specs.Prelude.{
  ◌≡◌,
  ◌≢◌,
  ◌<◌,
  ◌≤◌,
  ◌⊎◌,
  [],
  map,
  length,
  string_bytes,
  get_or,
  IfSome,
  Some,
  Ok,
  false,
  true,
};
ghost use Rattle.io_gate.specs.Images.{MissesNamed};
ghost use Rattle.io_gate.specs.Streams.{Rose, Causes, HasCause};
ghost use Rattle.io_gate.specs.Pieces.{PutsAll};
ghost use Rattle.emu_system.specs.ArgumentLimits.{AreArguments};
ghost use Rattle.emu_system.specs.Image.{elf};
ghost use Rattle.emu_system.specs.Start.{with_input};
ghost use Rattle.emu_run.specs.Run.{run};
ghost use Rattle.emu_run.specs.Registers.{register_lines};
ghost use Rattle.emu_run.specs.Reports.{report};
ghost use Rattle.command_lines.specs.Outcome.{outcome_of_run, outcome_of_image};
ghost use Rattle.emu_machine.specs.Machines.{has_ended};
ghost use Rattle.commands.specs.Endings.{ending_by};
ghost use Rattle.commands.specs.Lines.{ends_run};
ghost use Rattle.commands.specs.Programs.{arguments_of, outcome_over, run_line_of};
ghost use Rattle.commands.specs.Promises.{is_failure};
ghost use Rattle.commands.specs.Meets.{now, Meets};
ghost use Rattle.commands.specs.Whole.{InLine, InRun, HasAllPut};
ghost use Rattle.commands.specs.Passing.{InFile};

use crate::files::{ending_after_line, file_bytes};
use crate::program::{Program, open_machine};
use command_lines::{Ending, word};
use dbg_core::put_ending;
use elf_image::read;
use emu_machine::{Machine, RunEnd};
use emu_report::{put_image_refusal, put_registers};
use io_gate::{Failed, Images, Sink, Source};
use std::alloc::Global;

/// Puts the registers of a machine.
fn put_machine<E: Sink>(machine: &Machine, errors: &mut E) -> Result<(), Failed>
    ensures bytes { PutsAll (E.held errors.old) (E.held errors.new) (register_lines machine.now.parts) result }
    ensures cause { HasCause (E.faults errors.old) (E.faults errors.new) result }
{
    put_registers(machine.core(), machine.vec(), errors)
}

/// Puts the line of a machine that has stopped, and its registers.
pub fn put_report<E: Sink>(machine: &Machine, errors: &mut E) -> Result<(), Failed>
    ensures bytes { PutsAll (E.held errors.old) (E.held errors.new) (report machine.now.parts) result }
    ensures cause { HasCause (E.faults errors.old) (E.faults errors.new) result }
{
    put_ending(machine, errors)?;
    put_machine(machine, errors)
}

/// The ending of a run that left the program counter at an address.
pub fn ending_of_run(end: RunEnd, pc: u64) -> Ending
    ensures { result ≡ ending_by end pc }
{
    match end {
        RunEnd::Exit(code) => Ending::Exit(code),
        RunEnd::Trap(trap) => Ending::Trap(trap, pc),
        RunEnd::Spent => Ending::Spent,
        RunEnd::ReadFault => Ending::ReadFault,
        RunEnd::WriteFault => Ending::WriteFault,
        RunEnd::ErrorsFault => Ending::ErrorsFault,
    }
}

/// Whether a file or a stream failed, or memory was wanting.
pub fn is_failure(ending: &Ending) -> bool
    ensures { result ≡ is_failure ending.now }
{
    match ending {
        Ending::FileFault | Ending::ReadFault | Ending::WriteFault => true,
        Ending::ErrorsFault | Ending::OutOfMemory => true,
        _ => false,
    }
}

/// Runs a machine, and reports how it stopped.
fn run_machine<I: Source, O: Sink, E: Sink>(
    machine: &mut Machine,
    budget: u64,
    input: &mut I,
    output: &mut O,
    errors: &mut E,
) -> Ending
    requires going { has_ended machine.old ≡ false }
    requires within { machine.old.parts.steps ≤ budget }
    ensures outcome { Meets (λ i. Some (outcome_of_run i (run (with_input machine.old.parts i) budget))) result
        (now (I.left input.old) (O.held output.old) (E.held errors.old))
        (now (I.left input.new) (O.held output.new) (E.held errors.new)) }
    ensures read_cause { Causes (result ≡ Ending.ReadFault) (I.faults input.old) (I.faults input.new) }
    ensures write_cause { Causes (result ≡ Ending.WriteFault) (O.faults output.old) (O.faults output.new) }
    ensures errors_cause { Causes (result ≡ Ending.ErrorsFault) (E.faults errors.old) (E.faults errors.new) }
    ensures no_file { result ≢ Ending.FileFault }
    ensures no_memory { result ≢ Ending.OutOfMemory }
    ensures kind { ends_run result ≡ true }
    ensures whole { HasAllPut (InRun machine.old.parts budget result (I.left input.new))
        (λ i. Some (outcome_of_run i (run (with_input machine.old.parts i) budget))) result (I.left input.old)
        (O.held output.old) (O.held output.new) (E.held errors.old) (E.held errors.new) }
{
    let end = machine.run(budget, input, output, errors);
    let ending = ending_of_run(end, machine.core().pc());
    if is_failure(&ending) {
        return ending;
    }
    ending_after_line(put_report(machine, errors), ending)
}

/// Runs the program of a file's bytes, or refuses it.
fn run_image<I: Source, O: Sink, E: Sink>(
    alloc: Global,
    bytes: &[u8],
    words: &[String],
    program: &Program,
    input: &mut I,
    output: &mut O,
    errors: &mut E,
) -> Ending
    requires file { program.now.file < program.now.args }
    requires args { program.now.args ≤ length words.now }
    requires arguments { AreArguments (arguments_of (map string_bytes words.now) program.now) }
    ensures outcome { Meets
        (λ i. Some (outcome_of_image bytes.now (arguments_of (map string_bytes words.now) program.now)
        i program.now.length program.now.budget program.now.pages (elf bytes.now program.now.pages)))
        result (now (I.left input.old) (O.held output.old) (E.held errors.old))
        (now (I.left input.new) (O.held output.new) (E.held errors.new)) }
    ensures read_cause { Causes (result ≡ Ending.ReadFault) (I.faults input.old) (I.faults input.new) }
    ensures write_cause { Causes (result ≡ Ending.WriteFault) (O.faults output.old) (O.faults output.new) }
    ensures errors_cause { Causes (result ≡ Ending.ErrorsFault) (E.faults errors.old) (E.faults errors.new) }
    ensures no_file { result ≢ Ending.FileFault }
    ensures memory_first { result ≡ Ending.OutOfMemory
        → (input.new ≡ input.old) × (output.new ≡ output.old) × (errors.new ≡ errors.old) }
    ensures kind { ends_run result ≡ true }
    ensures whole { HasAllPut (InFile bytes.now (map string_bytes words.now) program.now result (I.left input.new))
        (λ i. Some (outcome_of_image bytes.now (arguments_of (map string_bytes words.now) program.now)
        i program.now.length program.now.budget program.now.pages (elf bytes.now program.now.pages)))
        result (I.left input.old)
        (O.held output.old) (O.held output.new) (E.held errors.old) (E.held errors.new) }
{
    match read(bytes, program.pages) {
        Err(fault) => ending_after_line(
            put_image_refusal(&fault, errors),
            Ending::ImageRefused(fault),
        ),
        Ok(image) => match open_machine(alloc, bytes, &image, words, program) {
            Err(_) => Ending::OutOfMemory,
            Ok(mut machine) => run_machine(&mut machine, program.budget, input, output, errors),
        },
    }
}

/// Reads the file of a program, and runs it: `program` says where among `words` its name and its arguments stand, its
/// vector length, its budget of steps and its limit of pages. The ending is the run's; or FileFault where reading
/// failed or no file has the name, TooLong over 67,108,864 bytes, ImageRefused, each refusal behind its line on the
/// errors, a fault of a stream, or OutOfMemory before anything is taken or written.
pub fn run_file<F: Images, I: Source, O: Sink, E: Sink>(
    alloc: Global,
    words: &[String],
    program: &Program,
    files: &mut F,
    input: &mut I,
    output: &mut O,
    errors: &mut E,
) -> Ending
    requires file { program.now.file < program.now.args }
    requires args { program.now.args ≤ length words.now }
    requires arguments { AreArguments (arguments_of (map string_bytes words.now) program.now) }
    ensures outcome { IfSome (F.named files.old)
        (λ named. Meets (outcome_over (map string_bytes words.now) (run_line_of program.now) named) result
        (now (I.left input.old) (O.held output.old) (E.held errors.old))
        (now (I.left input.new) (O.held output.new) (E.held errors.new))) }
    ensures file_cause { result ≡ Ending.FileFault → Rose (F.faults files.old) (F.faults files.new)
        ⊎ MissesNamed (F.named files.old) (get_or (map string_bytes words.now) program.now.file []) }
    ensures file_kept { result ≢ Ending.FileFault → F.faults files.new ≡ F.faults files.old }
    ensures missing { MissesNamed (F.named files.old) (get_or (map string_bytes words.now) program.now.file [])
        → result ≡ Ending.FileFault }
    ensures file_first { result ≡ Ending.FileFault
        → (input.new ≡ input.old) × (output.new ≡ output.old) × (errors.new ≡ errors.old) }
    ensures files_later { F.faults files.old ≤ F.faults files.new }
    ensures memory_first { result ≡ Ending.OutOfMemory
        → (input.new ≡ input.old) × (output.new ≡ output.old) × (errors.new ≡ errors.old) }
    ensures read_cause { Causes (result ≡ Ending.ReadFault) (I.faults input.old) (I.faults input.new) }
    ensures write_cause { Causes (result ≡ Ending.WriteFault) (O.faults output.old) (O.faults output.new) }
    ensures errors_cause { Causes (result ≡ Ending.ErrorsFault) (E.faults errors.old) (E.faults errors.new) }
    ensures kind { ends_run result ≡ true }
    ensures whole { IfSome (F.named files.old)
        (λ named. HasAllPut (InLine (map string_bytes words.now) named (Ok (run_line_of program.now))
        result (I.left input.new))
        (outcome_over (map string_bytes words.now) (run_line_of program.now) named) result (I.left input.old)
        (O.held output.old) (O.held output.new) (E.held errors.old) (E.held errors.new)) }
{
    match file_bytes(alloc, word(words, program.file), files, errors) {
        Ok(bytes) => run_image(alloc, &bytes, words, program, input, output, errors),
        Err(ending) => ending,
    }
}
