//! A command line, from its words to its ending.
ghost use Rattle.std.specs.Prelude.{
  ◌≡◌,
  ◌≢◌,
  ◌≤◌,
  ◌⊎◌,
  ℕ,
  List,
  Option,
  map,
  length,
  string_bytes,
  IfErr,
  IfOk,
  IfSome,
  Ok,
  true,
  false,
};
ghost use Rattle.io_gate.specs.Streams.{Rose, Causes};
ghost use Rattle.command_model.specs.CommandLine.{line};
ghost use Rattle.command_model.specs.Refusals.{words_line};
ghost use Rattle.command_lines.specs.Outcome.{result_of};
ghost use Rattle.command_lines.specs.LineLimits.{HasArguments, HasLimit, HasPlaces};
ghost use Rattle.commands.specs.Lines.{
  takes_input,
  names_file,
  may_end,
  reads_input_first,
  sweeps,
  RefusesLine,
  MissesFirst,
  EndsMissing,
  ReadsInputFirst,
  TakesNothingEarly,
};
ghost use Rattle.commands.specs.Meets.{MeetsLine, now};
ghost use Rattle.commands.specs.Programs.{outcome_over};
ghost use Rattle.commands.specs.Whole.{InLine, HasAllPut};
ghost use Rattle.emu_system.specs.Gained.{Gains};
ghost use Rattle.commands.specs.Promises.{is_failure, is_silent, NamesNoFile};

use crate::disassembly::disassemble_file;
use crate::files::ending_after_line;
use crate::listings::assemble_file;
use crate::loading::load_number;
use crate::program::Program;
use crate::run::run_file;
use crate::sweeping::{Swept, sweep_file};
use crate::two_files::{SecondFile, obey_files};
use command_lines::{Ending, Line, line_of_words};
use emu_report::put_words_refusal;
use io_gate::{Images, Sink, Source};
use std::alloc::Global;

/// Does what a line says.
fn run_line<F: Images, I: Source, O: Sink, E: Sink>(
    alloc: Global,
    words: &[String],
    line: &Line,
    files: &mut F,
    input: &mut I,
    output: &mut O,
    errors: &mut E,
) -> Ending
    requires places { HasPlaces line.now (length words.now) }
    requires arguments { HasArguments (map string_bytes words.now) line.now }
    requires limit { HasLimit line.now }
    ensures outcome { IfSome (F.named files.old) (λ named. MeetsLine (map string_bytes words.now) named
        (Ok line.now) (outcome_over (map string_bytes words.now) line.now named) result
        (now (I.left input.old) (O.held output.old) (E.held errors.old))
        (now (I.left input.new) (O.held output.new) (E.held errors.new))) }
    ensures without_input { takes_input (Ok line.now) ≡ false → (input : Option (List ℕ))
        → IfSome (F.named files.old) (λ named. MeetsLine (map string_bytes words.now) named
        (Ok line.now) (outcome_over (map string_bytes words.now) line.now named) result
        (now input (O.held output.old) (E.held errors.old)) (now input (O.held output.new) (E.held errors.new))) }
    ensures file_cause { result ≡ Ending.FileFault → Rose (F.faults files.old) (F.faults files.new)
        ⊎ NamesNoFile (outcome_over (map string_bytes words.now) line.now) (F.named files.old) }
    ensures file_kept { result ≢ Ending.FileFault → F.faults files.new ≡ F.faults files.old }
    ensures missing { NamesNoFile (outcome_over (map string_bytes words.now) line.now) (F.named files.old)
        → EndsMissing (Ok line.now) result }
    ensures missing_first { MissesFirst (map string_bytes words.now) (Ok line.now) (F.named files.old)
        → result ≡ Ending.FileFault }
    ensures file_first { result ≡ Ending.FileFault
        → (input.new ≡ input.old) × (output.new ≡ output.old) × (errors.new ≡ errors.old) }
    ensures files_later { F.faults files.old ≤ F.faults files.new }
    ensures memory_first { TakesNothingEarly (map string_bytes words.now) (Ok line.now) (F.named files.old)
        → result ≡ Ending.OutOfMemory → input.new ≡ input.old }
    ensures memory_unwritten { sweeps (Ok line.now) ≡ false → result ≡ Ending.OutOfMemory
        → (output.new ≡ output.old) × (errors.new ≡ errors.old) }
    ensures read_cause { Causes (result ≡ Ending.ReadFault) (I.faults input.old) (I.faults input.new) }
    ensures write_cause { Causes (result ≡ Ending.WriteFault) (O.faults output.old) (O.faults output.new) }
    ensures errors_cause { Causes (result ≡ Ending.ErrorsFault) (E.faults errors.old) (E.faults errors.new) }
    ensures read_unwritten { ReadsInputFirst (map string_bytes words.now) (Ok line.now) (F.named files.old)
        → result ≡ Ending.ReadFault → (output.new ≡ output.old) × (errors.new ≡ errors.old) }
    ensures kind { may_end line.now result ≡ true }
    ensures whole { IfSome (F.named files.old) (λ named. takes_input (Ok line.now) ≡ true
        → reads_input_first (map string_bytes words.now) named (Ok line.now) ≡ false
        → HasAllPut (InLine (map string_bytes words.now) named (Ok line.now) result (I.left input.new))
        (outcome_over (map string_bytes words.now) line.now named) result (I.left input.old)
        (O.held output.old) (O.held output.new) (E.held errors.old) (E.held errors.new)) }
    ensures no_input { takes_input (Ok line.now) ≡ false → (input.new ≡ input.old) × (result ≢ Ending.ReadFault) }
    ensures no_file { names_file (Ok line.now) ≡ false → (files.new ≡ files.old) × (result ≢ Ending.FileFault) }
    ensures no_errors { takes_input (Ok line.now) ≡ false → is_silent result ≡ true → errors.new ≡ errors.old }
{
    match *line {
        Line::Run {
            file,
            args,
            length,
            budget,
            pages,
        } => {
            let program = Program::new(file, args, length, budget, pages);
            run_file(alloc, words, &program, files, input, output, errors)
        }
        Line::Asm { listing } => assemble_file(alloc, words, listing, files, output, errors),
        Line::Dis { file } => disassemble_file(alloc, words, file, files, output, errors),
        Line::Dbg {
            file,
            script,
            args,
            length,
            budget,
            pages,
        } => {
            let debugged = Program::new(file, args, length, budget, pages);
            let second = SecondFile::Script;
            obey_files(
                alloc, words, &debugged, second, script, files, input, output, errors,
            )
        }
        Line::Load { number } => load_number(alloc, number, output, errors),
        Line::Sweep {
            file,
            args,
            budget,
            pages,
        } => {
            let swept = Swept::new(file, args, budget, pages);
            sweep_file(alloc, words, &swept, files, input, output, errors)
        }
        Line::Threads {
            file,
            schedule,
            args,
            length,
            budget,
            pages,
        } => {
            let threaded = Program::new(file, args, length, budget, pages);
            let second = SecondFile::Schedule;
            obey_files(
                alloc, words, &threaded, second, schedule, files, input, output, errors,
            )
        }
    }
}

/// Does what the words of the command line say: those after the program's name. A line that is refused is put on
/// `errors`.
pub fn command<F: Images, I: Source, O: Sink, E: Sink>(
    alloc: Global,
    words: &[String],
    files: &mut F,
    input: &mut I,
    output: &mut O,
    errors: &mut E,
) -> Ending
    ensures outcome { IfSome (F.named files.old) (λ named. MeetsLine (map string_bytes words.now) named
        (line (map string_bytes words.now)) (result_of (map string_bytes words.now) named) result
        (now (I.left input.old) (O.held output.old) (E.held errors.old))
        (now (I.left input.new) (O.held output.new) (E.held errors.new))) }
    ensures without_input { takes_input (line (map string_bytes words.now)) ≡ false → (input : Option (List ℕ))
        → IfSome (F.named files.old) (λ named. MeetsLine (map string_bytes words.now) named
        (line (map string_bytes words.now)) (result_of (map string_bytes words.now) named) result
        (now input (O.held output.old) (E.held errors.old)) (now input (O.held output.new) (E.held errors.new))) }
    ensures file_cause { result ≡ Ending.FileFault → Rose (F.faults files.old) (F.faults files.new)
        ⊎ NamesNoFile (result_of (map string_bytes words.now)) (F.named files.old) }
    ensures file_kept { result ≢ Ending.FileFault → F.faults files.new ≡ F.faults files.old }
    ensures missing { NamesNoFile (result_of (map string_bytes words.now)) (F.named files.old)
        → EndsMissing (line (map string_bytes words.now)) result }
    ensures missing_first { MissesFirst (map string_bytes words.now)
        (line (map string_bytes words.now)) (F.named files.old)
        → result ≡ Ending.FileFault }
    ensures file_first { result ≡ Ending.FileFault
        → (input.new ≡ input.old) × (output.new ≡ output.old) × (errors.new ≡ errors.old) }
    ensures files_later { F.faults files.old ≤ F.faults files.new }
    ensures memory_first { TakesNothingEarly (map string_bytes words.now)
        (line (map string_bytes words.now)) (F.named files.old)
        → result ≡ Ending.OutOfMemory → input.new ≡ input.old }
    ensures memory_unwritten { sweeps (line (map string_bytes words.now)) ≡ false → result ≡ Ending.OutOfMemory
        → (output.new ≡ output.old) × (errors.new ≡ errors.old) }
    ensures read_cause { Causes (result ≡ Ending.ReadFault) (I.faults input.old) (I.faults input.new) }
    ensures write_cause { Causes (result ≡ Ending.WriteFault) (O.faults output.old) (O.faults output.new) }
    ensures errors_cause { Causes (result ≡ Ending.ErrorsFault) (E.faults errors.old) (E.faults errors.new) }
    ensures no_input { takes_input (line (map string_bytes words.now)) ≡ false
        → (input.new ≡ input.old) × (result ≢ Ending.ReadFault) }
    ensures no_file { names_file (line (map string_bytes words.now)) ≡ false
        → (files.new ≡ files.old) × (result ≢ Ending.FileFault) }
    ensures no_errors { takes_input (line (map string_bytes words.now)) ≡ false → is_silent result ≡ true
        → errors.new ≡ errors.old }
    ensures read_unwritten { ReadsInputFirst (map string_bytes words.now)
        (line (map string_bytes words.now)) (F.named files.old)
        → result ≡ Ending.ReadFault → (output.new ≡ output.old) × (errors.new ≡ errors.old) }
    ensures kind { IfOk (line (map string_bytes words.now)) (λ l. may_end l result ≡ true) }
    ensures whole { IfSome (F.named files.old) (λ named. takes_input (line (map string_bytes words.now)) ≡ true
        → reads_input_first (map string_bytes words.now) named (line (map string_bytes words.now)) ≡ false
        → HasAllPut (InLine (map string_bytes words.now) named (line (map string_bytes words.now))
        result (I.left input.new))
        (result_of (map string_bytes words.now) named) result (I.left input.old)
        (O.held output.old) (O.held output.new) (E.held errors.old) (E.held errors.new)) }
    ensures refused { RefusesLine (line (map string_bytes words.now)) result }
    ensures refused_output { IfErr (line (map string_bytes words.now)) (λ _. output.new ≡ output.old) }
    ensures refused_errors { IfErr (line (map string_bytes words.now)) (λ fault. IfSome (E.held errors.old)
        (λ had. Gains (is_failure result) (E.held errors.new) had (words_line fault))) }
{
    let line = line_of_words(words);
    match &line {
        Err(fault) => ending_after_line(
            put_words_refusal(fault, errors),
            Ending::WordsRefused(*fault),
        ),
        Ok(line) => run_line(alloc, words, line, files, input, output, errors),
    }
}
