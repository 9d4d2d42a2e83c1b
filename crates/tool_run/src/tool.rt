//! The whole command.
ghost use Rattle.std.specs.Prelude.{
  ◌≡◌,
  ◌≤◌,
  ◌⊎◌,
  [],
  true,
  false,
  Ok,
  None,
  is_some,
  map,
  string_bytes,
  length,
  IfSome,
};
ghost use Rattle.io_gate.specs.Streams.{Rose};
ghost use Rattle.command_model.specs.CommandLine.{line as svemu_line};
ghost use Rattle.command_lines.specs.Outcome.{result_of};
ghost use Rattle.command_lines.specs.LineLimits.{HasArguments, HasPlaces};
ghost use Rattle.commands.specs.Endings.{ended_by};
ghost use Rattle.commands.specs.Meets.{now, Meets};
ghost use Rattle.commands.specs.Programs.{outcome_over};
ghost use Rattle.commands.specs.Promises.{NamesNoFile};
ghost use Rattle.tool_lines.specs.SameWords.{same_words};
ghost use Rattle.tool_lines.specs.ToolLine.{HasRunPlaces};
ghost use Rattle.tool_run.specs.Caused.{faults, IsCaused};
ghost use Rattle.tool_run.specs.Still.{is_unreported, WithoutReport};
ghost use Rattle.tool_run.specs.Stops.{GainsReport, HasStopped, IsTold, StopsLine};
ghost use Rattle.tool_run.specs.Tells.{IsExplained, IsSilentExit, Tells};
ghost use Rattle.tool_run.specs.Unreported.{unreported, unreported_over};

use crate::ends::{Told, hushed, silent, with_failure, with_text};
use crate::image::run_files;
use crate::refusals::words_text;
use command_lines::{Ending, Line, line_of_words};
use commands::Program;
use io_gate::{Failed, Images, Sink, Source, put_all};
use std::alloc::Global;
use tool_lines::{RunLine, Variables, same_words};

/// How a command ended that said a line: by a fault of the errors where it wasn't put whole.
fn ended(told: Told, put: Result<(), Failed>) -> Told
    ensures ending { result.ending ≡ ended_by put told.ending }
    ensures said { string_bytes result.said ≡ string_bytes told.said }
    ensures report { result.report_failed ≡ told.report_failed }
{
    match put {
        Ok(()) => told,
        Err(_) => Told {
            ending: Ending::ErrorsFault,
            ..told
        },
    }
}

/// Does what an accepted line of `svemu` says that runs a program. The words that `run_program` gives make no other.
fn run_line<F: Images, I: Source, O: Sink, E: Sink, R: Sink>(
    alloc: Global,
    words: &[String],
    line: &Line,
    wanted: bool,
    files: &mut F,
    input: &mut I,
    output: &mut O,
    errors: &mut E,
    registers: &mut R,
) -> Told
    requires places { HasPlaces line.now (length words.now) }
    requires arguments { HasArguments (map string_bytes words.now) line.now }
    ensures outcome { IfSome (F.named files.old)
        (λ named. Meets (unreported_over (map string_bytes words.now) line.now named) result.ending
        (now (I.left input.old) (O.held output.old) (E.held errors.old))
        (now (I.left input.new) (O.held output.new) (E.held errors.new))) }
    ensures exit { IsSilentExit result.ending (string_bytes result.said) }
    ensures stopped { IfSome (F.named files.old) (λ named. IfSome (I.left input.old) (λ i. HasStopped result.ending
        → StopsLine (IsTold (string_bytes result.said) wanted result.report_failed (R.held registers.old)
        (R.held registers.new)) (map string_bytes words.now) named i (Ok line.now))) }
    ensures file_cause { result.ending ≡ Ending.FileFault → Rose (F.faults files.old) (F.faults files.new)
        ⊎ NamesNoFile (outcome_over (map string_bytes words.now) line.now) (F.named files.old) }
    ensures caused { IsCaused result.ending result.report_failed
        (faults (I.faults input.old) (O.faults output.old) (E.faults errors.old) (R.faults registers.old))
        (faults (I.faults input.new) (O.faults output.new) (E.faults errors.new) (R.faults registers.new)) }
    ensures kept { WithoutReport wanted result.ending (registers.new ≡ registers.old) }
{
    match *line {
        Line::Run {
            file,
            args,
            length,
            budget,
            pages,
        } => {
            let program = Program::new(file, args, length, budget, pages);
            run_files(
                alloc, words, &program, None, wanted, files, input, output, errors, registers,
            )
        }
        Line::Threads {
            file,
            schedule,
            args,
            length,
            budget,
            pages,
        } => {
            let threaded = Program::new(file, args, length, budget, pages);
            let second = Some(schedule);
            run_files(
                alloc, words, &threaded, second, wanted, files, input, output, errors, registers,
            )
        }
        _ => silent(alloc, Ending::OutOfMemory),
    }
}

/// Does what the words of `svemu`'s line say: they are those of `line`.
fn run_words<F: Images, I: Source, O: Sink, E: Sink, R: Sink>(
    alloc: Global,
    words: &[String],
    line: &RunLine,
    files: &mut F,
    input: &mut I,
    output: &mut O,
    errors: &mut E,
    registers: &mut R,
) -> Told
    ensures outcome { IfSome (F.named files.old)
        (λ named. Meets (unreported (map string_bytes words.now) named) result.ending
        (now (I.left input.old) (O.held output.old) (E.held errors.old))
        (now (I.left input.new) (O.held output.new) (E.held errors.new))) }
    ensures exit { IsSilentExit result.ending (string_bytes result.said) }
    ensures stopped { IfSome (F.named files.old) (λ named. IfSome (I.left input.old) (λ i. HasStopped result.ending
        → StopsLine (IsTold (string_bytes result.said) (is_some line.now.registers) result.report_failed
        (R.held registers.old) (R.held registers.new)) (map string_bytes words.now) named i
        (svemu_line (map string_bytes words.now)))) }
    ensures file_cause { result.ending ≡ Ending.FileFault → Rose (F.faults files.old) (F.faults files.new)
        ⊎ NamesNoFile (result_of (map string_bytes words.now)) (F.named files.old) }
    ensures caused { IsCaused result.ending result.report_failed
        (faults (I.faults input.old) (O.faults output.old) (E.faults errors.old) (R.faults registers.old))
        (faults (I.faults input.new) (O.faults output.new) (E.faults errors.new) (R.faults registers.new)) }
    ensures kept { WithoutReport (is_some line.now.registers) result.ending (registers.new ≡ registers.old) }
{
    let read = line_of_words(words);
    match &read {
        Err(fault) => with_text(
            alloc,
            Ending::WordsRefused(*fault),
            words_text(alloc, words, line, fault),
        ),
        Ok(read) => {
            let wanted = line.registers.is_some();
            run_line(
                alloc, words, read, wanted, files, input, output, errors, registers,
            )
        }
    }
}

/// Runs a program as the words of a line of `svemu-tool` say: `words` are those after the program's name, `line` what
/// they say, `variables` what the environment says where they don't. The answer is how the run ended, what was put on
/// the errors behind the program's own bytes, and whether the report couldn't be put to `registers`, which gains it
/// where the line names a file for it.
///
/// Unless a file or a stream failed or memory was wanting, the ending, the output and what is taken of the input are
/// those of `svemu` with the same words, and the errors gain what the program itself writes there, and what is said.
pub fn run_program<F: Images, I: Source, O: Sink, E: Sink, R: Sink>(
    alloc: Global,
    words: &[String],
    line: &RunLine,
    variables: &Variables,
    files: &mut F,
    input: &mut I,
    output: &mut O,
    errors: &mut E,
    registers: &mut R,
) -> Told
    requires { HasRunPlaces (length words.now) line.now }
    ensures tells { let same = same_words (map string_bytes words.now) line.now (string_bytes variables.now.length)
        (string_bytes variables.now.budget) (string_bytes variables.now.pages) in
        IfSome (F.named files.old)
        (λ named. Tells (result_of same named) (unreported same named) (string_bytes result.said) result.ending
        (now (I.left input.old) (O.held output.old) (E.held errors.old))
        (now (I.left input.new) (O.held output.new) (E.held errors.new))) }
    ensures exit { IsSilentExit result.ending (string_bytes result.said) }
    ensures explained { let same = same_words (map string_bytes words.now) line.now
        (string_bytes variables.now.length) (string_bytes variables.now.budget) (string_bytes variables.now.pages) in
        line.now.quiet ≡ false → IfSome (F.named files.old) (λ named. IfSome (I.left input.old)
        (λ i. HasStopped result.ending → StopsLine (λ stop. IsExplained stop (string_bytes result.said)) same named i
        (svemu_line same))) }
    ensures registers { let same = same_words (map string_bytes words.now) line.now
        (string_bytes variables.now.length) (string_bytes variables.now.budget) (string_bytes variables.now.pages) in
        IfSome (F.named files.old) (λ named. IfSome (I.left input.old) (λ i. HasStopped result.ending
        → StopsLine (λ stop. GainsReport (is_some line.now.registers) result.report_failed (R.held registers.old)
        (R.held registers.new) stop.report) same named i (svemu_line same))) }
    ensures quiet { line.now.quiet ≡ true → string_bytes result.said ≡ [] }
    ensures file_cause { result.ending ≡ Ending.FileFault → Rose (F.faults files.old) (F.faults files.new)
        ⊎ NamesNoFile (result_of (same_words (map string_bytes words.now) line.now (string_bytes variables.now.length)
        (string_bytes variables.now.budget) (string_bytes variables.now.pages))) (F.named files.old) }
    ensures read_cause { result.ending ≡ Ending.ReadFault → Rose (I.faults input.old) (I.faults input.new) }
    ensures write_cause { result.ending ≡ Ending.WriteFault → Rose (O.faults output.old) (O.faults output.new) }
    ensures errors_cause { result.ending ≡ Ending.ErrorsFault → Rose (E.faults errors.old) (E.faults errors.new) }
    ensures errors_later { E.faults errors.old ≤ E.faults errors.new }
    ensures unwanted { line.now.registers ≡ None → registers.new ≡ registers.old }
    ensures unreported { is_unreported result.ending ≡ true → registers.new ≡ registers.old }
    ensures registers_cause { result.report_failed ≡ true
        → Rose (R.faults registers.old) (R.faults registers.new) }
{
    match same_words(alloc, words, line, variables) {
        Err(_) => silent(alloc, Ending::OutOfMemory),
        Ok(same) => {
            let ran = run_words(alloc, &same, line, files, input, output, errors, registers);
            let told = hushed(alloc, with_failure(alloc, ran), line.quiet);
            let put = put_all(errors, told.said.as_bytes());
            ended(told, put)
        }
    }
}
