//! The whole command.
ghost use Rattle.std.specs.Prelude.{
  ◌≡◌,
  ◌<◌,
  ◌≤◌,
  ◌⊎◌,
  [],
  get_or,
  map,
  length,
  string_bytes,
  true,
  false,
  IfErr,
  IfSome,
  Ok,
};
ghost use Rattle.io_gate.specs.Images.{whole_file, MissesNamed};
ghost use Rattle.io_gate.specs.Streams.{Rose};
ghost use Rattle.elf_image.specs.Images.{seen_image};
ghost use Rattle.elf_image.specs.Loadable.{IsLoadable};
ghost use Rattle.emu_system.specs.ArgumentLimits.{AreArguments};
ghost use Rattle.emu_system.specs.Image.{elf};
ghost use Rattle.command_model.specs.CommandLine.{line as svemu_line};
ghost use Rattle.command_lines.specs.LineLimits.{HasArguments, HasPlaces};
ghost use Rattle.command_lines.specs.Outcome.{file_at, file_limit, program_arguments};
ghost use Rattle.commands.specs.Lines.{MissesFirst};
ghost use Rattle.commands.specs.Promises.{is_failure, is_refusal};
ghost use Rattle.tool_refusals.specs.Endings.{is_said, is_written, may_end, EndsImage, Leaves};
ghost use Rattle.tool_traces.specs.Endings.{option_fault, EndsLine, EndsProgram, EndsSymbols, EndsTrace};
ghost use Rattle.trace_options.specs.Options.{trace_options};
ghost use Rattle.trace_options.specs.RunWords.{run_words};
ghost use Rattle.tool_traces.specs.Traced.{
  image_traced,
  file_traced,
  line_traced,
  traced,
  traced_of,
  SomeTraces,
  Traces,
};

use crate::asked::asked_of;
use crate::refusals::{refuse_option, refuse_other, refuse_words};
use crate::run::{Program, trace_image};
use command_lines::{Ending, Line, line_of_words, word};
use elf_image::{Image, read};
use io_gate::{Images, Sink, Source};
use std::alloc::Global;
use tool_refusals::{arguments, file_bytes, refuse_image};
use trace_options::{Given, run_words, trace_options};

/// Traces an image, or refuses what is asked of it.
fn trace_asked<I: Source, O: Sink, E: Sink>(
    alloc: Global,
    bytes: &[u8],
    image: &Image,
    words: &[String],
    args: &[String],
    given: &Given,
    program: &Program,
    input: &mut I,
    output: &mut O,
    errors: &mut E,
) -> Ending
    requires loadable { IsLoadable bytes.now program.now.pages (seen_image image.now) }
    requires arguments { AreArguments (map string_bytes args.now) }
    ensures done { result ≡ Ending.Done → IfSome (I.left input.old) (λ i. Traces (map string_bytes words.now)
        (traced_of given.now bytes.now (seen_image image.now) (map string_bytes args.now) program.now.length
        program.now.budget program.now.pages) i (O.held output.old) (O.held output.new)) }
    ensures ending { is_failure result ≡ false
        → EndsSymbols bytes.now (map string_bytes words.now) given.now (I.left input.old) result }
    ensures leaves { Leaves result (input.new ≡ input.old) (output.new ≡ output.old) (errors.new ≡ errors.old)
        ⊥ (Rose (I.faults input.old) (I.faults input.new))
        (Rose (O.faults output.old) (O.faults output.new)) (Rose (E.faults errors.old) (E.faults errors.new)) }
{
    match asked_of(alloc, bytes, words, given) {
        Err(_) => Ending::OutOfMemory,
        Ok(Err(fault)) => refuse_option(alloc, words, &fault, errors),
        Ok(Ok(asked)) => trace_image(
            alloc, bytes, image, args, program, &asked, input, output, errors,
        ),
    }
}

/// Traces the program of a file's bytes, or refuses it.
fn trace_bytes<I: Source, O: Sink, E: Sink>(
    alloc: Global,
    bytes: &[u8],
    words: &[String],
    same: &[String],
    given: &Given,
    program: &Program,
    input: &mut I,
    output: &mut O,
    errors: &mut E,
) -> Ending
    requires file { program.now.file < program.now.args }
    requires args { program.now.args ≤ length same.now }
    requires arguments { AreArguments (program_arguments
        (map string_bytes same.now) program.now.file program.now.args) }
    ensures done { result ≡ Ending.Done → IfSome (I.left input.old) (λ i. SomeTraces (map string_bytes words.now)
        (image_traced given.now bytes.now (program_arguments (map string_bytes same.now) program.now.file
        program.now.args) program.now.length program.now.budget program.now.pages (elf bytes.now program.now.pages))
        i (O.held output.old) (O.held output.new)) }
    ensures ending { is_failure result ≡ false → EndsImage (elf bytes.now program.now.pages)
        (EndsSymbols bytes.now (map string_bytes words.now) given.now (I.left input.old)) result }
    ensures leaves { Leaves result (input.new ≡ input.old) (output.new ≡ output.old) (errors.new ≡ errors.old)
        ⊥ (Rose (I.faults input.old) (I.faults input.new))
        (Rose (O.faults output.old) (O.faults output.new)) (Rose (E.faults errors.old) (E.faults errors.new)) }
{
    match read(bytes, program.pages) {
        Err(fault) => refuse_image(alloc, word(same, program.file), bytes, fault, errors),
        Ok(image) => match arguments(alloc, same, program.file, program.args) {
            Err(_) => Ending::OutOfMemory,
            Ok(args) => trace_asked(
                alloc, bytes, &image, words, &args, given, program, input, output, errors,
            ),
        },
    }
}

/// Reads the file of a program, and traces it.
fn trace_file<F: Images, I: Source, O: Sink, E: Sink>(
    alloc: Global,
    words: &[String],
    same: &[String],
    given: &Given,
    program: &Program,
    files: &mut F,
    input: &mut I,
    output: &mut O,
    errors: &mut E,
) -> Ending
    requires file { program.now.file < program.now.args }
    requires args { program.now.args ≤ length same.now }
    requires arguments { AreArguments (program_arguments
        (map string_bytes same.now) program.now.file program.now.args) }
    ensures done { result ≡ Ending.Done → IfSome (F.named files.old) (λ named. IfSome (I.left input.old)
        (λ i. SomeTraces (map string_bytes words.now) (file_traced given.now
        (file_at (map string_bytes same.now) named program.now.file)
        (program_arguments (map string_bytes same.now) program.now.file program.now.args) program.now.length
        program.now.budget program.now.pages) i (O.held output.old) (O.held output.new))) }
    ensures ending { IfSome (F.named files.old) (λ named. is_failure result ≡ false
        → EndsProgram (whole_file (file_at (map string_bytes same.now) named program.now.file) file_limit)
        (map string_bytes words.now) given.now program.now.pages (I.left input.old) result) }
    ensures leaves { Leaves result (input.new ≡ input.old) (output.new ≡ output.old) (errors.new ≡ errors.old)
        (Rose (F.faults files.old) (F.faults files.new) ⊎ MissesNamed (F.named files.old)
        (get_or (map string_bytes same.now) program.now.file [])) (Rose (I.faults input.old) (I.faults input.new))
        (Rose (O.faults output.old) (O.faults output.new)) (Rose (E.faults errors.old) (E.faults errors.new)) }
{
    match file_bytes(alloc, word(same, program.file), files, errors) {
        Err(ending) => ending,
        Ok(bytes) => trace_bytes(
            alloc, &bytes, words, same, given, program, input, output, errors,
        ),
    }
}

/// Traces what an accepted line runs.
fn trace_line<F: Images, I: Source, O: Sink, E: Sink>(
    alloc: Global,
    words: &[String],
    same: &[String],
    given: &Given,
    line: &Line,
    files: &mut F,
    input: &mut I,
    output: &mut O,
    errors: &mut E,
) -> Ending
    requires places { HasPlaces line.now (length same.now) }
    requires arguments { HasArguments (map string_bytes same.now) line.now }
    ensures done { result ≡ Ending.Done → IfSome (F.named files.old) (λ named. IfSome (I.left input.old)
        (λ i. SomeTraces (map string_bytes words.now)
        (line_traced (map string_bytes same.now) given.now named (Ok line.now))
        i (O.held output.old) (O.held output.new))) }
    ensures ending { IfSome (F.named files.old) (λ named. is_failure result ≡ false
        → EndsLine (map string_bytes words.now) (map string_bytes same.now) given.now named (I.left input.old) (Ok line.now) result) }
    ensures leaves { Leaves result (input.new ≡ input.old) (output.new ≡ output.old) (errors.new ≡ errors.old)
        (Rose (F.faults files.old) (F.faults files.new)
        ⊎ MissesFirst (map string_bytes same.now) (Ok line.now) (F.named files.old)) (Rose (I.faults input.old) (I.faults input.new))
        (Rose (O.faults output.old) (O.faults output.new)) (Rose (E.faults errors.old) (E.faults errors.new)) }
{
    match *line {
        Line::Run {
            file,
            args,
            length,
            budget,
            pages,
        } => {
            let program = Program {
                file,
                args,
                length,
                budget,
                pages,
            };
            trace_file(
                alloc, words, same, given, &program, files, input, output, errors,
            )
        }
        _ => refuse_other(alloc, same, errors),
    }
}

/// Traces what the words of a line of `svemu` run, by the options that were given beside them.
fn trace_given<F: Images, I: Source, O: Sink, E: Sink>(
    alloc: Global,
    words: &[String],
    same: &[String],
    given: &Given,
    files: &mut F,
    input: &mut I,
    output: &mut O,
    errors: &mut E,
) -> Ending
    ensures done { result ≡ Ending.Done → IfSome (F.named files.old) (λ named. IfSome (I.left input.old)
        (λ i. SomeTraces (map string_bytes words.now)
        (line_traced (map string_bytes same.now) given.now named (svemu_line (map string_bytes same.now)))
        i (O.held output.old) (O.held output.new))) }
    ensures ending { IfSome (F.named files.old) (λ named. is_failure result ≡ false → EndsLine (map string_bytes words.now)
        (map string_bytes same.now) given.now named (I.left input.old) (svemu_line (map string_bytes same.now)) result) }
    ensures leaves { Leaves result (input.new ≡ input.old) (output.new ≡ output.old) (errors.new ≡ errors.old)
        (Rose (F.faults files.old) (F.faults files.new)
        ⊎ MissesFirst (map string_bytes same.now) (svemu_line (map string_bytes same.now)) (F.named files.old)) (Rose (I.faults input.old) (I.faults input.new))
        (Rose (O.faults output.old) (O.faults output.new)) (Rose (E.faults errors.old) (E.faults errors.new)) }
{
    let read = line_of_words(same);
    match &read {
        Err(fault) => refuse_words(alloc, same, fault, errors),
        Ok(line) => trace_line(
            alloc, words, same, given, line, files, input, output, errors,
        ),
    }
}

/// Traces what words of `svemu-tool` say whose first is `trace`: a line on each step that is asked for, and one on
/// where the trace ended. The input is read to its end first; what the program writes is dropped.
///
/// The ending is Done where all lines were put. Else it is WordsRefused where an option or another word is refused, by
/// itself or by the symbols of the program; FileFault where the file isn't there or can't be read; TooLong where the file
/// has more than 67,108,864 bytes or the input more than 16,777,216; ImageRefused; ReadFault, WriteFault or ErrorsFault
/// where a stream failed; or OutOfMemory.
pub fn trace_program<F: Images, I: Source, O: Sink, E: Sink>(
    alloc: Global,
    words: &[String],
    files: &mut F,
    input: &mut I,
    output: &mut O,
    errors: &mut E,
) -> Ending
    ensures done { result ≡ Ending.Done → IfSome (F.named files.old) (λ named. IfSome (I.left input.old)
        (λ i. SomeTraces (map string_bytes words.now) (traced (map string_bytes words.now) named)
        i (O.held output.old) (O.held output.new))) }
    ensures ending { IfSome (F.named files.old) (λ named. is_failure result ≡ false
        → EndsTrace (map string_bytes words.now) named (I.left input.old) (trace_options (map string_bytes words.now)) result) }
    ensures refused { IfErr (trace_options (map string_bytes words.now))
        (λ fault. (result ≡ Ending.WordsRefused (option_fault fault)) ⊎ (result ≡ Ending.ErrorsFault)) }
    ensures kind { may_end result ≡ true }
    ensures file_cause { result ≡ Ending.FileFault → Rose (F.faults files.old) (F.faults files.new)
        ⊎ MissesFirst (run_words (map string_bytes words.now)) (svemu_line (run_words (map string_bytes words.now)))
        (F.named files.old) }
    ensures read_cause { result ≡ Ending.ReadFault → Rose (I.faults input.old) (I.faults input.new) }
    ensures write_cause { result ≡ Ending.WriteFault → Rose (O.faults output.old) (O.faults output.new) }
    ensures errors_cause { result ≡ Ending.ErrorsFault → Rose (E.faults errors.old) (E.faults errors.new) }
    ensures untaken { is_refusal result ≡ true → input.new ≡ input.old }
    ensures unwritten { is_written result ≡ false → output.new ≡ output.old }
    ensures silent { is_said result ≡ false → errors.new ≡ errors.old }
{
    match trace_options(words) {
        Err(fault) => refuse_option(alloc, words, &fault, errors),
        Ok(given) => match run_words(alloc, words) {
            Err(_) => Ending::OutOfMemory,
            Ok(same) => trace_given(alloc, words, &same, &given, files, input, output, errors),
        },
    }
}
