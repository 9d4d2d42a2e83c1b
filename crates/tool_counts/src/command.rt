//! The whole command.
ghost use Rattle.std.specs.Prelude.{
  ◌≡◌,
  ◌<◌,
  ◌≤◌,
  ◌+◌,
  ◌*◌,
  ◌⊎◌,
  [],
  ◌∷◌,
  ◌++◌,
  get_or,
  map,
  length,
  string_bytes,
  true,
  false,
  IfOk,
  IfSome,
  Ok,
  Some,
};
ghost use Rattle.io_gate.specs.Images.{whole_file, MissesNamed};
ghost use Rattle.io_gate.specs.Streams.{Rose};
ghost use Rattle.elf_image.specs.Images.{seen_image};
ghost use Rattle.elf_image.specs.Loadable.{IsLoadable};
ghost use Rattle.emu_system.specs.ArgumentLimits.{AreArguments};
ghost use Rattle.emu_system.specs.Image.{elf};
ghost use Rattle.command_model.specs.CommandLine.{line as svemu_line};
ghost use Rattle.command_model.specs.Sweep.{lengths};
ghost use Rattle.command_lines.specs.LineLimits.{HasArguments, HasPlaces};
ghost use Rattle.command_lines.specs.Outcome.{file_at, file_limit, program_arguments};
ghost use Rattle.commands.specs.Lines.{MissesFirst};
ghost use Rattle.commands.specs.Promises.{is_failure, is_refusal};
ghost use Rattle.word_counts.specs.Counts.{count_at};
ghost use Rattle.word_counts.specs.Lines.{count_lines};
ghost use Rattle.tool_counts.specs.Counted.{counted_text, stop_lines, sweep_of};
ghost use Rattle.tool_counts.specs.Endings.{other_command, EndsLine, EndsProgram, RefusesLine};
ghost use Rattle.tool_refusals.specs.Endings.{is_said, is_written, may_end, EndsImage, EndsOver, IsSaid, Leaves};
ghost use Rattle.tool_counts.specs.Written.{file_text, image_text, line_text, TellsText};

use crate::counted::count_at_lengths;
use crate::refusals::refuse_words;
use crate::stops::{Stopped, put_stops};
use command_lines::{Ending, Line, WordsFault, WordsWhy, line_of_words, word};
use elf_image::{Image, read};
use emu_model::Length;
use io_gate::{Images, Sink, Source, put_all};
use std::alloc::{AllocError, Global};
use tool_refusals::{arguments, file_bytes, input_bytes, refuse_image};
use word_counts::{WordCounts, push_lines};

/// Which runs a line counts.
#[derive(Drop)]
struct Program {
    /// The place of the word that names the file.
    file: usize,
    /// The place of the first argument behind that word, or the number of words.
    args: usize,
    /// The greatest number of steps at each length.
    budget: u64,
    /// The greatest number of mapped pages at each length.
    pages: u32,
    /// The vector lengths, in order.
    lengths: Vec<Length>,
    /// Whether the line of an ending says its length.
    headed: bool,
}

/// Runs an image at each length over the input, which was read, and puts the counts.
fn count_input<O: Sink>(
    alloc: Global,
    bytes: &[u8],
    image: &Image,
    args: &[String],
    program: &Program,
    input: &[u8],
    output: &mut O,
) -> Ending
    requires loadable { IsLoadable bytes.now program.now.pages (seen_image image.now) }
    requires arguments { AreArguments (map string_bytes args.now) }
    ensures done { result ≡ Ending.Done → IfSome (O.held output.old) (λ had. O.held output.new ≡ Some (had
        ++ counted_text (sweep_of bytes.now (seen_image image.now)
        (map string_bytes args.now) program.now.pages program.now.budget input.now)
        program.now.lengths.items program.now.headed)) }
    ensures ending { is_failure result ≡ false → result ≡ Ending.Done }
    ensures leaves { Leaves result ⊥ (output.new ≡ output.old) (Unit {0}) ⊥ ⊥
        (Rose (O.faults output.old) (O.faults output.new)) ⊥ }
{
    let Ok(counted) = count_at_lengths(
        alloc,
        bytes,
        image,
        args,
        program.pages,
        program.budget,
        input,
        &program.lengths,
    ) else {
        return Ending::OutOfMemory;
    };
    let Ok(text) = text_of(alloc, &counted.tables) else {
        return Ending::OutOfMemory;
    };
    put_counts(text.as_str(), program.headed, &counted.stops, output)
}

/// Puts the lines of the words, and those of the endings.
fn put_counts<O: Sink>(text: &str, headed: bool, stops: &[Stopped], output: &mut O) -> Ending
    ensures done { result ≡ Ending.Done → IfSome (O.held output.old)
        (λ had. O.held output.new ≡ Some (had ++ (text.now ++ stop_lines headed stops.now))) }
    ensures ending { is_failure result ≡ false → result ≡ Ending.Done }
    ensures leaves { Leaves result ⊥ (output.new ≡ output.old) (Unit {0}) ⊥ ⊥
        (Rose (O.faults output.old) (O.faults output.new)) ⊥ }
{
    match put_all(output, text.as_bytes()) {
        Err(_) => Ending::WriteFault,
        Ok(()) => match put_stops(headed, stops, output) {
            Ok(()) => Ending::Done,
            Err(_) => Ending::WriteFault,
        },
    }
}

/// The lines of counts. Err is want of memory.
fn text_of(alloc: Global, tables: &[WordCounts]) -> Result<String, AllocError>
    ensures { IfOk result (λ text. string_bytes text ≡ count_lines count_at tables.now) }
{
    let mut text = String::new(alloc);
    push_lines(&mut text, tables)?;
    Ok(text)
}

/// Reads the input, and counts the program of an image.
fn count_image<I: Source, O: Sink, E: Sink>(
    alloc: Global,
    bytes: &[u8],
    image: &Image,
    args: &[String],
    program: &Program,
    input: &mut I,
    output: &mut O,
    errors: &mut E,
) -> Ending
    requires loadable { IsLoadable bytes.now program.now.pages (seen_image image.now) }
    requires arguments { AreArguments (map string_bytes args.now) }
    ensures done { result ≡ Ending.Done → IfSome (I.left input.old) (λ i. IfSome (O.held output.old)
        (λ had. O.held output.new ≡ Some (had ++ counted_text (sweep_of bytes.now (seen_image image.now)
        (map string_bytes args.now) program.now.pages program.now.budget i) program.now.lengths.items
        program.now.headed))) }
    ensures ending { is_failure result ≡ false → EndsOver (I.left input.old) result }
    ensures leaves { Leaves result (input.new ≡ input.old) (output.new ≡ output.old) (errors.new ≡ errors.old)
        ⊥ (Rose (I.faults input.old) (I.faults input.new))
        (Rose (O.faults output.old) (O.faults output.new)) (Rose (E.faults errors.old) (E.faults errors.new)) }
{
    match input_bytes(alloc, input, errors) {
        Err(ending) => ending,
        Ok(given) => count_input(alloc, bytes, image, args, program, &given, output),
    }
}

/// Counts the program of a file's bytes, or refuses it.
fn count_bytes<I: Source, O: Sink, E: Sink>(
    alloc: Global,
    bytes: &[u8],
    words: &[String],
    program: &Program,
    input: &mut I,
    output: &mut O,
    errors: &mut E,
) -> Ending
    requires file { program.now.file < program.now.args }
    requires args { program.now.args ≤ length words.now }
    requires arguments { AreArguments (program_arguments
        (map string_bytes words.now) program.now.file program.now.args) }
    ensures done { result ≡ Ending.Done → IfSome (I.left input.old) (λ i. IfSome (O.held output.old)
        (λ had. TellsText (image_text bytes.now (program_arguments (map string_bytes words.now) program.now.file
        program.now.args) i program.now.budget program.now.pages program.now.lengths.items program.now.headed
        (elf bytes.now program.now.pages)) had (O.held output.new))) }
    ensures ending { is_failure result ≡ false
        → EndsImage (elf bytes.now program.now.pages) (EndsOver (I.left input.old)) result }
    ensures leaves { Leaves result (input.new ≡ input.old) (output.new ≡ output.old) (errors.new ≡ errors.old)
        ⊥ (Rose (I.faults input.old) (I.faults input.new))
        (Rose (O.faults output.old) (O.faults output.new)) (Rose (E.faults errors.old) (E.faults errors.new)) }
{
    match read(bytes, program.pages) {
        Err(fault) => refuse_image(alloc, word(words, program.file), bytes, fault, errors),
        Ok(image) => match arguments(alloc, words, program.file, program.args) {
            Err(_) => Ending::OutOfMemory,
            Ok(args) => count_image(alloc, bytes, &image, &args, program, input, output, errors),
        },
    }
}

/// Reads the file of a program, and counts it.
fn count_file<F: Images, I: Source, O: Sink, E: Sink>(
    alloc: Global,
    words: &[String],
    program: &Program,
    files: &mut F,
    input: &mut I,
    output: &mut O,
    errors: &mut E,
) -> Ending
    requires file { program.now.file < program.now.args }
    requires args { program.now.args ≤ length words.now }
    requires arguments { AreArguments (program_arguments
        (map string_bytes words.now) program.now.file program.now.args) }
    ensures done { result ≡ Ending.Done → IfSome (F.named files.old) (λ named. IfSome (I.left input.old)
        (λ i. IfSome (O.held output.old) (λ had. TellsText (file_text
        (file_at (map string_bytes words.now) named program.now.file)
        (program_arguments (map string_bytes words.now) program.now.file program.now.args) i program.now.budget
        program.now.pages program.now.lengths.items program.now.headed) had (O.held output.new)))) }
    ensures ending { IfSome (F.named files.old) (λ named. is_failure result ≡ false
        → EndsProgram (whole_file (file_at (map string_bytes words.now) named program.now.file) file_limit)
        program.now.pages (I.left input.old) result) }
    ensures leaves { Leaves result (input.new ≡ input.old) (output.new ≡ output.old) (errors.new ≡ errors.old)
        (Rose (F.faults files.old) (F.faults files.new) ⊎ MissesNamed (F.named files.old)
        (get_or (map string_bytes words.now) program.now.file [])) (Rose (I.faults input.old) (I.faults input.new))
        (Rose (O.faults output.old) (O.faults output.new)) (Rose (E.faults errors.old) (E.faults errors.new)) }
{
    match file_bytes(alloc, word(words, program.file), files, errors) {
        Err(ending) => ending,
        Ok(bytes) => count_bytes(alloc, &bytes, words, program, input, output, errors),
    }
}

/// One vector length. Err is want of memory.
fn one_length(alloc: Global, length: Length) -> Result<Vec<Length>, AllocError>
    ensures { IfOk result (λ lengths. lengths.items ≡ length ∷ []) }
{
    let mut lengths = Vec::new(alloc);
    lengths.push(length)?;
    Ok(lengths)
}

/// The vector length in front of which stand so many shorter ones.
fn length_behind(shorter: u32) -> Length
    requires { shorter < 16 }
    ensures { result ≡ 128 * (shorter + 1) }
{
    Length::of_bits(128 * (shorter + 1)).unwrap()
}

/// All vector lengths in order. Err is want of memory.
fn all_lengths(alloc: Global) -> Result<Vec<Length>, AllocError>
    ensures { IfOk result (λ all. all.items ≡ lengths) }
{
    let mut all = Vec::new(alloc);
    'lengths: for k in 0..16 {
        all.push(length_behind(k))?;
    }
    Ok(all)
}

/// Counts what an accepted line runs.
fn count_line<F: Images, I: Source, O: Sink, E: Sink>(
    alloc: Global,
    words: &[String],
    line: &Line,
    files: &mut F,
    input: &mut I,
    output: &mut O,
    errors: &mut E,
) -> Ending
    requires places { HasPlaces line.now (length words.now) }
    requires arguments { HasArguments (map string_bytes words.now) line.now }
    ensures done { result ≡ Ending.Done → IfSome (F.named files.old) (λ named. IfSome (I.left input.old)
        (λ i. IfSome (O.held output.old) (λ had. TellsText
        (line_text (map string_bytes words.now) named i (Ok line.now)) had (O.held output.new)))) }
    ensures ending { IfSome (F.named files.old) (λ named. is_failure result ≡ false
        → EndsLine (map string_bytes words.now) named (I.left input.old) (Ok line.now) result) }
    ensures refused { RefusesLine (Ok line.now) result }
    ensures leaves { Leaves result (input.new ≡ input.old) (output.new ≡ output.old) (errors.new ≡ errors.old)
        (Rose (F.faults files.old) (F.faults files.new)
        ⊎ MissesFirst (map string_bytes words.now) (Ok line.now) (F.named files.old)) (Rose (I.faults input.old) (I.faults input.new))
        (Rose (O.faults output.old) (O.faults output.new)) (Rose (E.faults errors.old) (E.faults errors.new)) }
{
    match *line {
        Line::Run {
            file,
            args,
            length,
            budget,
            pages,
        } => match one_length(alloc, length) {
            Err(_) => Ending::OutOfMemory,
            Ok(lengths) => {
                let program = Program {
                    file,
                    args,
                    budget,
                    pages,
                    lengths,
                    headed: false,
                };
                count_file(alloc, words, &program, files, input, output, errors)
            }
        },
        Line::Sweep {
            file,
            args,
            budget,
            pages,
        } => match all_lengths(alloc) {
            Err(_) => Ending::OutOfMemory,
            Ok(lengths) => {
                let program = Program {
                    file,
                    args,
                    budget,
                    pages,
                    lengths,
                    headed: true,
                };
                count_file(alloc, words, &program, files, input, output, errors)
            }
        },
        _ => refuse_other(alloc, words, errors),
    }
}

/// Refuses the line of a command that runs no program at a length.
fn refuse_other<E: Sink>(alloc: Global, words: &[String], errors: &mut E) -> Ending
    ensures { IsSaid (Ending.WordsRefused other_command) result (Rose (E.faults errors.old) (E.faults errors.new)) }
{
    let fault = WordsFault {
        why: WordsWhy::UnknownCommand,
        place: 0,
    };
    refuse_words(alloc, words, &fault, errors)
}

/// Counts what the words of a line of `svemu` run, at its length, or where they sweep, at each: a line on each word
/// that was executed, in order of addresses, with its count at each length, and then a line on each ending. The input
/// is read to its end first, and is that of each run; what the program writes is dropped.
///
/// The ending is Done where all lines were put. Else it is WordsRefused where the line is refused, or of another command;
/// FileFault where its file isn't there or can't be read; TooLong where the file has more than 67,108,864 bytes or the
/// input more than 16,777,216; ImageRefused; ReadFault, WriteFault or ErrorsFault where a stream failed; or OutOfMemory.
pub fn count_program<F: Images, I: Source, O: Sink, E: Sink>(
    alloc: Global,
    words: &[String],
    files: &mut F,
    input: &mut I,
    output: &mut O,
    errors: &mut E,
) -> Ending
    ensures done { result ≡ Ending.Done → IfSome (F.named files.old) (λ named. IfSome (I.left input.old)
        (λ i. IfSome (O.held output.old) (λ had. TellsText
        (line_text (map string_bytes words.now) named i (svemu_line (map string_bytes words.now))) had
        (O.held output.new)))) }
    ensures ending { IfSome (F.named files.old) (λ named. is_failure result ≡ false
        → EndsLine (map string_bytes words.now) named (I.left input.old) (svemu_line (map string_bytes words.now))
        result) }
    ensures refused { RefusesLine (svemu_line (map string_bytes words.now)) result }
    ensures kind { may_end result ≡ true }
    ensures file_cause { result ≡ Ending.FileFault → Rose (F.faults files.old) (F.faults files.new)
        ⊎ MissesFirst (map string_bytes words.now) (svemu_line (map string_bytes words.now)) (F.named files.old) }
    ensures read_cause { result ≡ Ending.ReadFault → Rose (I.faults input.old) (I.faults input.new) }
    ensures write_cause { result ≡ Ending.WriteFault → Rose (O.faults output.old) (O.faults output.new) }
    ensures errors_cause { result ≡ Ending.ErrorsFault → Rose (E.faults errors.old) (E.faults errors.new) }
    ensures untaken { is_refusal result ≡ true → input.new ≡ input.old }
    ensures unwritten { is_written result ≡ false → output.new ≡ output.old }
    ensures silent { is_said result ≡ false → errors.new ≡ errors.old }
{
    let read = line_of_words(words);
    match &read {
        Err(fault) => refuse_words(alloc, words, fault, errors),
        Ok(line) => count_line(alloc, words, line, files, input, output, errors),
    }
}
