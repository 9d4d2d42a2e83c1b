//! The command `sweep`: from the file of a program to a line on its run at each vector length.
ghost use Rattle.std.specs.Prelude.{
  ◌≡◌,
  ◌≢◌,
  ◌<◌,
  ◌≤◌,
  ◌⊎◌,
  [],
  map,
  length,
  string_bytes,
  get_or,
  IfSome,
  Some,
  false,
  true,
};
ghost use Rattle.io_gate.specs.Images.{MissesNamed};
ghost use Rattle.io_gate.specs.Streams.{Rose, Causes};
ghost use Rattle.elf_image.specs.Images.{seen_image};
ghost use Rattle.elf_image.specs.Loadable.{IsLoadable};
ghost use Rattle.emu_system.specs.ArgumentLimits.{AreArguments};
ghost use Rattle.emu_system.specs.Image.{elf};
ghost use Rattle.command_lines.specs.Outcome.{outcome_of_lengths, outcome_of_sweep, outcome_of_swept};
ghost use Rattle.vl_sweep.specs.Sweeps.{sweep_of};
ghost use Rattle.commands.specs.Lines.{ends_sweep};
ghost use Rattle.commands.specs.Programs.{outcome_over, swept_arguments, sweep_line_of};
ghost use Rattle.commands.specs.Meets.{now, MeetsSweep};
ghost use Rattle.commands.specs.Sweeping.{ends_swept, Writes};

use crate::arguments::arguments;
use crate::files::{ending_after_line, file_bytes};
use command_lines::{Ending, word};
use command_model::STREAM_LIMIT;
use elf_image::{Image, read};
use emu_report::{put_image_refusal, put_too_long};
use io_gate::{Images, ReadEnd, Sink, Source, read_all};
use std::alloc::Global;
use vl_sweep::{SweepEnd, sweep};

/// What a line says of the program that it sweeps.
#[derive(Drop)]
pub struct Swept {
    /// The place of the word that names the file.
    pub file: usize,
    /// The place of the first argument behind that word, or the number of words.
    pub args: usize,
    /// The greatest number of steps at each length.
    pub budget: u64,
    /// The greatest number of mapped pages at each length.
    pub pages: u32,
}

impl Swept {
    /// The program that a line names, by its places and values.
    pub fn new(file: usize, args: usize, budget: u64, pages: u32) -> Swept
        ensures { result ≡ record { file = file; args = args; budget = budget; pages = pages } }
    {
        Swept {
            file,
            args,
            budget,
            pages,
        }
    }
}

/// Runs an image at each length over the input, which was read.
fn sweep_input<O: Sink, E: Sink>(
    alloc: Global,
    bytes: &[u8],
    image: &Image,
    words: &[String],
    program: &Swept,
    input: &[u8],
    output: &mut O,
    errors: &mut E,
) -> Ending
    requires loadable { IsLoadable bytes.now program.now.pages (seen_image image.now) }
    requires file { program.now.file < program.now.args }
    requires args { program.now.args ≤ length words.now }
    requires arguments { AreArguments (swept_arguments (map string_bytes words.now) program.now) }
    ensures outcome { Writes (outcome_of_sweep (sweep_of bytes.now (seen_image image.now)
        (swept_arguments (map string_bytes words.now) program.now) program.now.pages program.now.budget input.now))
        result (O.held output.old) (O.held output.new) (E.held errors.old) (E.held errors.new) }
    ensures write_cause { Causes (result ≡ Ending.WriteFault) (O.faults output.old) (O.faults output.new) }
    ensures errors_cause { Causes (result ≡ Ending.ErrorsFault) (E.faults errors.old) (E.faults errors.new) }
    ensures kind { ends_swept result ≡ true }
{
    let Ok(args) = arguments(alloc, words, program.file, program.args) else {
        return Ending::OutOfMemory;
    };
    match sweep(
        alloc,
        bytes,
        image,
        &args,
        program.pages,
        program.budget,
        input,
        output,
    ) {
        SweepEnd::Done => Ending::Done,
        SweepEnd::TooLong => ending_after_line(
            put_too_long(STREAM_LIMIT, errors),
            Ending::TooLong(STREAM_LIMIT),
        ),
        SweepEnd::WriteFault => Ending::WriteFault,
        SweepEnd::OutOfMemory => Ending::OutOfMemory,
    }
}

/// Reads the input, and runs an image at each length over it.
fn sweep_image<I: Source, O: Sink, E: Sink>(
    alloc: Global,
    bytes: &[u8],
    image: &Image,
    words: &[String],
    program: &Swept,
    input: &mut I,
    output: &mut O,
    errors: &mut E,
) -> Ending
    requires loadable { IsLoadable bytes.now program.now.pages (seen_image image.now) }
    requires file { program.now.file < program.now.args }
    requires args { program.now.args ≤ length words.now }
    requires arguments { AreArguments (swept_arguments (map string_bytes words.now) program.now) }
    ensures outcome { MeetsSweep
        (λ i. Some (outcome_of_lengths bytes.now (swept_arguments (map string_bytes words.now) program.now)
        i program.now.budget program.now.pages (seen_image image.now)))
        result (now (I.left input.old) (O.held output.old) (E.held errors.old))
        (now (I.left input.new) (O.held output.new) (E.held errors.new)) }
    ensures read_cause { Causes (result ≡ Ending.ReadFault) (I.faults input.old) (I.faults input.new) }
    ensures write_cause { Causes (result ≡ Ending.WriteFault) (O.faults output.old) (O.faults output.new) }
    ensures errors_cause { Causes (result ≡ Ending.ErrorsFault) (E.faults errors.old) (E.faults errors.new) }
    ensures no_file { result ≢ Ending.FileFault }
    ensures read_unwritten { result ≡ Ending.ReadFault → (output.new ≡ output.old) × (errors.new ≡ errors.old) }
    ensures kind { ends_sweep result ≡ true }
{
    match read_all(alloc, input, STREAM_LIMIT as usize) {
        Ok(given) => sweep_input(alloc, bytes, image, words, program, &given, output, errors),
        Err(ReadEnd::TooLong) => ending_after_line(
            put_too_long(STREAM_LIMIT, errors),
            Ending::TooLong(STREAM_LIMIT),
        ),
        Err(ReadEnd::Failed) => Ending::ReadFault,
        Err(ReadEnd::OutOfMemory) => Ending::OutOfMemory,
    }
}

/// Sweeps the program of a file's bytes, or refuses it.
fn sweep_bytes<I: Source, O: Sink, E: Sink>(
    alloc: Global,
    bytes: &[u8],
    words: &[String],
    program: &Swept,
    input: &mut I,
    output: &mut O,
    errors: &mut E,
) -> Ending
    requires file { program.now.file < program.now.args }
    requires args { program.now.args ≤ length words.now }
    requires arguments { AreArguments (swept_arguments (map string_bytes words.now) program.now) }
    ensures outcome { MeetsSweep
        (λ i. Some (outcome_of_swept bytes.now (swept_arguments (map string_bytes words.now) program.now)
        i program.now.budget program.now.pages (elf bytes.now program.now.pages)))
        result (now (I.left input.old) (O.held output.old) (E.held errors.old))
        (now (I.left input.new) (O.held output.new) (E.held errors.new)) }
    ensures read_cause { Causes (result ≡ Ending.ReadFault) (I.faults input.old) (I.faults input.new) }
    ensures write_cause { Causes (result ≡ Ending.WriteFault) (O.faults output.old) (O.faults output.new) }
    ensures errors_cause { Causes (result ≡ Ending.ErrorsFault) (E.faults errors.old) (E.faults errors.new) }
    ensures no_file { result ≢ Ending.FileFault }
    ensures read_unwritten { result ≡ Ending.ReadFault → (output.new ≡ output.old) × (errors.new ≡ errors.old) }
    ensures kind { ends_sweep result ≡ true }
{
    match read(bytes, program.pages) {
        Err(fault) => ending_after_line(
            put_image_refusal(&fault, errors),
            Ending::ImageRefused(fault),
        ),
        Ok(image) => sweep_image(alloc, bytes, &image, words, program, input, output, errors),
    }
}

/// Reads the file of a program, then the input to its end, and runs the program at each vector length over the whole of
/// it: `program` says where among `words` its name and its arguments stand, its budget of steps and its limit of pages.
/// Done where a line on each length was put; or FileFault where reading failed or no file has the name, TooLong over
/// 67,108,864 bytes, ImageRefused, TooLong where the input, or behind the lines of the lengths before it the output or
/// the errors of a run, have more than 16,777,216 bytes, each refusal behind its line on the errors, a fault of a
/// stream, or OutOfMemory.
pub fn sweep_file<F: Images, I: Source, O: Sink, E: Sink>(
    alloc: Global,
    words: &[String],
    program: &Swept,
    files: &mut F,
    input: &mut I,
    output: &mut O,
    errors: &mut E,
) -> Ending
    requires file { program.now.file < program.now.args }
    requires args { program.now.args ≤ length words.now }
    requires arguments { AreArguments (swept_arguments (map string_bytes words.now) program.now) }
    ensures outcome { IfSome (F.named files.old)
        (λ named. MeetsSweep (outcome_over (map string_bytes words.now) (sweep_line_of program.now) named) result
        (now (I.left input.old) (O.held output.old) (E.held errors.old))
        (now (I.left input.new) (O.held output.new) (E.held errors.new))) }
    ensures file_cause { result ≡ Ending.FileFault → Rose (F.faults files.old) (F.faults files.new)
        ⊎ MissesNamed (F.named files.old) (get_or (map string_bytes words.now) program.now.file []) }
    ensures file_kept { result ≢ Ending.FileFault → F.faults files.new ≡ F.faults files.old }
    ensures missing { MissesNamed (F.named files.old) (get_or (map string_bytes words.now) program.now.file [])
        → result ≡ Ending.FileFault }
    ensures file_first { result ≡ Ending.FileFault
        → (input.new ≡ input.old) × (output.new ≡ output.old) × (errors.new ≡ errors.old) }
    ensures files_later { F.faults files.old ≤ F.faults files.new }
    ensures read_cause { Causes (result ≡ Ending.ReadFault) (I.faults input.old) (I.faults input.new) }
    ensures write_cause { Causes (result ≡ Ending.WriteFault) (O.faults output.old) (O.faults output.new) }
    ensures errors_cause { Causes (result ≡ Ending.ErrorsFault) (E.faults errors.old) (E.faults errors.new) }
    ensures read_unwritten { result ≡ Ending.ReadFault → (output.new ≡ output.old) × (errors.new ≡ errors.old) }
    ensures kind { ends_sweep result ≡ true }
{
    match file_bytes(alloc, word(words, program.file), files, errors) {
        Ok(bytes) => sweep_bytes(alloc, &bytes, words, program, input, output, errors),
        Err(ending) => ending,
    }
}
