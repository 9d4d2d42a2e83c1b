//! The run of an image, alone or under a schedule, from the files that a line names.
ghost use Rattle.std.specs.Prelude.{
  ◌≡◌,
  ◌≢◌,
  ◌<◌,
  ◌≤◌,
  ◌⊎◌,
  [],
  map,
  length,
  string_bytes,
  IfSome,
  Some,
  Ok,
  false,
};
ghost use Rattle.io_gate.specs.Streams.{Rose};
ghost use Rattle.emu_system.specs.ArgumentLimits.{AreArguments};
ghost use Rattle.emu_system.specs.Image.{elf};
ghost use Rattle.emu_machine.specs.Machines.{has_ended};
ghost use Rattle.command_lines.specs.Outcome.{file_limit};
ghost use Rattle.commands.specs.Programs.{arguments_of, outcome_over};
ghost use Rattle.commands.specs.Promises.{NamesNoFile};
ghost use Rattle.commands.specs.Meets.{now, Meets};
ghost use Rattle.tool_run.specs.Caused.{faults, IsCaused};
ghost use Rattle.tool_run.specs.Seconds.{
  of_image,
  of_second,
  program_line,
  IsSecond,
  MissesSecond,
  StopsBytes,
  StopsTexts,
};
ghost use Rattle.tool_run.specs.Still.{WithoutReport};
ghost use Rattle.tool_run.specs.Stops.{HasStopped, IsTold, StopsFrom, StopsLine};
ghost use Rattle.tool_run.specs.Tells.{IsSilentExit};
ghost use Rattle.tool_run.specs.Unreported.{unreported_from, unreported_over};

use crate::ends::{Told, silent, with_text};
use crate::files::{unread, whole_bytes};
use crate::refusals::image_text;
use crate::run::run_machine;
use crate::world::run_schedule;
use command_lines::{Ending, word};
use commands::{Program, open_machine};
use elf_image::read;
use emu_machine::Machine;
use emu_system::Segment;
use io_gate::{Images, Sink, Source};
use std::alloc::Global;

/// Runs a machine alone, or its threads under the schedule of a text, whose name is the word at the second file's
/// place.
fn run_opened<I: Source, O: Sink, E: Sink, R: Sink>(
    alloc: Global,
    bytes: &[u8],
    segments: &[Segment],
    machine: Machine,
    words: &[String],
    second: Option<usize>,
    text: &[u8],
    budget: u64,
    wanted: bool,
    input: &mut I,
    output: &mut O,
    errors: &mut E,
    registers: &mut R,
) -> Told
    requires text { length text.now ≤ file_limit }
    requires second { IsSecond second (length words.now) }
    requires going { has_ended machine ≡ false }
    requires within { machine.parts.steps ≤ budget }
    ensures outcome { Meets (λ i. Some (unreported_from second text.now i budget machine.parts)) result.ending
        (now (I.left input.old) (O.held output.old) (E.held errors.old))
        (now (I.left input.new) (O.held output.new) (E.held errors.new)) }
    ensures exit { IsSilentExit result.ending (string_bytes result.said) }
    ensures stopped { IfSome (I.left input.old) (λ i. HasStopped result.ending
        → StopsFrom (IsTold (string_bytes result.said) wanted result.report_failed (R.held registers.old)
        (R.held registers.new)) second text.now bytes.now segments.now budget machine.parts i) }
    ensures caused { IsCaused result.ending result.report_failed
        (faults (I.faults input.old) (O.faults output.old) (E.faults errors.old) (R.faults registers.old))
        (faults (I.faults input.new) (O.faults output.new) (E.faults errors.new) (R.faults registers.new)) }
    ensures no_file { result.ending ≢ Ending.FileFault }
    ensures kept { WithoutReport wanted result.ending (registers.new ≡ registers.old) }
{
    let mut machine = machine;
    match second {
        None => run_machine(
            alloc,
            bytes,
            segments,
            &mut machine,
            budget,
            wanted,
            input,
            output,
            errors,
            registers,
        ),
        Some(place) => run_schedule(
            alloc,
            bytes,
            segments,
            machine,
            word(words, place),
            text,
            budget,
            wanted,
            input,
            output,
            errors,
            registers,
        ),
    }
}

/// Runs the program of a file's bytes, alone or under the schedule of a text, or refuses it.
fn run_image<I: Source, O: Sink, E: Sink, R: Sink>(
    alloc: Global,
    bytes: &[u8],
    text: &[u8],
    words: &[String],
    program: &Program,
    second: Option<usize>,
    wanted: bool,
    input: &mut I,
    output: &mut O,
    errors: &mut E,
    registers: &mut R,
) -> Told
    requires text { length text.now ≤ file_limit }
    requires file { program.now.file < program.now.args }
    requires second { IsSecond second program.now.args }
    requires args { program.now.args ≤ length words.now }
    requires arguments { AreArguments (arguments_of (map string_bytes words.now) program.now) }
    ensures outcome { Meets (of_image second text.now bytes.now (map string_bytes words.now) program.now
        (elf bytes.now program.now.pages)) result.ending
        (now (I.left input.old) (O.held output.old) (E.held errors.old))
        (now (I.left input.new) (O.held output.new) (E.held errors.new)) }
    ensures exit { IsSilentExit result.ending (string_bytes result.said) }
    ensures stopped { IfSome (I.left input.old) (λ i. HasStopped result.ending
        → StopsBytes (IsTold (string_bytes result.said) wanted result.report_failed (R.held registers.old)
        (R.held registers.new)) second text.now bytes.now (map string_bytes words.now) program.now i
        (elf bytes.now program.now.pages)) }
    ensures caused { IsCaused result.ending result.report_failed
        (faults (I.faults input.old) (O.faults output.old) (E.faults errors.old) (R.faults registers.old))
        (faults (I.faults input.new) (O.faults output.new) (E.faults errors.new) (R.faults registers.new)) }
    ensures no_file { result.ending ≢ Ending.FileFault }
    ensures kept { WithoutReport wanted result.ending (registers.new ≡ registers.old) }
{
    match read(bytes, program.pages) {
        Err(fault) => with_text(
            alloc,
            Ending::ImageRefused(fault),
            image_text(alloc, word(words, program.file), bytes, fault),
        ),
        Ok(image) => match open_machine(alloc, bytes, &image, words, program) {
            Err(_) => silent(alloc, Ending::OutOfMemory),
            Ok(machine) => run_opened(
                alloc,
                bytes,
                &image.segments,
                machine,
                words,
                second,
                text,
                program.budget,
                wanted,
                input,
                output,
                errors,
                registers,
            ),
        },
    }
}

/// Reads the second file, where there is one, and runs the program of a file's bytes.
fn run_second<F: Images, I: Source, O: Sink, E: Sink, R: Sink>(
    alloc: Global,
    bytes: &[u8],
    words: &[String],
    program: &Program,
    second: Option<usize>,
    wanted: bool,
    files: &mut F,
    input: &mut I,
    output: &mut O,
    errors: &mut E,
    registers: &mut R,
) -> Told
    requires file { program.now.file < program.now.args }
    requires second { IsSecond second program.now.args }
    requires args { program.now.args ≤ length words.now }
    requires arguments { AreArguments (arguments_of (map string_bytes words.now) program.now) }
    ensures outcome { IfSome (F.named files.old) (λ named. Meets
        (of_second second bytes.now (map string_bytes words.now) program.now named) result.ending
        (now (I.left input.old) (O.held output.old) (E.held errors.old))
        (now (I.left input.new) (O.held output.new) (E.held errors.new))) }
    ensures exit { IsSilentExit result.ending (string_bytes result.said) }
    ensures stopped { IfSome (F.named files.old) (λ named. IfSome (I.left input.old) (λ i. HasStopped result.ending
        → StopsTexts (IsTold (string_bytes result.said) wanted result.report_failed (R.held registers.old)
        (R.held registers.new)) second bytes.now (map string_bytes words.now) program.now named i)) }
    ensures caused { IsCaused result.ending result.report_failed
        (faults (I.faults input.old) (O.faults output.old) (E.faults errors.old) (R.faults registers.old))
        (faults (I.faults input.new) (O.faults output.new) (E.faults errors.new) (R.faults registers.new)) }
    ensures file_cause { result.ending ≡ Ending.FileFault → Rose (F.faults files.old) (F.faults files.new)
        ⊎ MissesSecond (F.named files.old) (map string_bytes words.now) second }
    ensures files_later { F.faults files.old ≤ F.faults files.new }
    ensures kept { WithoutReport wanted result.ending (registers.new ≡ registers.old) }
{
    match second {
        None => run_image(
            alloc,
            bytes,
            &[],
            words,
            program,
            None,
            wanted,
            input,
            output,
            errors,
            registers,
        ),
        Some(place) => {
            let name = word(words, place);
            match whole_bytes(alloc, name, files) {
                Ok(text) => run_image(
                    alloc, bytes, &text, words, program, second, wanted, input, output, errors,
                    registers,
                ),
                Err(ending) => unread(alloc, name, ending),
            }
        }
    }
}

/// Reads the file of a program, and the second file where there is one, whose name is the word at `second`, and runs
/// the program: `program` says where among `words` its name and its arguments stand, its vector length, its budget of
/// steps and its limit of pages. Without a second file it runs alone, else its threads run under the schedule in it.
pub fn run_files<F: Images, I: Source, O: Sink, E: Sink, R: Sink>(
    alloc: Global,
    words: &[String],
    program: &Program,
    second: Option<usize>,
    wanted: bool,
    files: &mut F,
    input: &mut I,
    output: &mut O,
    errors: &mut E,
    registers: &mut R,
) -> Told
    requires file { program.now.file < program.now.args }
    requires second { IsSecond second program.now.args }
    requires args { program.now.args ≤ length words.now }
    requires arguments { AreArguments (arguments_of (map string_bytes words.now) program.now) }
    ensures outcome { IfSome (F.named files.old) (λ named. Meets
        (unreported_over (map string_bytes words.now) (program_line program.now second) named) result.ending
        (now (I.left input.old) (O.held output.old) (E.held errors.old))
        (now (I.left input.new) (O.held output.new) (E.held errors.new))) }
    ensures exit { IsSilentExit result.ending (string_bytes result.said) }
    ensures stopped { IfSome (F.named files.old) (λ named. IfSome (I.left input.old) (λ i. HasStopped result.ending
        → StopsLine (IsTold (string_bytes result.said) wanted result.report_failed (R.held registers.old)
        (R.held registers.new)) (map string_bytes words.now) named i (Ok (program_line program.now second)))) }
    ensures caused { IsCaused result.ending result.report_failed
        (faults (I.faults input.old) (O.faults output.old) (E.faults errors.old) (R.faults registers.old))
        (faults (I.faults input.new) (O.faults output.new) (E.faults errors.new) (R.faults registers.new)) }
    ensures file_cause { result.ending ≡ Ending.FileFault → Rose (F.faults files.old) (F.faults files.new)
        ⊎ NamesNoFile (outcome_over (map string_bytes words.now) (program_line program.now second))
        (F.named files.old) }
    ensures kept { WithoutReport wanted result.ending (registers.new ≡ registers.old) }
{
    let name = word(words, program.file);
    match whole_bytes(alloc, name, files) {
        Ok(bytes) => run_second(
            alloc, &bytes, words, program, second, wanted, files, input, output, errors, registers,
        ),
        Err(ending) => unread(alloc, name, ending),
    }
}
