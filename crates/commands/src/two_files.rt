//! Lines of two files: that of a program, and that of what is obeyed over it.
ghost use Rattle.std.specs.Prelude.{
  ◌≡◌,
  ◌≢◌,
  ◌<◌,
  ◌≤◌,
  ◌⊎◌,
  [],
  map,
  length,
  string_bytes,
  get_or,
  IfSome,
  Some,
  false,
  true,
};
ghost use Rattle.emu_model.specs.Access.{most_mapped_pages};
ghost use Rattle.io_gate.specs.Images.{MissesNamed};
ghost use Rattle.io_gate.specs.Streams.{Rose, Causes};
ghost use Rattle.elf_image.specs.Images.{seen_image};
ghost use Rattle.elf_image.specs.Loadable.{IsLoadable};
ghost use Rattle.emu_system.specs.ArgumentLimits.{AreArguments};
ghost use Rattle.emu_system.specs.Image.{elf};
ghost use Rattle.command_lines.specs.Outcome.{file_at, file_limit};
ghost use Rattle.commands.specs.Programs.{arguments_of, opening_of};
ghost use Rattle.commands.specs.Promises.{settles_by, NamesNoFile};
ghost use Rattle.commands.specs.Meets.{now, MeetsBy};
ghost use Rattle.commands.specs.SecondFiles.{
  ends_by,
  file_reads_first,
  outcome_by,
  outcome_from,
  outcome_of_both,
  outcome_with,
  text_reads_first,
  TakesBefore,
  TakesLater,
};
ghost use Rattle.commands.specs.Passing.{InBoth, InImage, InNamed, InSecond};
ghost use Rattle.commands.specs.Whole.{HasAllPut};

use crate::debugger::debug_image;
use crate::files::{ending_after_line, file_bytes};
use crate::program::Program;
use crate::threads::thread_image;
use command_lines::{Ending, word};
use elf_image::{Image, read};
use emu_report::put_image_refusal;
use io_gate::{Images, Sink, Source};
use std::alloc::Global;

/// What the second file of a line is.
#[derive(Clone, Copy)]
pub enum SecondFile {
    /// The script of a debugger session.
    Script,
    /// The schedule of a program's contexts.
    Schedule,
}

/// Obeys the bytes of the second file over an image, or refuses them.
fn obey_text<I: Source, O: Sink, E: Sink>(
    alloc: Global,
    bytes: &[u8],
    text: &[u8],
    second: SecondFile,
    image: &Image,
    words: &[String],
    program: &Program,
    input: &mut I,
    output: &mut O,
    errors: &mut E,
) -> Ending
    requires text { length text.now ≤ file_limit }
    requires loadable { IsLoadable bytes.now program.now.pages (seen_image image.now) }
    requires file { program.now.file < program.now.args }
    requires args { program.now.args ≤ length words.now }
    requires arguments { AreArguments (arguments_of (map string_bytes words.now) program.now) }
    requires pages { program.now.pages ≤ most_mapped_pages }
    ensures outcome { MeetsBy (settles_by (text_reads_first second text.now)) (λ i. Some (outcome_from second text.now
        i program.now.budget (opening_of bytes.now (seen_image image.now) (map string_bytes words.now) program.now)))
        result (now (I.left input.old) (O.held output.old) (E.held errors.old))
        (now (I.left input.new) (O.held output.new) (E.held errors.new)) }
    ensures read_cause { Causes (result ≡ Ending.ReadFault) (I.faults input.old) (I.faults input.new) }
    ensures write_cause { Causes (result ≡ Ending.WriteFault) (O.faults output.old) (O.faults output.new) }
    ensures errors_cause { Causes (result ≡ Ending.ErrorsFault) (E.faults errors.old) (E.faults errors.new) }
    ensures no_file { result ≢ Ending.FileFault }
    ensures memory_first { text_reads_first second text.now ≡ false → result ≡ Ending.OutOfMemory
        → input.new ≡ input.old }
    ensures memory_unwritten { result ≡ Ending.OutOfMemory → (output.new ≡ output.old) × (errors.new ≡ errors.old) }
    ensures read_unwritten { text_reads_first second text.now ≡ true → result ≡ Ending.ReadFault
        → (output.new ≡ output.old) × (errors.new ≡ errors.old) }
    ensures kind { ends_by second result ≡ true }
    ensures whole { text_reads_first second text.now ≡ false → HasAllPut (InSecond second text.now
        (opening_of bytes.now (seen_image image.now) (map string_bytes words.now) program.now) program.now.budget
        result (I.left input.new))
        (λ i. Some (outcome_from second text.now i program.now.budget
        (opening_of bytes.now (seen_image image.now) (map string_bytes words.now) program.now)))
        result (I.left input.old)
        (O.held output.old) (O.held output.new) (E.held errors.old) (E.held errors.new) }
{
    match second {
        SecondFile::Script => debug_image(
            alloc, bytes, text, image, words, program, input, output, errors,
        ),
        SecondFile::Schedule => thread_image(
            alloc, bytes, text, image, words, program, input, output, errors,
        ),
    }
}

/// Obeys the bytes of the second file over the program of a file's bytes, or refuses one of them.
fn obey_bytes<I: Source, O: Sink, E: Sink>(
    alloc: Global,
    bytes: &[u8],
    text: &[u8],
    second: SecondFile,
    words: &[String],
    program: &Program,
    input: &mut I,
    output: &mut O,
    errors: &mut E,
) -> Ending
    requires text { length text.now ≤ file_limit }
    requires file { program.now.file < program.now.args }
    requires args { program.now.args ≤ length words.now }
    requires arguments { AreArguments (arguments_of (map string_bytes words.now) program.now) }
    requires pages { program.now.pages ≤ most_mapped_pages }
    ensures outcome { MeetsBy (settles_by (text_reads_first second text.now))
        (λ i. Some (outcome_by second bytes.now text.now
        (arguments_of (map string_bytes words.now) program.now) i program.now (elf bytes.now program.now.pages)))
        result (now (I.left input.old) (O.held output.old) (E.held errors.old))
        (now (I.left input.new) (O.held output.new) (E.held errors.new)) }
    ensures read_cause { Causes (result ≡ Ending.ReadFault) (I.faults input.old) (I.faults input.new) }
    ensures write_cause { Causes (result ≡ Ending.WriteFault) (O.faults output.old) (O.faults output.new) }
    ensures errors_cause { Causes (result ≡ Ending.ErrorsFault) (E.faults errors.old) (E.faults errors.new) }
    ensures no_file { result ≢ Ending.FileFault }
    ensures memory_first { text_reads_first second text.now ≡ false → result ≡ Ending.OutOfMemory
        → input.new ≡ input.old }
    ensures memory_unwritten { result ≡ Ending.OutOfMemory → (output.new ≡ output.old) × (errors.new ≡ errors.old) }
    ensures read_unwritten { text_reads_first second text.now ≡ true → result ≡ Ending.ReadFault
        → (output.new ≡ output.old) × (errors.new ≡ errors.old) }
    ensures kind { ends_by second result ≡ true }
    ensures whole { text_reads_first second text.now ≡ false → HasAllPut
        (InImage second bytes.now (map string_bytes words.now) program.now text.now result (I.left input.new))
        (λ i. Some (outcome_by second bytes.now text.now
        (arguments_of (map string_bytes words.now) program.now) i program.now (elf bytes.now program.now.pages)))
        result (I.left input.old)
        (O.held output.old) (O.held output.new) (E.held errors.old) (E.held errors.new) }
{
    match read(bytes, program.pages) {
        Err(fault) => ending_after_line(
            put_image_refusal(&fault, errors),
            Ending::ImageRefused(fault),
        ),
        Ok(image) => obey_text(
            alloc, bytes, text, second, &image, words, program, input, output, errors,
        ),
    }
}

/// Reads the second file, and obeys it over the program of a file's bytes.
fn obey_second<F: Images, I: Source, O: Sink, E: Sink>(
    alloc: Global,
    bytes: &[u8],
    words: &[String],
    program: &Program,
    second: SecondFile,
    place: usize,
    files: &mut F,
    input: &mut I,
    output: &mut O,
    errors: &mut E,
) -> Ending
    requires file { program.now.file < program.now.args }
    requires place { place < program.now.args }
    requires args { program.now.args ≤ length words.now }
    requires arguments { AreArguments (arguments_of (map string_bytes words.now) program.now) }
    requires pages { program.now.pages ≤ most_mapped_pages }
    ensures outcome { IfSome (F.named files.old)
        (λ named. MeetsBy (settles_by (file_reads_first second (file_at (map string_bytes words.now) named place)))
        (outcome_with second bytes.now (map string_bytes words.now) program.now place named) result
        (now (I.left input.old) (O.held output.old) (E.held errors.old))
        (now (I.left input.new) (O.held output.new) (E.held errors.new))) }
    ensures file_cause { result ≡ Ending.FileFault → Rose (F.faults files.old) (F.faults files.new)
        ⊎ MissesNamed (F.named files.old) (get_or (map string_bytes words.now) place []) }
    ensures file_kept { result ≢ Ending.FileFault → F.faults files.new ≡ F.faults files.old }
    ensures missing { MissesNamed (F.named files.old) (get_or (map string_bytes words.now) place [])
        → result ≡ Ending.FileFault }
    ensures file_first { result ≡ Ending.FileFault
        → (input.new ≡ input.old) × (output.new ≡ output.old) × (errors.new ≡ errors.old) }
    ensures files_later { F.faults files.old ≤ F.faults files.new }
    ensures memory_first { TakesLater second (F.named files.old) (get_or (map string_bytes words.now) place [])
        → result ≡ Ending.OutOfMemory → input.new ≡ input.old }
    ensures memory_unwritten { result ≡ Ending.OutOfMemory → (output.new ≡ output.old) × (errors.new ≡ errors.old) }
    ensures read_cause { Causes (result ≡ Ending.ReadFault) (I.faults input.old) (I.faults input.new) }
    ensures write_cause { Causes (result ≡ Ending.WriteFault) (O.faults output.old) (O.faults output.new) }
    ensures errors_cause { Causes (result ≡ Ending.ErrorsFault) (E.faults errors.old) (E.faults errors.new) }
    ensures read_unwritten { TakesBefore second (F.named files.old) (get_or (map string_bytes words.now) place [])
        → result ≡ Ending.ReadFault → (output.new ≡ output.old) × (errors.new ≡ errors.old) }
    ensures kind { ends_by second result ≡ true }
    ensures whole { IfSome (F.named files.old)
        (λ named. file_reads_first second (file_at (map string_bytes words.now) named place) ≡ false → HasAllPut
        (InNamed second bytes.now (map string_bytes words.now) program.now place named result (I.left input.new))
        (outcome_with second bytes.now (map string_bytes words.now) program.now place named) result (I.left input.old)
        (O.held output.old) (O.held output.new) (E.held errors.old) (E.held errors.new)) }
{
    match file_bytes(alloc, word(words, place), files, errors) {
        Ok(text) => obey_bytes(
            alloc, bytes, &text, second, words, program, input, output, errors,
        ),
        Err(ending) => ending,
    }
}

/// Reads the file of a program, then the second file, whose name is the word at `place`, and obeys it over the program,
/// which `program` says as for `run_file`: a session's script, or the schedule under which the program's contexts run.
/// The ending is Done where a session came to its end, or that of the run; or FileFault where reading failed or no file
/// has one of the names, TooLong over 67,108,864 bytes, ImageRefused, then ScriptRefused or ScheduleRefused, and where
/// a script goes back TooLong where the input has more than 16,777,216 bytes, each refusal behind its line on the
/// errors, a fault of a stream, or OutOfMemory before anything is written, and before anything is taken where no script
/// goes back.
pub fn obey_files<F: Images, I: Source, O: Sink, E: Sink>(
    alloc: Global,
    words: &[String],
    program: &Program,
    second: SecondFile,
    place: usize,
    files: &mut F,
    input: &mut I,
    output: &mut O,
    errors: &mut E,
) -> Ending
    requires file { program.now.file < program.now.args }
    requires place { place < program.now.args }
    requires args { program.now.args ≤ length words.now }
    requires arguments { AreArguments (arguments_of (map string_bytes words.now) program.now) }
    requires pages { program.now.pages ≤ most_mapped_pages }
    ensures outcome { IfSome (F.named files.old)
        (λ named. MeetsBy (settles_by (file_reads_first second (file_at (map string_bytes words.now) named place)))
        (outcome_of_both second (map string_bytes words.now) program.now place named) result
        (now (I.left input.old) (O.held output.old) (E.held errors.old))
        (now (I.left input.new) (O.held output.new) (E.held errors.new))) }
    ensures file_cause { result ≡ Ending.FileFault → Rose (F.faults files.old) (F.faults files.new)
        ⊎ NamesNoFile (outcome_of_both second (map string_bytes words.now) program.now place) (F.named files.old) }
    ensures file_kept { result ≢ Ending.FileFault → F.faults files.new ≡ F.faults files.old }
    ensures missing { NamesNoFile (outcome_of_both second (map string_bytes words.now) program.now place)
        (F.named files.old) → (result ≡ Ending.FileFault) ⊎ (result ≡ Ending.OutOfMemory) }
    ensures missing_first { MissesNamed (F.named files.old) (get_or (map string_bytes words.now) program.now.file [])
        → result ≡ Ending.FileFault }
    ensures file_first { result ≡ Ending.FileFault
        → (input.new ≡ input.old) × (output.new ≡ output.old) × (errors.new ≡ errors.old) }
    ensures files_later { F.faults files.old ≤ F.faults files.new }
    ensures memory_first { TakesLater second (F.named files.old) (get_or (map string_bytes words.now) place [])
        → result ≡ Ending.OutOfMemory → input.new ≡ input.old }
    ensures memory_unwritten { result ≡ Ending.OutOfMemory → (output.new ≡ output.old) × (errors.new ≡ errors.old) }
    ensures read_cause { Causes (result ≡ Ending.ReadFault) (I.faults input.old) (I.faults input.new) }
    ensures write_cause { Causes (result ≡ Ending.WriteFault) (O.faults output.old) (O.faults output.new) }
    ensures errors_cause { Causes (result ≡ Ending.ErrorsFault) (E.faults errors.old) (E.faults errors.new) }
    ensures read_unwritten { TakesBefore second (F.named files.old) (get_or (map string_bytes words.now) place [])
        → result ≡ Ending.ReadFault → (output.new ≡ output.old) × (errors.new ≡ errors.old) }
    ensures kind { ends_by second result ≡ true }
    ensures whole { IfSome (F.named files.old)
        (λ named. file_reads_first second (file_at (map string_bytes words.now) named place) ≡ false → HasAllPut
        (InBoth second (map string_bytes words.now) program.now place named result (I.left input.new))
        (outcome_of_both second (map string_bytes words.now) program.now place named) result (I.left input.old)
        (O.held output.old) (O.held output.new) (E.held errors.old) (E.held errors.new)) }
{
    match file_bytes(alloc, word(words, program.file), files, errors) {
        Ok(bytes) => obey_second(
            alloc, &bytes, words, program, second, place, files, input, output, errors,
        ),
        Err(ending) => ending,
    }
}
