//! The command `dis`: from the file of a program to the text of its instructions.
ghost use Rattle.std.specs.Prelude.{
  ◌≡◌,
  ◌≢◌,
  ◌<◌,
  ◌≤◌,
  ◌⊎◌,
  ℕ,
  [],
  map,
  length,
  string_bytes,
  get_or,
  IfSome,
  List,
  Option,
  Some,
  false,
  true,
};
ghost use Rattle.io_gate.specs.Images.{MissesNamed};
ghost use Rattle.io_gate.specs.Streams.{Rose, Causes};
ghost use Rattle.emu_system.specs.Image.{elf};
ghost use Rattle.command_lines.specs.Outcome.{most_pages, outcome_of_words};
ghost use Rattle.commands.specs.Lines.{ends_dis};
ghost use Rattle.commands.specs.Programs.{outcome_over};
ghost use Rattle.commands.specs.Promises.{is_silent};
ghost use Rattle.commands.specs.Meets.{now, Meets};

use crate::files::{ending_after_line, ending_after_output, file_bytes};
use command_lines::{Ending, word};
use command_model::Line;
use dis_text::put_dis;
use elf_image::read;
use emu_report::put_image_refusal;
use io_gate::{Images, Sink};
use std::alloc::Global;

/// Puts the instructions of the program of a file's bytes, or refuses it.
fn disassemble_bytes<O: Sink, E: Sink>(bytes: &[u8], output: &mut O, errors: &mut E) -> Ending
    ensures outcome { (input : Option (List ℕ))
        → Meets (λ _. Some (outcome_of_words bytes.now (elf bytes.now most_pages))) result
        (now input (O.held output.old) (E.held errors.old)) (now input (O.held output.new) (E.held errors.new)) }
    ensures write_cause { Causes (result ≡ Ending.WriteFault) (O.faults output.old) (O.faults output.new) }
    ensures errors_cause { Causes (result ≡ Ending.ErrorsFault) (E.faults errors.old) (E.faults errors.new) }
    ensures no_file { result ≢ Ending.FileFault }
    ensures no_read { result ≢ Ending.ReadFault }
    ensures no_memory { result ≢ Ending.OutOfMemory }
    ensures no_errors { is_silent result ≡ true → errors.new ≡ errors.old }
    ensures kind { ends_dis result ≡ true }
{
    match read(bytes, u32::MAX) {
        Ok(image) => ending_after_output(put_dis(bytes, &image, output)),
        Err(fault) => ending_after_line(
            put_image_refusal(&fault, errors),
            Ending::ImageRefused(fault),
        ),
    }
}

/// Reads the file of a program, whose name is the word at `file`, and puts the text of its instructions. Done where all
/// of it was put; FileFault where reading failed or no file has the name, TooLong over 67,108,864 bytes and
/// ImageRefused, each behind its line on the errors, a fault of a stream, or OutOfMemory before anything is written.
pub fn disassemble_file<F: Images, O: Sink, E: Sink>(
    alloc: Global,
    words: &[String],
    file: usize,
    files: &mut F,
    output: &mut O,
    errors: &mut E,
) -> Ending
    requires { file < length words.now }
    ensures outcome { (input : Option (List ℕ)) → IfSome (F.named files.old)
        (λ named. Meets (outcome_over (map string_bytes words.now) (Line.Dis file) named) result
        (now input (O.held output.old) (E.held errors.old)) (now input (O.held output.new) (E.held errors.new))) }
    ensures file_cause { result ≡ Ending.FileFault → Rose (F.faults files.old) (F.faults files.new)
        ⊎ MissesNamed (F.named files.old) (get_or (map string_bytes words.now) file []) }
    ensures file_kept { result ≢ Ending.FileFault → F.faults files.new ≡ F.faults files.old }
    ensures missing { MissesNamed (F.named files.old) (get_or (map string_bytes words.now) file [])
        → result ≡ Ending.FileFault }
    ensures file_first { result ≡ Ending.FileFault → (output.new ≡ output.old) × (errors.new ≡ errors.old) }
    ensures files_later { F.faults files.old ≤ F.faults files.new }
    ensures memory_first { result ≡ Ending.OutOfMemory → (output.new ≡ output.old) × (errors.new ≡ errors.old) }
    ensures no_read { result ≢ Ending.ReadFault }
    ensures write_cause { Causes (result ≡ Ending.WriteFault) (O.faults output.old) (O.faults output.new) }
    ensures errors_cause { Causes (result ≡ Ending.ErrorsFault) (E.faults errors.old) (E.faults errors.new) }
    ensures no_errors { is_silent result ≡ true → errors.new ≡ errors.old }
    ensures kind { ends_dis result ≡ true }
{
    match file_bytes(alloc, word(words, file), files, errors) {
        Ok(bytes) => disassemble_bytes(&bytes, output, errors),
        Err(ending) => ending,
    }
}
