//! The command `asm`: from the file of a listing to the executable that it makes.
ghost use Rattle.std.specs.Prelude.{
  ◌≡◌,
  ◌≢◌,
  ◌<◌,
  ◌≤◌,
  ◌⊎◌,
  ℕ,
  [],
  map,
  length,
  string_bytes,
  get_or,
  IfSome,
  List,
  Option,
  Some,
  false,
  true,
};
ghost use Rattle.io_gate.specs.Images.{MissesNamed};
ghost use Rattle.io_gate.specs.Streams.{Rose, Causes};
ghost use Rattle.asm_image.specs.Assembly.{IsMade};
ghost use Rattle.asm_text.specs.Statements.{statements};
ghost use Rattle.listing_model.specs.Image.{image_of_bytes};
ghost use Rattle.command_lines.specs.Outcome.{file_limit, outcome_of_listing};
ghost use Rattle.commands.specs.Lines.{ends_asm};
ghost use Rattle.commands.specs.Programs.{outcome_over};
ghost use Rattle.commands.specs.Promises.{is_silent};
ghost use Rattle.commands.specs.Meets.{now, Meets};

use crate::files::{ending_after_line, ending_after_output, file_bytes};
use crate::texts::line_of_place;
use asm_image::{AsmError, assemble};
use command_lines::{Ending, word};
use command_model::Line;
use emu_report::put_listing_refusal;
use io_gate::{Images, Sink, put_all};
use listing_model::{ListingFault, ListingWhy};
use std::alloc::Global;
use std::str;

/// The executable that the bytes of a listing make. Err is the listing's first refusal, or want of memory.
fn made(alloc: Global, bytes: &[u8]) -> Result<Vec<u8>, AsmError>
    requires { length bytes.now ≤ file_limit }
    ensures { IsMade result (image_of_bytes statements bytes.now) }
{
    match str::from_utf8(bytes) {
        Ok(text) => assemble(alloc, text),
        Err(error) => Err(AsmError::Refused(ListingFault {
            line: line_of_place(bytes, error.valid_up_to()),
            why: ListingWhy::NotUtf8,
        })),
    }
}

/// Puts the executable that the bytes of a listing make, or refuses the listing.
fn assemble_bytes<O: Sink, E: Sink>(
    alloc: Global,
    bytes: &[u8],
    output: &mut O,
    errors: &mut E,
) -> Ending
    requires { length bytes.now ≤ file_limit }
    ensures outcome { (input : Option (List ℕ))
        → Meets (λ _. Some (outcome_of_listing (image_of_bytes statements bytes.now))) result
        (now input (O.held output.old) (E.held errors.old)) (now input (O.held output.new) (E.held errors.new)) }
    ensures write_cause { Causes (result ≡ Ending.WriteFault) (O.faults output.old) (O.faults output.new) }
    ensures errors_cause { Causes (result ≡ Ending.ErrorsFault) (E.faults errors.old) (E.faults errors.new) }
    ensures no_file { result ≢ Ending.FileFault }
    ensures no_read { result ≢ Ending.ReadFault }
    ensures memory_first { result ≡ Ending.OutOfMemory → (output.new ≡ output.old) × (errors.new ≡ errors.old) }
    ensures no_errors { is_silent result ≡ true → errors.new ≡ errors.old }
    ensures kind { ends_asm result ≡ true }
{
    match made(alloc, bytes) {
        Ok(file) => ending_after_output(put_all(output, &file)),
        Err(AsmError::Refused(fault)) => ending_after_line(
            put_listing_refusal(&fault, errors),
            Ending::ListingRefused(fault),
        ),
        Err(AsmError::OutOfMemory) => Ending::OutOfMemory,
    }
}

/// Reads the file of a listing, whose name is the word at `listing`, and puts the executable that it makes. Done where
/// all of it was put; FileFault where reading failed or no file has the name, TooLong over 67,108,864 bytes and
/// ListingRefused, each behind its line on the errors, a fault of a stream, or OutOfMemory before anything is written.
pub fn assemble_file<F: Images, O: Sink, E: Sink>(
    alloc: Global,
    words: &[String],
    listing: usize,
    files: &mut F,
    output: &mut O,
    errors: &mut E,
) -> Ending
    requires { listing < length words.now }
    ensures outcome { (input : Option (List ℕ)) → IfSome (F.named files.old)
        (λ named. Meets (outcome_over (map string_bytes words.now) (Line.Asm listing) named) result
        (now input (O.held output.old) (E.held errors.old)) (now input (O.held output.new) (E.held errors.new))) }
    ensures file_cause { result ≡ Ending.FileFault → Rose (F.faults files.old) (F.faults files.new)
        ⊎ MissesNamed (F.named files.old) (get_or (map string_bytes words.now) listing []) }
    ensures file_kept { result ≢ Ending.FileFault → F.faults files.new ≡ F.faults files.old }
    ensures missing { MissesNamed (F.named files.old) (get_or (map string_bytes words.now) listing [])
        → result ≡ Ending.FileFault }
    ensures file_first { result ≡ Ending.FileFault → (output.new ≡ output.old) × (errors.new ≡ errors.old) }
    ensures files_later { F.faults files.old ≤ F.faults files.new }
    ensures memory_first { result ≡ Ending.OutOfMemory → (output.new ≡ output.old) × (errors.new ≡ errors.old) }
    ensures no_read { result ≢ Ending.ReadFault }
    ensures write_cause { Causes (result ≡ Ending.WriteFault) (O.faults output.old) (O.faults output.new) }
    ensures errors_cause { Causes (result ≡ Ending.ErrorsFault) (E.faults errors.old) (E.faults errors.new) }
    ensures no_errors { is_silent result ≡ true → errors.new ≡ errors.old }
    ensures kind { ends_asm result ≡ true }
{
    match file_bytes(alloc, word(words, listing), files, errors) {
        Ok(bytes) => assemble_bytes(alloc, &bytes, output, errors),
        Err(ending) => ending,
    }
}
