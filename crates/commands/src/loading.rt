//! The command `load`: from a number to a line on the run of its load program at each vector length.
ghost use Rattle.std.specs.Prelude.{◌≡◌, ◌≢◌, ℕ, List, Option, Some, true};
ghost use Rattle.io_gate.specs.Streams.{Causes};
ghost use Rattle.asm_image.specs.Assembly.{IsMade};
ghost use Rattle.emu_system.specs.Image.{elf};
ghost use Rattle.asm_text.specs.Statements.{statements};
ghost use Rattle.listing_model.specs.Image.{image_of};
ghost use Rattle.command_model.specs.Load.{load_pages};
ghost use Rattle.command_model.specs.Listing.{listing};
ghost use Rattle.command_lines.specs.Outcome.{outcome_of_load, outcome_of_loaded};
ghost use Rattle.commands.specs.Lines.{ends_load};
ghost use Rattle.commands.specs.Promises.{is_silent};
ghost use Rattle.commands.specs.Meets.{now, Meets};

use crate::files::{ending_after_line, ending_after_output};
use asm_image::{AsmError, assemble};
use command_lines::Ending;
use command_model::{LOAD_PAGES, load_listing};
use elf_image::read;
use emu_report::{put_image_refusal, put_listing_refusal};
use io_gate::{Sink, put_all};
use std::alloc::Global;
use vl_sweep::load_lines;

/// The executable of the load program that a number makes. Err is the listing's first refusal, or want of memory.
fn load_file(alloc: Global, number: u64) -> Result<Vec<u8>, AsmError>
    ensures { IsMade result (image_of statements (listing number)) }
{
    let Ok(text) = load_listing(alloc, number) else {
        return Err(AsmError::OutOfMemory);
    };
    assemble(alloc, text.as_str())
}

/// Puts the lines of the runs of an executable, or refuses it.
fn load_bytes<O: Sink, E: Sink>(
    alloc: Global,
    bytes: &[u8],
    output: &mut O,
    errors: &mut E,
) -> Ending
    ensures outcome { (input : Option (List ℕ))
        → Meets (λ _. Some (outcome_of_loaded bytes.now (elf bytes.now load_pages))) result
        (now input (O.held output.old) (E.held errors.old)) (now input (O.held output.new) (E.held errors.new)) }
    ensures write_cause { Causes (result ≡ Ending.WriteFault) (O.faults output.old) (O.faults output.new) }
    ensures errors_cause { Causes (result ≡ Ending.ErrorsFault) (E.faults errors.old) (E.faults errors.new) }
    ensures no_file { result ≢ Ending.FileFault }
    ensures no_read { result ≢ Ending.ReadFault }
    ensures memory_first { result ≡ Ending.OutOfMemory → (output.new ≡ output.old) × (errors.new ≡ errors.old) }
    ensures no_errors { is_silent result ≡ true → errors.new ≡ errors.old }
    ensures kind { ends_load result ≡ true }
{
    match read(bytes, LOAD_PAGES) {
        Err(fault) => ending_after_line(
            put_image_refusal(&fault, errors),
            Ending::ImageRefused(fault),
        ),
        Ok(image) => match load_lines(alloc, bytes, &image) {
            Err(_) => Ending::OutOfMemory,
            Ok(lines) => ending_after_output(put_all(output, lines.kept())),
        },
    }
}

/// Makes the load program of a number, runs it at each vector length, and puts a line on each run. Done where all of it
/// was put; ListingRefused and ImageRefused, each behind its line on the errors, a fault of a stream, or OutOfMemory
/// before anything is written.
pub fn load_number<O: Sink, E: Sink>(
    alloc: Global,
    number: u64,
    output: &mut O,
    errors: &mut E,
) -> Ending
    ensures outcome { (input : Option (List ℕ))
        → Meets (λ _. Some (outcome_of_load (image_of statements (listing number)))) result
        (now input (O.held output.old) (E.held errors.old)) (now input (O.held output.new) (E.held errors.new)) }
    ensures write_cause { Causes (result ≡ Ending.WriteFault) (O.faults output.old) (O.faults output.new) }
    ensures errors_cause { Causes (result ≡ Ending.ErrorsFault) (E.faults errors.old) (E.faults errors.new) }
    ensures no_file { result ≢ Ending.FileFault }
    ensures no_read { result ≢ Ending.ReadFault }
    ensures memory_first { result ≡ Ending.OutOfMemory → (output.new ≡ output.old) × (errors.new ≡ errors.old) }
    ensures no_errors { is_silent result ≡ true → errors.new ≡ errors.old }
    ensures kind { ends_load result ≡ true }
{
    match load_file(alloc, number) {
        Ok(file) => load_bytes(alloc, &file, output, errors),
        Err(AsmError::Refused(fault)) => ending_after_line(
            put_listing_refusal(&fault, errors),
            Ending::ListingRefused(fault),
        ),
        Err(AsmError::OutOfMemory) => Ending::OutOfMemory,
    }
}
