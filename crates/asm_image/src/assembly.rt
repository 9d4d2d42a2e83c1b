//! Whole listings.
ghost use Rattle.std.specs.Prelude.{◌≡◌, ◌≤◌, ◌^◌, Ok, length, option_and_then, unwrap_or};
ghost use Rattle.asm_image.specs.Assembly.{ArePartsOf, IsDrafted, IsMade, IsStop, stopped_at};
ghost use Rattle.asm_image.specs.Draft.{IsDraft, IsPlaced};
ghost use Rattle.asm_image.specs.Filling.{AllAimable, AllHaveRoom};
ghost use Rattle.listing_model.specs.File.{code_base};
ghost use Rattle.listing_model.specs.Image.{address_of, file_from, image_of};
ghost use Rattle.listing_model.specs.Layout.{Layout, empty_layout, laid_out, placed_line};
ghost use Rattle.listing_model.specs.LineOf.{line_of};
ghost use Rattle.listing_model.specs.Lines.{lines_of};

use crate::draft::{Draft, Hole, Stop};
use crate::elf_file::elf_file;
use crate::filling::{CODE_BASE, fill, label_address};
use crate::labels::Labels;
use crate::placing::place_line;
use crate::putting::new_draft;
use crate::text_lines::{count_lines, line_end, next_start};
use asm_text::{Instructions, read_line};
use asm_tokens::{AsmFault, Name};
use listing_model::{ListingFault, ListingWhy};
use std::alloc::Global;

/// Why a listing makes no file: it is refused, or memory is wanting.
#[derive(Clone, Copy, Debug, PartialEq, Eq)]
pub enum AsmError {
    Refused(ListingFault),
    OutOfMemory,
}

/// The most lines that a listing may have.
const MOST_LINES: usize = 1_000_000;

/// A fault of a line as what stops its placing.
fn stop_of(fault: AsmFault) -> Stop
    ensures { IsStop fault result }
{
    match fault {
        AsmFault::LongLine => Stop::Refused(ListingWhy::LongLine),
        AsmFault::BadLabel => Stop::Refused(ListingWhy::BadLabel),
        AsmFault::UnknownName => Stop::Refused(ListingWhy::UnknownName),
        AsmFault::BadOperands => Stop::Refused(ListingWhy::BadOperands),
        AsmFault::OutOfRange => Stop::Refused(ListingWhy::OutOfRange),
        AsmFault::OutOfMemory => Stop::OutOfMemory,
    }
}

/// What stops the placing of a line, as the error of the listing.
fn error_of(line: u32, stop: Stop) -> AsmError
    ensures { result ≡ stopped_at line stop }
{
    match stop {
        Stop::Refused(why) => AsmError::Refused(ListingFault { line, why }),
        Stop::OutOfMemory => AsmError::OutOfMemory,
    }
}

/// Reads a line and places it behind those before.
fn lay_line<T: Instructions>(
    alloc: Global,
    draft: &mut Draft<T::Insn>,
    number: u32,
    text: &str,
) -> Result<(), Stop>
    ensures { (l : Layout T.Insn) → IsDraft T.has_target draft.old l
        → IsPlaced T.has_target result draft.new (placed_line T.statements number l (line_of T.statements text.now)) }
{
    match read_line::<T>(alloc, text) {
        Err(fault) => Err(stop_of(fault)),
        Ok(line) => place_line::<T>(alloc, draft, number, line),
    }
}

/// Lays out all lines of a text.
fn lay_lines<T: Instructions>(alloc: Global, text: &str) -> Result<Draft<T::Insn>, AsmError>
    requires { length (lines_of text.now) ≤ 1_000_000 }
    ensures { IsDrafted T.has_target result (laid_out T.statements 1 (Ok empty_layout) (lines_of text.now)) }
{
    let mut draft = new_draft(alloc);
    let mut at = 0;
    let mut number = 1u32;
    while at < text.len() {
        let end = line_end(text, at);
        match lay_line::<T>(alloc, &mut draft, number, &text[at..end]) {
            Ok(()) => (),
            Err(stop) => return Err(error_of(number, stop)),
        }
        number += 1;
        at = next_start(text, end);
    }
    Ok(draft)
}

/// The address of the entry, or of the first instruction where none is named.
fn entry_address(code_size: u64, labels: &Labels, entry: &Option<Name>) -> u64
    requires { code_size ≤ 2 ^ 24 }
    ensures { result ≡ unwrap_or (option_and_then (address_of code_size labels.now) entry.now) code_base }
{
    match entry {
        None => CODE_BASE,
        Some(name) => label_address(code_size, labels, name.text.as_str()).unwrap_or(CODE_BASE),
    }
}

/// Fills the holes of the sections, and makes the file of them.
fn build<T: Instructions>(
    alloc: Global,
    code: &mut [u8],
    values: &mut [u8],
    labels: &Labels,
    entry: &Option<Name>,
    holes: &[Hole<T::Insn>],
    bss: u64,
) -> Result<Vec<u8>, AsmError>
    requires small { length code.old ≤ 2 ^ 24 }
    requires small_data { length values.old ≤ 2 ^ 24 }
    requires small_bss { bss ≤ 2 ^ 30 }
    requires room { AllHaveRoom (length code.old) (length values.old) holes.now }
    requires aimable { AllAimable T.has_target holes.now }
    ensures { (l : Layout T.Insn) → ArePartsOf l code.old values.old labels.now entry.now holes.now bss
        → IsMade result (file_from T.statements (Ok l)) }
{
    match fill::<T>(code, values, labels, holes) {
        Ok(()) => (),
        Err(fault) => return Err(AsmError::Refused(fault)),
    }
    if code.is_empty() {
        return Err(AsmError::Refused(ListingFault {
            line: 0,
            why: ListingWhy::NoCode,
        }));
    }
    let start = entry_address(code.len() as u64, labels, entry);
    match elf_file(alloc, start, code, values, bss) {
        Ok(file) => Ok(file),
        Err(_) => Err(AsmError::OutOfMemory),
    }
}

/// The file of a draft, once its holes are filled.
fn finish<T: Instructions>(alloc: Global, draft: Draft<T::Insn>) -> Result<Vec<u8>, AsmError>
    requires room { AllHaveRoom (length draft.code.items) (length draft.values.items) draft.holes.items }
    requires aimable { AllAimable T.has_target draft.holes.items }
    ensures { (l : Layout T.Insn) → IsDraft T.has_target draft l → IsMade result (file_from T.statements (Ok l)) }
{
    let Draft {
        mut code,
        mut values,
        bss,
        labels,
        entry,
        holes,
        ..
    } = draft;
    build::<T>(alloc, &mut code, &mut values, &labels, &entry, &holes, bss)
}

/// The file that a listing makes, or why it makes none.
pub fn assemble_with<T: Instructions>(alloc: Global, text: &str) -> Result<Vec<u8>, AsmError>
    ensures { IsMade result (image_of T.statements text.now) }
{
    if count_lines(text) > MOST_LINES {
        return Err(AsmError::Refused(ListingFault {
            line: 1_000_001,
            why: ListingWhy::TooManyLines,
        }));
    }
    match lay_lines::<T>(alloc, text) {
        Ok(draft) => finish::<T>(alloc, draft),
        Err(error) => Err(error),
    }
}
