//! Listings made into executables: labels by their hash, the bytes of sections as they come, and holes that are filled
//! once all labels are known; over any reader of instructions (`assemble_with`), and over that of both tables.
#![tactic(auto)]

mod assembly;
mod draft;
mod elf_file;
mod filling;
mod labels;
mod placing;
mod putting;
mod text_lines;

ghost use Rattle.asm_image.specs.Assembly.{IsMade};
ghost use Rattle.asm_text.specs.Statements.{statements};
ghost use Rattle.listing_model.specs.Image.{image_of};

use asm_text::Tables;
pub use assembly::{AsmError, assemble_with};
pub use listing_model::{ListingFault, ListingWhy};
use std::alloc::Global;

/// The file that a listing makes: its header, its code and its data. Or the first refusal, with its line; or that
/// memory was wanting.
pub fn assemble(alloc: Global, text: &str) -> Result<Vec<u8>, AsmError>
    ensures { IsMade result (image_of statements text.now) }
{
    assemble_with::<Tables>(alloc, text)
}
