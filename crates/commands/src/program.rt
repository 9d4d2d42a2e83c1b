//! The program that a line names, and its machine before the first step.
ghost use Rattle.std.specs.Prelude.{◌≡◌, ◌<◌, ◌≤◌, [], map, length, string_bytes, IfOk, false};
ghost use Rattle.emu_model.specs.Access.{most_mapped_pages};
ghost use Rattle.emu_model.specs.Marks.{fresh_marks};
ghost use Rattle.elf_image.specs.Images.{seen_image};
ghost use Rattle.elf_image.specs.Loadable.{IsLoadable};
ghost use Rattle.emu_system.specs.ArgumentLimits.{AreArguments};
ghost use Rattle.emu_system.specs.Start.{opening};
ghost use Rattle.commands.specs.Programs.{arguments_of, opening_of};

use crate::arguments::arguments;
use elf_image::Image;
use emu_machine::Machine;
use emu_model::Length;
use std::alloc::{AllocError, Global};

/// What a line says of the program that it runs.
#[derive(Drop)]
pub struct Program {
    /// The place of the word that names the file.
    pub file: usize,
    /// The place of the first argument behind that word, or the number of words.
    pub args: usize,
    /// The vector length.
    pub length: Length,
    /// The greatest number of steps.
    pub budget: u64,
    /// The greatest number of mapped pages.
    pub pages: u32,
}

impl Program {
    /// The program that a line names, by its places and values.
    pub fn new(file: usize, args: usize, length: Length, budget: u64, pages: u32) -> Program
        ensures { result ≡ record { file = file; args = args; length = length; budget = budget; pages = pages } }
    {
        Program {
            file,
            args,
            length,
            budget,
            pages,
        }
    }
}

/// The machine of an image before its first step, with its arguments. Err is want of memory.
#[inline(always)]
pub fn open_machine(
    alloc: Global,
    bytes: &[u8],
    image: &Image,
    words: &[String],
    program: &Program,
) -> Result<Machine, AllocError>
    requires loadable { IsLoadable bytes.now program.now.pages (seen_image image.now) }
    requires file { program.now.file < program.now.args }
    requires args { program.now.args ≤ length words.now }
    requires arguments { AreArguments (arguments_of (map string_bytes words.now) program.now) }
    ensures { IfOk result (λ m. m ≡ record {
      parts = opening bytes.now (seen_image image.now)
          (arguments_of (map string_bytes words.now) program.now) program.now.length program.now.pages;
      accesses = [];
      failed = false;
      marks = [];
      saved = [];
      spare = m.spare;
    }) }
{
    let args = arguments(alloc, words, program.file, program.args)?;
    Machine::open(alloc, bytes, image, &args, program.length, program.pages)
}

/// The same machine with marks, which are none, for a session that goes back. Err is want of memory.
pub fn open_marked(
    alloc: Global,
    bytes: &[u8],
    image: &Image,
    words: &[String],
    program: &Program,
) -> Result<Machine, AllocError>
    requires loadable { IsLoadable bytes.now program.now.pages (seen_image image.now) }
    requires file { program.now.file < program.now.args }
    requires args { program.now.args ≤ length words.now }
    requires arguments { AreArguments (arguments_of (map string_bytes words.now) program.now) }
    requires pages { program.now.pages ≤ most_mapped_pages }
    ensures parts { IfOk result (λ m. m.parts
        ≡ opening_of bytes.now (seen_image image.now) (map string_bytes words.now) program.now) }
    ensures marks { IfOk result (λ m. m.marks ≡ fresh_marks) }
    ensures places { IfOk result (λ m. length m.saved ≡ 16) }
    ensures failed { IfOk result (λ m. m.failed ≡ false) }
{
    let args = arguments(alloc, words, program.file, program.args)?;
    Machine::open_marked(alloc, bytes, image, &args, program.length, program.pages)
}
