//! The machine of an image before its first step.
ghost use Rattle.std.specs.Prelude.{◌≡◌, IfOk, map, string_bytes, [], false};
ghost use Rattle.std.specs.FinMap as finmap;
ghost use Rattle.emu_model.specs.State.{zero_core, zero_vectors};
ghost use Rattle.emu_system.specs.Start.{opening};
ghost use Rattle.elf_image.specs.Images.{seen_image};
ghost use Rattle.elf_image.specs.Loadable.{IsLoadable};
ghost use Rattle.emu_system.specs.ArgumentLimits.{AreArguments};

use crate::load::highest_page;
use crate::machine::Machine;
use crate::program::load_program;
use crate::registers::Registers;
use crate::saved::Saved;
use crate::stack::Layout;
use elf_image::Image;
use emu_bits::Reg;
use emu_model::{Break, Length, PAGE_SIZE};
use guest_mem::Mem;
use guest_pages::{OutOfMemory, Pages};
use std::alloc::Global;

impl Machine {
    /// The machine of an image before its first step: in memory the pages of its segments with the file's bytes and
    /// those of the stack with the arguments; all registers 0 but PC, which is the entry, and SP; vectors of `length`
    /// bits, all of them 0; and the break behind the highest segment. It has no marks. The only error is want of
    /// memory.
    ///
    /// The image was read from these bytes, with `pages` as the greatest number of mapped pages. The arguments are
    /// within their limits, as `are_arguments` tests.
    #[inline(always)]
    pub fn open(
        alloc: Global,
        bytes: &[u8],
        image: &Image,
        args: &[String],
        length: Length,
        pages: u32,
    ) -> Result<Machine, OutOfMemory>
        requires loadable { IsLoadable bytes.now pages (seen_image image.now) }
        requires arguments { AreArguments (map string_bytes args.now) }
        ensures { IfOk result (λ m. m ≡ record {
          parts = opening bytes.now (seen_image image.now) (map string_bytes args.now) length pages;
          accesses = [];
          failed = false;
          marks = [];
          saved = [];
          spare = m.spare;
        }) }
    {
        let memory = Pages::new(alloc, pages)?;
        let registers = Registers::unset(alloc, length)?;
        Ok(Machine::opened(memory, Vec::new(alloc), registers, bytes, image, args))
    }

    /// The machine of an image over pages of which none is mapped, and registers that are all 0.
    #[inline(always)]
    pub(crate) fn opened(
        mut memory: Pages,
        saved: Vec<Saved>,
        mut registers: Registers,
        bytes: &[u8],
        image: &Image,
        args: &[String],
    ) -> Machine
        requires loadable { IsLoadable bytes.now memory.memory.limit (seen_image image.now) }
        requires arguments { AreArguments (map string_bytes args.now) }
        requires empty { memory.memory.pages ≡ finmap.empty }
        requires core { registers.core.value ≡ zero_core }
        requires vectors { registers.vec.value ≡ zero_vectors registers.vec.value.most }
        ensures { result ≡ record {
          parts = opening bytes.now (seen_image image.now)
              (map string_bytes args.now) registers.vec.value.most memory.memory.limit;
          accesses = [];
          failed = false;
          marks = memory.marks;
          saved = saved.items;
          spare = result.spare;
        } }
    {
        let layout = Layout::of(args);
        load_program(&mut memory, bytes, image, args, layout);
        registers.core.set_pc(image.entry);
        registers.core.set_x_sp(Reg::at(31, 0), 64, layout.words);
        let start = PAGE_SIZE * highest_page(&image.segments);
        Machine::at_start(
            registers,
            Mem::new(memory),
            Break { start, now: start },
            saved,
        )
    }
}
