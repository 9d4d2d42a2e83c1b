//! The memory of a program before its first step.
ghost use Rattle.std.specs.Prelude.{◌≡◌, map, string_bytes};
ghost use Rattle.std.specs.FinMap as finmap;
ghost use Rattle.emu_system.specs.ArgumentLimits.{AreArguments};
ghost use Rattle.emu_system.specs.Start.{pages_at_start};
ghost use Rattle.elf_image.specs.Images.{seen_image};
ghost use Rattle.elf_image.specs.Loadable.{IsLoadable};
ghost use Rattle.emu_machine.specs.Layouts.{IsLayout};

use crate::load::load_segments;
use crate::stack::{Layout, load_stack};
use elf_image::Image;
use guest_pages::Pages;

/// Maps the pages of an image of this file and those of the stack with these arguments.
pub fn load_program(pages: &mut Pages, file: &[u8], image: &Image, args: &[String], layout: Layout)
    requires loadable { IsLoadable file.now pages.old.memory.limit (seen_image image.now) }
    requires arguments { AreArguments (map string_bytes args.now) }
    requires layout { IsLayout (map string_bytes args.now) layout }
    requires empty { pages.old.memory.pages ≡ finmap.empty }
    ensures memory { pages.new.memory ≡ record pages.old.memory {
      pages = pages_at_start file.now (seen_image image.now) (map string_bytes args.now);
    } }
    ensures marks { pages.new.marks ≡ pages.old.marks }
{
    load_segments(pages, file, &image.segments);
    load_stack(pages, image, args, layout);
}
