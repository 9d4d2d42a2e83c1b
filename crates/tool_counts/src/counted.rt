//! The runs at the lengths, and their counts.
ghost use Rattle.std.specs.Prelude.{◌≡◌, ℕ, IfOk, map, string_bytes};
ghost use Rattle.elf_image.specs.Images.{seen_image};
ghost use Rattle.elf_image.specs.Loadable.{IsLoadable};
ghost use Rattle.emu_system.specs.ArgumentLimits.{AreArguments};
ghost use Rattle.word_counts.specs.Counts.{count_at};
ghost use Rattle.tool_counts.specs.Counted.{sweep_of, AreCounted, IsCountedAt};

use crate::stops::Stopped;
use elf_image::Image;
use emu_machine::Machine;
use emu_model::Length;
use run_counts::run_counted;
use std::alloc::{AllocError, Global};
use word_counts::WordCounts;

/// The counts of runs, and how each stopped, in order.
#[derive(Drop)]
pub struct Counted {
    pub tables: Vec<WordCounts>,
    pub stops: Vec<Stopped>,
}

/// Runs an image at a length. What the program writes is dropped. Err is want of memory.
fn count_at_length(
    alloc: Global,
    bytes: &[u8],
    image: &Image,
    args: &[String],
    pages: u32,
    budget: u64,
    input: &[u8],
    length: Length,
    counts: &mut WordCounts,
) -> Result<Stopped, AllocError>
    requires loadable { IsLoadable bytes.now pages (seen_image image.now) }
    requires arguments { AreArguments (map string_bytes args.now) }
    requires none { (word : ℕ) → count_at counts.old word ≡ 0 }
    ensures { IfOk result (IsCountedAt
        (sweep_of bytes.now (seen_image image.now) (map string_bytes args.now) pages budget input.now)
        length counts.new) }
{
    let Ok(mut machine) = Machine::open(alloc, bytes, image, args, length, pages) else {
        return Err(AllocError);
    };
    run_counted(&mut machine, budget, input, counts)?;
    Ok(Stopped {
        length,
        ended: machine.ending(),
        pc: machine.core().pc(),
        steps: machine.steps(),
    })
}

/// Runs an image at each of these lengths, each time with the whole input. Err is want of memory.
pub fn count_at_lengths(
    alloc: Global,
    bytes: &[u8],
    image: &Image,
    args: &[String],
    pages: u32,
    budget: u64,
    input: &[u8],
    lengths: &[Length],
) -> Result<Counted, AllocError>
    requires loadable { IsLoadable bytes.now pages (seen_image image.now) }
    requires arguments { AreArguments (map string_bytes args.now) }
    ensures { IfOk result (λ c. AreCounted
        (sweep_of bytes.now (seen_image image.now) (map string_bytes args.now) pages budget input.now)
        lengths.now c.tables.items c.stops.items) }
{
    let mut tables = Vec::new(alloc);
    let mut stops = Vec::new(alloc);
    'lengths: for k in 0..lengths.len() {
        let mut counts = WordCounts::new(alloc);
        let stopped = count_at_length(
            alloc,
            bytes,
            image,
            args,
            pages,
            budget,
            input,
            lengths[k],
            &mut counts,
        )?;
        tables.push(counts)?;
        stops.push(stopped)?;
    }
    Ok(Counted { tables, stops })
}
