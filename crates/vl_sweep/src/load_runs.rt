//! The runs of a load program, one length after the other.
ghost use Rattle.std.specs.Prelude.{◌≡◌, ◌++◌, [], map, string_bytes, IfOk, OnOk};
ghost use Rattle.elf_image.specs.Images.{seen_image};
ghost use Rattle.elf_image.specs.Loadable.{IsLoadable};
ghost use Rattle.emu_machine.specs.Ends.{is_broken_off};
ghost use Rattle.command_model.specs.Load as model;
ghost use Rattle.command_model.specs.Load.{line_at, load_args, load_text};
ghost use Rattle.vl_sweep.specs.LoadRuns.{HasRun};

use crate::lengths::length_behind;
use crate::load_line::push_run_line;
use command_model::{LOAD_BUDGET, LOAD_PAGES};
use elf_image::Image;
use emu_machine::{Machine, RunEnd};
use emu_model::Length;
use io_gate::{MemSink, SliceSource};
use std::alloc::{AllocError, Global};

/// Want of memory.
pub type OutOfMemory = AllocError;

/// The one argument of a load program. Err is want of memory.
fn arguments(alloc: Global) -> Result<Vec<String>, OutOfMemory>
    ensures { IfOk result (λ list. map string_bytes list.items ≡ load_args) }
{
    let mut list = Vec::new(alloc);
    list.push(String::from_str(alloc, "load")?)?;
    Ok(list)
}

/// A sink in memory that holds nothing. It fails only where memory is wanting.
fn empty_sink(alloc: Global) -> MemSink
    ensures { result.held ≡ [] }
{
    MemSink::new(alloc, usize::MAX, Vec::new(alloc))
}

/// Whether the last step of a run wasn't done.
fn is_broken_off(end: RunEnd) -> bool
    ensures { result ≡ is_broken_off end }
{
    match end {
        RunEnd::Exit(_) | RunEnd::Trap(_) | RunEnd::Spent => false,
        RunEnd::ReadFault | RunEnd::WriteFault | RunEnd::ErrorsFault => true,
    }
}

/// The machine of an image at a length as its run without input leaves it, and what it wrote. Err is want of memory.
fn run_at(
    alloc: Global,
    bytes: &[u8],
    image: &Image,
    args: &[String],
    length: Length,
    output: &mut MemSink,
    errors: &mut MemSink,
) -> Result<Machine, OutOfMemory>
    requires loadable { IsLoadable bytes.now 512 (seen_image image.now) }
    requires arguments { map string_bytes args.now ≡ load_args }
    requires nothing_written { output.old.held ≡ [] }
    ensures run { IfOk result
        (λ machine. HasRun (model.run_at bytes.now (seen_image image.now) length) machine output.new) }
{
    let mut machine = Machine::open(alloc, bytes, image, args, length, LOAD_PAGES)?;
    let mut input = SliceSource::new(b"");
    let end = machine.run(LOAD_BUDGET, &mut input, output, errors);
    if is_broken_off(end) {
        return Err(AllocError);
    }
    Ok(machine)
}

/// Runs an image at a length, and appends its line. Err is want of memory.
fn push_line_at(
    alloc: Global,
    bytes: &[u8],
    image: &Image,
    args: &[String],
    length: Length,
    lines: &mut MemSink,
) -> Result<(), OutOfMemory>
    requires loadable { IsLoadable bytes.now 512 (seen_image image.now) }
    requires arguments { map string_bytes args.now ≡ load_args }
    ensures line { OnOk result (lines.new.held ≡ lines.old.held ++ line_at bytes.now (seen_image image.now) length) }
{
    let mut output = empty_sink(alloc);
    let mut errors = empty_sink(alloc);
    let machine = run_at(alloc, bytes, image, args, length, &mut output, &mut errors)?;
    match push_run_line(length.bits(), &machine, output.kept(), lines) {
        Ok(()) => Ok(()),
        Err(_) => Err(AllocError),
    }
}

/// Runs the image of a load program at each vector length from 128 to 2048 bits, without input, and gives the lines on
/// the runs: how each ended, its steps, and all that it wrote to file 1. The memory of one length is given back before
/// the next is opened.
///
/// The image was read from these bytes, with 512 as the greatest number of mapped pages. Err is want of memory: for a
/// machine, for what a run writes, or for the lines.
pub fn load_lines(alloc: Global, bytes: &[u8], image: &Image) -> Result<MemSink, OutOfMemory>
    requires loadable { IsLoadable bytes.now 512 (seen_image image.now) }
    ensures lines { IfOk result (λ lines. lines.held ≡ load_text bytes.now (seen_image image.now)) }
{
    let args = arguments(alloc)?;
    let mut lines = empty_sink(alloc);
    'lengths: for shorter in 0..16 {
        push_line_at(
            alloc,
            bytes,
            image,
            &args,
            length_behind(shorter),
            &mut lines,
        )?;
    }
    Ok(lines)
}
