//! The lengths, one after the other.
ghost use Rattle.std.specs.Prelude.{
  ◌≡◌,
  ◌<◌,
  ◌+◌,
  ◌*◌,
  ◌++◌,
  [],
  map,
  string_bytes,
  false,
  true,
  IfSome,
  MatchOption,
  Some,
};
ghost use Rattle.io_gate.specs.Streams.{Causes};
ghost use Rattle.elf_image.specs.Images.{seen_image};
ghost use Rattle.elf_image.specs.Loadable.{IsLoadable};
ghost use Rattle.emu_system.specs.ArgumentLimits.{AreArguments};
ghost use Rattle.emu_system.specs.Gained.{Gains};
ghost use Rattle.command_model.specs.Sweep as model;
ghost use Rattle.command_model.specs.Sweep.{fits, fits_at, line_at, sweep_text, text_before};
ghost use Rattle.vl_sweep.specs.Sweeps.{is_broken_off, is_stopped, sweep_of, IsRunAt, PutsLine};

use crate::bound_sink::BoundSink;
use crate::line::put_run_line;
use elf_image::Image;
use emu_machine::Machine;
use emu_model::Length;
use io_gate::{Sink, SliceSource};
use std::alloc::{AllocError, Global};

/// One byte more than the output and the errors of a run may have, so that a full sink shows that there are too many.
const ROOM: usize = 16_777_217;

/// What a run writes.
type Kept = BoundSink<ROOM>;

/// How a sweep ended.
#[derive(Clone, Copy, Debug, Drop, PartialEq, Eq)]
pub enum SweepEnd {
    /// The line of each length was put.
    Done,
    /// The output or the errors of a run have more than 16,777,216 bytes. The lines of the lengths before it were put.
    TooLong,
    /// The output failed.
    WriteFault,
    /// There was no memory for what the runs write, or for a machine.
    OutOfMemory,
}

/// Whether a length ended without its line.
fn is_stopped(end: SweepEnd) -> bool
    ensures { result ≡ is_stopped end }
{
    match end {
        SweepEnd::Done => false,
        SweepEnd::TooLong | SweepEnd::WriteFault | SweepEnd::OutOfMemory => true,
    }
}

/// The vector length in front of which stand so many shorter ones.
pub fn length_behind(shorter: u32) -> Length
    requires { shorter < 16 }
    ensures { result ≡ 128 * (shorter + 1) }
{
    Length::of_bits(128 * (shorter + 1)).unwrap()
}

/// The machine of an image at a length as its run leaves it, and what it wrote. Err is that it wrote too much, or want
/// of memory.
fn run_at(
    alloc: Global,
    bytes: &[u8],
    image: &Image,
    args: &[String],
    pages: u32,
    budget: u64,
    input: &[u8],
    length: Length,
    written: &mut Kept,
    errors: &mut Kept,
) -> Result<Machine, SweepEnd>
    requires loadable { IsLoadable bytes.now pages (seen_image image.now) }
    requires arguments { AreArguments (map string_bytes args.now) }
    requires nothing_written { written.old ≡ record { held = []; faults = 0 } }
    requires no_errors { errors.old ≡ record { held = []; faults = 0 } }
    ensures run { IsRunAt (model.run_at
        (sweep_of bytes.now (seen_image image.now) (map string_bytes args.now) pages budget input.now) length)
        result written.new errors.new }
{
    let Ok(mut machine) = Machine::open(alloc, bytes, image, args, length, pages) else {
        return Err(SweepEnd::OutOfMemory);
    };
    let mut source = SliceSource::new(input);
    machine.run(budget, &mut source, written, errors);
    if written.is_full() {
        return Err(SweepEnd::TooLong);
    }
    if errors.is_full() {
        return Err(SweepEnd::TooLong);
    }
    Ok(machine)
}

/// The output at 128 bits, or where it isn't given what was written.
fn chosen<'a>(first: Option<&'a [u8]>, written: &'a [u8]) -> &'a [u8]
    ensures { MatchOption first.entry (result.now ≡ written.now) (λ f. result.now ≡ f.now) }
{
    match first {
        Some(first) => first,
        None => written,
    }
}

/// Runs an image at a length, and puts its line. Done is that the line was put; `written` then has what the run wrote.
/// The output at 128 bits is `first`, or at that length what the run itself writes.
fn sweep_at<O: Sink>(
    alloc: Global,
    bytes: &[u8],
    image: &Image,
    args: &[String],
    pages: u32,
    budget: u64,
    input: &[u8],
    length: Length,
    first: Option<&[u8]>,
    written: &mut Kept,
    errors: &mut Kept,
    output: &mut O,
) -> SweepEnd
    requires loadable { IsLoadable bytes.now pages (seen_image image.now) }
    requires arguments { AreArguments (map string_bytes args.now) }
    requires nothing_written { written.old ≡ record { held = []; faults = 0 } }
    requires no_errors { errors.old ≡ record { held = []; faults = 0 } }
    requires first { MatchOption first (length ≡ 128) (λ f. f.now ≡ (model.run_at
        (sweep_of bytes.now (seen_image image.now) (map string_bytes args.now) pages budget input.now) 128).output) }
    ensures line { PutsLine result
        (fits_at (sweep_of bytes.now (seen_image image.now) (map string_bytes args.now) pages budget input.now) length)
        (O.held output.old) (O.held output.new) (line_at
        (sweep_of bytes.now (seen_image image.now) (map string_bytes args.now) pages budget input.now) length) }
    ensures written { result ≡ SweepEnd.Done → written.new ≡ record {
      held = (model.run_at
          (sweep_of bytes.now (seen_image image.now) (map string_bytes args.now) pages budget input.now) length).output;
      faults = 0;
    } }
    ensures errors { result ≡ SweepEnd.Done → errors.new.faults ≡ 0 }
    ensures write_cause { Causes (result ≡ SweepEnd.WriteFault) (O.faults output.old) (O.faults output.new) }
{
    let machine = match run_at(
        alloc, bytes, image, args, pages, budget, input, length, written, errors,
    ) {
        Ok(machine) => machine,
        Err(end) => return end,
    };
    let kept = written.kept();
    let count = errors.kept().len();
    match put_run_line(
        length.bits(),
        chosen(first, kept),
        &machine,
        kept,
        count,
        output,
    ) {
        Ok(()) => SweepEnd::Done,
        Err(_) => SweepEnd::WriteFault,
    }
}

/// Puts the line of each length, with sinks that hold nothing.
fn sweep_lengths<O: Sink>(
    alloc: Global,
    bytes: &[u8],
    image: &Image,
    args: &[String],
    pages: u32,
    budget: u64,
    input: &[u8],
    first: &mut Kept,
    written: &mut Kept,
    errors: &mut Kept,
    output: &mut O,
) -> SweepEnd
    requires loadable { IsLoadable bytes.now pages (seen_image image.now) }
    requires arguments { AreArguments (map string_bytes args.now) }
    requires no_first { first.old ≡ record { held = []; faults = 0 } }
    requires nothing_written { written.old ≡ record { held = []; faults = 0 } }
    requires no_errors { errors.old ≡ record { held = []; faults = 0 } }
    ensures lines { IfSome (O.held output.old) (λ had. Gains (is_broken_off result) (O.held output.new) had
        (text_before (sweep_of bytes.now (seen_image image.now) (map string_bytes args.now) pages budget input.now))) }
    ensures fits { result ≡ SweepEnd.Done
        → fits (sweep_of bytes.now (seen_image image.now) (map string_bytes args.now) pages budget input.now) ≡ true }
    ensures too_long { result ≡ SweepEnd.TooLong
        → fits (sweep_of bytes.now (seen_image image.now) (map string_bytes args.now) pages budget input.now) ≡ false }
    ensures write_cause { Causes (result ≡ SweepEnd.WriteFault) (O.faults output.old) (O.faults output.new) }
{
    let end = sweep_at(
        alloc,
        bytes,
        image,
        args,
        pages,
        budget,
        input,
        length_behind(0),
        None,
        first,
        errors,
        output,
    );
    if is_stopped(end) {
        return end;
    }
    'lengths: for shorter in 1..16 {
        written.clear();
        errors.clear();
        let length = length_behind(shorter);
        let last = sweep_at(
            alloc,
            bytes,
            image,
            args,
            pages,
            budget,
            input,
            length,
            Some(first.kept()),
            written,
            errors,
            output,
        );
        if is_stopped(last) {
            return last;
        }
    }
    SweepEnd::Done
}

/// Runs an image at each vector length from 128 to 2048 bits, each time with the whole input, and puts a line on each
/// run: how it ended, its steps, how many bytes it wrote, and where its output parts from that at 128 bits. The memory
/// of one length is given back before the next is opened.
///
/// The image was read from these bytes, with `pages` as the greatest number of mapped pages. The arguments are those
/// that `are_arguments` accepts. The budget is that of each length.
pub fn sweep<O: Sink>(
    alloc: Global,
    bytes: &[u8],
    image: &Image,
    args: &[String],
    pages: u32,
    budget: u64,
    input: &[u8],
    output: &mut O,
) -> SweepEnd
    requires loadable { IsLoadable bytes.now pages (seen_image image.now) }
    requires arguments { AreArguments (map string_bytes args.now) }
    // Done is that the output gained the sixteen lines, each of which is that of the run alone.
    ensures whole { result ≡ SweepEnd.Done → IfSome (O.held output.old) (λ had. O.held output.new ≡ Some (had
        ++ sweep_text (sweep_of bytes.now (seen_image image.now) (map string_bytes args.now) pages budget input.now))) }
    // Whatever the end, the output gained the lines before the first length at which a stream is too long, or first
    // bytes of them.
    ensures lines { IfSome (O.held output.old) (λ had. Gains (is_broken_off result) (O.held output.new) had
        (text_before (sweep_of bytes.now (seen_image image.now) (map string_bytes args.now) pages budget input.now))) }
    ensures fits { result ≡ SweepEnd.Done
        → fits (sweep_of bytes.now (seen_image image.now) (map string_bytes args.now) pages budget input.now) ≡ true }
    ensures too_long { result ≡ SweepEnd.TooLong
        → fits (sweep_of bytes.now (seen_image image.now) (map string_bytes args.now) pages budget input.now) ≡ false }
    ensures write_cause { Causes (result ≡ SweepEnd.WriteFault) (O.faults output.old) (O.faults output.new) }
{
    let Ok(mut first) = Kept::new(alloc) else {
        return SweepEnd::OutOfMemory;
    };
    let Ok(mut written) = Kept::new(alloc) else {
        return SweepEnd::OutOfMemory;
    };
    let Ok(mut errors) = Kept::new(alloc) else {
        return SweepEnd::OutOfMemory;
    };
    sweep_lengths(
        alloc,
        bytes,
        image,
        args,
        pages,
        budget,
        input,
        &mut first,
        &mut written,
        &mut errors,
        output,
    )
}
