//! The command `threads`: from the image of a program and the text of a schedule to the report of its contexts.
ghost use Rattle.std.specs.Prelude.{
  ◌≡◌,
  ◌≢◌,
  ◌<◌,
  ◌≤◌,
  ◌++◌,
  map,
  length,
  string_bytes,
  IfOk,
  MatchResult,
  Some,
  Ok,
  false,
  true,
};
ghost use Rattle.io_gate.specs.Streams.{Causes, HasCause};
ghost use Rattle.io_gate.specs.Pieces.{PutsAll};
ghost use Rattle.elf_image.specs.Images.{seen_image};
ghost use Rattle.elf_image.specs.Loadable.{IsLoadable};
ghost use Rattle.emu_system.specs.ArgumentLimits.{AreArguments};
ghost use Rattle.line_words.specs.Reading.{IsErrorOf};
ghost use Rattle.guest_schedule.specs.Errors.{fault_in};
ghost use Rattle.guest_schedule.specs.Schedule.{schedule_of_file};
ghost use Rattle.guest_threads.specs.Ends.{has_ended};
ghost use Rattle.emu_run.specs.Reports.{after_steps};
ghost use Rattle.emu_run.specs.Threads.{with_input};
ghost use Rattle.emu_run.specs.Threads as model;
ghost use Rattle.emu_run.specs.Worlds.{opened};
ghost use Rattle.command_model.specs.WorldReports.{contexts_lines, stop_text};
ghost use Rattle.command_lines.specs.Outcome.{ending_of_world, file_limit, outcome_of_schedule, outcome_of_world};
ghost use Rattle.commands.specs.Endings.{stop_by};
ghost use Rattle.commands.specs.Lines.{ends_threads};
ghost use Rattle.commands.specs.Programs.{arguments_of, opening_of};
ghost use Rattle.commands.specs.Meets.{now, Meets};
ghost use Rattle.commands.specs.Whole.{InWorld, HasAllPut};
ghost use Rattle.commands.specs.Passing.{InSchedule};

use crate::files::ending_after_line;
use crate::program::{Program, open_machine};
use crate::texts::line_of_place;
use command_lines::Ending;
use elf_image::Image;
use emu_report::{put_context, put_exit, put_schedule_refusal, put_spent, put_stuck, put_trap};
use emu_run::WorldEnding;
use guest_schedule::{Schedule, ScheduleError, ScheduleFault, ScheduleWhy, read_schedule};
use guest_threads::{World, WorldEnd};
use io_gate::{Failed, Sink, Source};
use std::alloc::{AllocError, Global};
use std::str;

/// The schedule of a file's bytes. Err is its first refusal, or want of memory.
pub fn schedule_of(alloc: Global, bytes: &[u8]) -> Result<Schedule, ScheduleError>
    requires { length bytes.now ≤ file_limit }
    ensures { MatchResult result
        (λ read. schedule_of_file bytes.now ≡ Ok read)
        (λ error. IsErrorOf (schedule_of_file bytes.now) (fault_in error)) }
{
    match str::from_utf8(bytes) {
        Ok(text) => read_schedule(alloc, text),
        Err(error) => Err(ScheduleError::Refused(ScheduleFault {
            line: line_of_place(bytes, error.valid_up_to()),
            why: ScheduleWhy::NotUtf8,
        })),
    }
}

/// The world of an image before its first step. Err is want of memory.
fn open_world(
    alloc: Global,
    bytes: &[u8],
    image: &Image,
    words: &[String],
    program: &Program,
) -> Result<World, AllocError>
    requires loadable { IsLoadable bytes.now program.now.pages (seen_image image.now) }
    requires file { program.now.file < program.now.args }
    requires args { program.now.args ≤ length words.now }
    requires arguments { AreArguments (arguments_of (map string_bytes words.now) program.now) }
    ensures { IfOk result (λ w. w ≡ record {
      world = opened (opening_of bytes.now (seen_image image.now) (map string_bytes words.now) program.now);
      failed = false;
    }) }
{
    let machine = open_machine(alloc, bytes, image, words, program)?;
    World::open(alloc, machine)
}

/// How the run of a world stopped. Err is the ending of one that a stream broke off.
pub fn stop_of(end: WorldEnd) -> Result<WorldEnding, Ending>
    ensures { result ≡ stop_by end }
{
    match end {
        WorldEnd::Exit(code) => Ok(WorldEnding::Exit(code)),
        WorldEnd::Trap(trap, pc) => Ok(WorldEnding::Trap(trap, pc)),
        WorldEnd::Spent => Ok(WorldEnding::Spent),
        WorldEnd::Stuck => Ok(WorldEnding::Stuck),
        WorldEnd::ReadFault => Err(Ending::ReadFault),
        WorldEnd::WriteFault => Err(Ending::WriteFault),
        WorldEnd::ErrorsFault => Err(Ending::ErrorsFault),
    }
}

/// The ending of a world that stopped.
pub fn ending_of_stop(stop: WorldEnding) -> Ending
    ensures { result ≡ ending_of_world stop }
{
    match stop {
        WorldEnding::Exit(code) => Ending::Exit(code),
        WorldEnding::Trap(trap, pc) => Ending::Trap(trap, pc),
        WorldEnding::Spent => Ending::Spent,
        WorldEnding::Stuck => Ending::Stuck,
    }
}

/// Puts the line of a world that stopped, with the steps of all its contexts.
fn put_stop<E: Sink>(stop: WorldEnding, steps: u64, errors: &mut E) -> Result<(), Failed>
    ensures bytes { PutsAll (E.held errors.old) (E.held errors.new) (stop_text stop ++ after_steps steps) result }
    ensures cause { HasCause (E.faults errors.old) (E.faults errors.new) result }
{
    match stop {
        WorldEnding::Exit(code) => put_exit(code, steps, errors),
        WorldEnding::Trap(trap, pc) => put_trap(&trap, pc, steps, errors),
        WorldEnding::Spent => put_spent(steps, errors),
        WorldEnding::Stuck => put_stuck(steps, errors),
    }
}

/// Puts the registers of each context, in the order of their numbers.
fn put_contexts<E: Sink>(world: &World, errors: &mut E) -> Result<(), Failed>
    ensures bytes { PutsAll (E.held errors.old) (E.held errors.new) (contexts_lines world.now.world) result }
    ensures cause { HasCause (E.faults errors.old) (E.faults errors.new) result }
{
    'registers: for k in 0..world.contexts() {
        let (core, vec) = world.context(k);
        put_context(k, core, vec, errors)?;
    }
    Ok(())
}

/// Puts the line of a world that stopped, and the registers of its contexts.
pub fn put_world<E: Sink>(world: &World, stop: WorldEnding, errors: &mut E) -> Result<(), Failed>
    ensures bytes { PutsAll (E.held errors.old) (E.held errors.new)
        ((stop_text stop ++ after_steps world.now.world.steps) ++ contexts_lines world.now.world) result }
    ensures cause { HasCause (E.faults errors.old) (E.faults errors.new) result }
{
    put_stop(stop, world.steps(), errors)?;
    put_contexts(world, errors)
}

/// Runs a world under a schedule, and reports how it stopped.
fn run_world<I: Source, O: Sink, E: Sink>(
    world: &mut World,
    schedule: &Schedule,
    budget: u64,
    input: &mut I,
    output: &mut O,
    errors: &mut E,
) -> Ending
    requires going { has_ended world.old ≡ false }
    requires within { world.old.world.steps ≤ budget }
    ensures outcome { Meets
        (λ i. Some (outcome_of_world i (model.threads schedule.now budget (with_input world.old.world i)))) result
        (now (I.left input.old) (O.held output.old) (E.held errors.old))
        (now (I.left input.new) (O.held output.new) (E.held errors.new)) }
    ensures read_cause { Causes (result ≡ Ending.ReadFault) (I.faults input.old) (I.faults input.new) }
    ensures write_cause { Causes (result ≡ Ending.WriteFault) (O.faults output.old) (O.faults output.new) }
    ensures errors_cause { Causes (result ≡ Ending.ErrorsFault) (E.faults errors.old) (E.faults errors.new) }
    ensures no_file { result ≢ Ending.FileFault }
    ensures no_memory { result ≢ Ending.OutOfMemory }
    ensures kind { ends_threads result ≡ true }
    ensures whole { HasAllPut (InWorld schedule.now world.old.world budget result (I.left input.new))
        (λ i. Some (outcome_of_world i (model.threads schedule.now budget (with_input world.old.world i)))) result
        (I.left input.old) (O.held output.old) (O.held output.new) (E.held errors.old) (E.held errors.new) }
{
    let end = world.run(schedule, budget, input, output, errors);
    match stop_of(end) {
        Err(ending) => ending,
        Ok(stop) => ending_after_line(put_world(world, stop, errors), ending_of_stop(stop)),
    }
}

/// Runs the contexts of an image under the schedule of a file's bytes, or refuses the schedule. The ending is the
/// run's; ScheduleRefused behind its line on the errors, a fault of a stream, or OutOfMemory before anything is taken
/// or written.
pub fn thread_image<I: Source, O: Sink, E: Sink>(
    alloc: Global,
    bytes: &[u8],
    text: &[u8],
    image: &Image,
    words: &[String],
    program: &Program,
    input: &mut I,
    output: &mut O,
    errors: &mut E,
) -> Ending
    requires text { length text.now ≤ file_limit }
    requires loadable { IsLoadable bytes.now program.now.pages (seen_image image.now) }
    requires file { program.now.file < program.now.args }
    requires args { program.now.args ≤ length words.now }
    requires arguments { AreArguments (arguments_of (map string_bytes words.now) program.now) }
    ensures outcome { Meets (λ i. Some (outcome_of_schedule i program.now.budget
        (opened (opening_of bytes.now (seen_image image.now) (map string_bytes words.now) program.now))
        (schedule_of_file text.now)))
        result (now (I.left input.old) (O.held output.old) (E.held errors.old))
        (now (I.left input.new) (O.held output.new) (E.held errors.new)) }
    ensures read_cause { Causes (result ≡ Ending.ReadFault) (I.faults input.old) (I.faults input.new) }
    ensures write_cause { Causes (result ≡ Ending.WriteFault) (O.faults output.old) (O.faults output.new) }
    ensures errors_cause { Causes (result ≡ Ending.ErrorsFault) (E.faults errors.old) (E.faults errors.new) }
    ensures no_file { result ≢ Ending.FileFault }
    ensures memory_first { result ≡ Ending.OutOfMemory
        → (input.new ≡ input.old) × (output.new ≡ output.old) × (errors.new ≡ errors.old) }
    ensures kind { ends_threads result ≡ true }
    ensures whole { HasAllPut (InSchedule text.now
        (opening_of bytes.now (seen_image image.now) (map string_bytes words.now) program.now) program.now.budget
        result (I.left input.new))
        (λ i. Some (outcome_of_schedule i program.now.budget
        (opened (opening_of bytes.now (seen_image image.now) (map string_bytes words.now) program.now))
        (schedule_of_file text.now)))
        result
        (I.left input.old) (O.held output.old) (O.held output.new) (E.held errors.old) (E.held errors.new) }
{
    match schedule_of(alloc, text) {
        Err(ScheduleError::Refused(fault)) => ending_after_line(
            put_schedule_refusal(&fault, errors),
            Ending::ScheduleRefused(fault),
        ),
        Err(ScheduleError::OutOfMemory) => Ending::OutOfMemory,
        Ok(schedule) => match open_world(alloc, bytes, image, words, program) {
            Err(_) => Ending::OutOfMemory,
            Ok(mut world) => run_world(
                &mut world,
                &schedule,
                program.budget,
                input,
                output,
                errors,
            ),
        },
    }
}
