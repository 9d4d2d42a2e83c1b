//! The run of a program's threads under a schedule, and what is said of it.
ghost use Rattle.std.specs.Prelude.{◌≡◌, ◌≢◌, ◌≤◌, length, string_bytes, IfOk, IfSome, Some, false};
ghost use Rattle.command_lines.specs.Outcome.{file_limit};
ghost use Rattle.emu_machine.specs.Machines.{has_ended as machine_has_ended};
ghost use Rattle.emu_run.specs.Threads as model;
ghost use Rattle.emu_run.specs.Worlds.{opened};
ghost use Rattle.guest_schedule.specs.Schedule.{schedule_of_file};
ghost use Rattle.guest_threads.specs.Ends.{has_ended};
ghost use Rattle.commands.specs.Meets.{now, Meets};
ghost use Rattle.tool_run.specs.Caused.{faults, IsCaused};
ghost use Rattle.tool_run.specs.Still.{WithoutReport};
ghost use Rattle.tool_run.specs.Stops.{is_stuck, world_stop, HasStopped, IsTold, StopsWorld};
ghost use Rattle.tool_run.specs.Tells.{IsExplained, IsSilentExit};
ghost use Rattle.tool_run.specs.Unreported.{unreported_schedule, unreported_world};

use crate::ends::{Told, silent, with_explanation, with_text};
use crate::refusals::schedule_text;
use crate::reports::put_wanted_world;
use command_lines::Ending;
use commands::{ending_of_stop, schedule_of, stop_of};
use elf_symbols::symbols;
use emu_machine::Machine;
use emu_run::WorldEnding;
use emu_system::Segment;
use guest_schedule::{Schedule, ScheduleError};
use guest_threads::World;
use io_gate::{Sink, Source};
use std::alloc::{AllocError, Global};
use tool_sites::{explain, explain_stuck};

/// Whether a world stopped since no context was ready.
fn is_stuck(stop: WorldEnding) -> bool
    ensures { result ≡ is_stuck stop }
{
    match stop {
        WorldEnding::Stuck => true,
        WorldEnding::Exit(_) | WorldEnding::Trap(_, _) | WorldEnding::Spent => false,
    }
}

/// What is said of a world that stopped so, by the bytes of its file and the segments of its image. Err is want of
/// memory.
fn said_of_world(
    alloc: Global,
    bytes: &[u8],
    segments: &[Segment],
    world: &World,
    stop: WorldEnding,
) -> Result<String, AllocError>
    requires { stop ≡ model.ending world.now.world world.now.world.ended }
    ensures { IfOk result (λ text. IsExplained (world_stop bytes.now segments.now world.now.world)
        (string_bytes text)) }
{
    let found = symbols(alloc, bytes)?;
    if is_stuck(stop) {
        explain_stuck(alloc, world.steps())
    } else {
        explain(alloc, world.machine(), &found, segments)
    }
}

/// Runs a world under a schedule, puts its report where it is wanted, and tells how it stopped.
fn run_world<I: Source, O: Sink, E: Sink, R: Sink>(
    alloc: Global,
    bytes: &[u8],
    segments: &[Segment],
    world: &mut World,
    schedule: &Schedule,
    budget: u64,
    wanted: bool,
    input: &mut I,
    output: &mut O,
    errors: &mut E,
    registers: &mut R,
) -> Told
    requires going { has_ended world.old ≡ false }
    requires within { world.old.world.steps ≤ budget }
    ensures outcome { Meets (λ i. Some (unreported_world i
        (model.threads schedule.now budget (model.with_input world.old.world i)))) result.ending
        (now (I.left input.old) (O.held output.old) (E.held errors.old))
        (now (I.left input.new) (O.held output.new) (E.held errors.new)) }
    ensures exit { IsSilentExit result.ending (string_bytes result.said) }
    ensures stopped { IfSome (I.left input.old) (λ i. HasStopped result.ending
        → IsTold (string_bytes result.said) wanted result.report_failed (R.held registers.old) (R.held registers.new)
        (world_stop bytes.now segments.now
        (model.threads schedule.now budget (model.with_input world.old.world i)).world)) }
    ensures caused { IsCaused result.ending result.report_failed
        (faults (I.faults input.old) (O.faults output.old) (E.faults errors.old) (R.faults registers.old))
        (faults (I.faults input.new) (O.faults output.new) (E.faults errors.new) (R.faults registers.new)) }
    ensures no_file { result.ending ≢ Ending.FileFault }
    ensures kept { WithoutReport wanted result.ending (registers.new ≡ registers.old) }
{
    let end = world.run(schedule, budget, input, output, errors);
    match stop_of(end) {
        Err(ending) => silent(alloc, ending),
        Ok(stop) => {
            let failed = put_wanted_world(world, stop, wanted, registers);
            let said = said_of_world(alloc, bytes, segments, world, stop);
            with_explanation(alloc, ending_of_stop(stop), said, failed)
        }
    }
}

/// Runs the threads of a machine under the schedule of a file's bytes, or refuses the schedule, whose file has this
/// name.
pub fn run_schedule<I: Source, O: Sink, E: Sink, R: Sink>(
    alloc: Global,
    bytes: &[u8],
    segments: &[Segment],
    machine: Machine,
    name: &str,
    text: &[u8],
    budget: u64,
    wanted: bool,
    input: &mut I,
    output: &mut O,
    errors: &mut E,
    registers: &mut R,
) -> Told
    requires text { length text.now ≤ file_limit }
    requires going { machine_has_ended machine ≡ false }
    requires within { machine.parts.steps ≤ budget }
    ensures outcome { Meets
        (λ i. Some (unreported_schedule i budget (opened machine.parts) (schedule_of_file text.now))) result.ending
        (now (I.left input.old) (O.held output.old) (E.held errors.old))
        (now (I.left input.new) (O.held output.new) (E.held errors.new)) }
    ensures exit { IsSilentExit result.ending (string_bytes result.said) }
    ensures stopped { IfSome (I.left input.old) (λ i. HasStopped result.ending
        → StopsWorld (IsTold (string_bytes result.said) wanted result.report_failed (R.held registers.old)
        (R.held registers.new)) bytes.now segments.now budget (opened machine.parts) i (schedule_of_file text.now)) }
    ensures caused { IsCaused result.ending result.report_failed
        (faults (I.faults input.old) (O.faults output.old) (E.faults errors.old) (R.faults registers.old))
        (faults (I.faults input.new) (O.faults output.new) (E.faults errors.new) (R.faults registers.new)) }
    ensures no_file { result.ending ≢ Ending.FileFault }
    ensures kept { WithoutReport wanted result.ending (registers.new ≡ registers.old) }
{
    match schedule_of(alloc, text) {
        Err(ScheduleError::Refused(fault)) => with_text(
            alloc,
            Ending::ScheduleRefused(fault),
            schedule_text(alloc, name, fault),
        ),
        Err(ScheduleError::OutOfMemory) => silent(alloc, Ending::OutOfMemory),
        Ok(schedule) => match World::open(alloc, machine) {
            Err(_) => silent(alloc, Ending::OutOfMemory),
            Ok(mut world) => run_world(
                alloc, bytes, segments, &mut world, &schedule, budget, wanted, input, output,
                errors, registers,
            ),
        },
    }
}
