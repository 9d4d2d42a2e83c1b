//! The run of a machine, and what is said of it.
ghost use Rattle.std.specs.Prelude.{◌≡◌, ◌≢◌, ◌≤◌, string_bytes, IfOk, IfSome, Some, false};
ghost use Rattle.emu_system.specs.Start.{with_input};
ghost use Rattle.emu_run.specs.Run.{run};
ghost use Rattle.emu_machine.specs.Machines.{has_ended};
ghost use Rattle.commands.specs.Meets.{now, Meets};
ghost use Rattle.tool_run.specs.Caused.{faults, IsCaused};
ghost use Rattle.tool_run.specs.Still.{WithoutReport};
ghost use Rattle.tool_run.specs.Stops.{alone_stop, HasStopped, IsTold};
ghost use Rattle.tool_run.specs.Tells.{IsExplained, IsSilentExit};
ghost use Rattle.tool_run.specs.Unreported.{unreported_run};

use crate::ends::{Told, silent, with_explanation};
use crate::reports::put_wanted;
use command_lines::Ending;
use commands::{ending_of_run, is_failure};
use elf_symbols::symbols;
use emu_machine::Machine;
use emu_system::Segment;
use io_gate::{Sink, Source};
use std::alloc::{AllocError, Global};
use tool_sites::explain_alone;

/// What is said of a machine that ran alone and stopped, by the bytes of its file and the segments of its image. Err is
/// want of memory.
fn said_of(
    alloc: Global,
    bytes: &[u8],
    segments: &[Segment],
    machine: &Machine,
) -> Result<String, AllocError>
    ensures { IfOk result (λ text. IsExplained (alone_stop bytes.now segments.now machine.now.parts)
        (string_bytes text)) }
{
    let found = symbols(alloc, bytes)?;
    explain_alone(alloc, machine, &found, segments)
}

/// Runs a machine, puts its report where it is wanted, and tells how it stopped.
pub fn run_machine<I: Source, O: Sink, E: Sink, R: Sink>(
    alloc: Global,
    bytes: &[u8],
    segments: &[Segment],
    machine: &mut Machine,
    budget: u64,
    wanted: bool,
    input: &mut I,
    output: &mut O,
    errors: &mut E,
    registers: &mut R,
) -> Told
    requires going { has_ended machine.old ≡ false }
    requires within { machine.old.parts.steps ≤ budget }
    ensures outcome { Meets (λ i. Some (unreported_run i (run (with_input machine.old.parts i) budget))) result.ending
        (now (I.left input.old) (O.held output.old) (E.held errors.old))
        (now (I.left input.new) (O.held output.new) (E.held errors.new)) }
    ensures exit { IsSilentExit result.ending (string_bytes result.said) }
    ensures stopped { IfSome (I.left input.old) (λ i. HasStopped result.ending
        → IsTold (string_bytes result.said) wanted result.report_failed (R.held registers.old) (R.held registers.new)
        (alone_stop bytes.now segments.now (run (with_input machine.old.parts i) budget).parts)) }
    ensures caused { IsCaused result.ending result.report_failed
        (faults (I.faults input.old) (O.faults output.old) (E.faults errors.old) (R.faults registers.old))
        (faults (I.faults input.new) (O.faults output.new) (E.faults errors.new) (R.faults registers.new)) }
    ensures no_file { result.ending ≢ Ending.FileFault }
    ensures kept { WithoutReport wanted result.ending (registers.new ≡ registers.old) }
{
    let end = machine.run(budget, input, output, errors);
    let ending = ending_of_run(end, machine.core().pc());
    if is_failure(&ending) {
        return silent(alloc, ending);
    }
    let failed = put_wanted(machine, wanted, registers);
    let said = said_of(alloc, bytes, segments, machine);
    with_explanation(alloc, ending, said, failed)
}
