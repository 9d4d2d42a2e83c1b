//! The report of a run, where it is wanted.
ghost use Rattle.std.specs.Prelude.{◌≡◌, false, true};
ghost use Rattle.io_gate.specs.Streams.{Rose};
ghost use Rattle.emu_run.specs.Reports.{report};
ghost use Rattle.emu_run.specs.Threads.{ending};
ghost use Rattle.command_model.specs.WorldReports.{world_report};
ghost use Rattle.tool_run.specs.Stops.{GainsReport};

use commands::{put_report, put_world};
use emu_machine::Machine;
use emu_run::WorldEnding;
use guest_threads::World;
use io_gate::Sink;

/// Puts the report of a machine that stopped, where it is wanted. The answer is whether it couldn't be put whole.
pub fn put_wanted<R: Sink>(machine: &Machine, wanted: bool, registers: &mut R) -> bool
    ensures bytes { GainsReport wanted result (R.held registers.old) (R.held registers.new)
        (report machine.now.parts) }
    ensures unwanted { wanted ≡ false → registers.new ≡ registers.old }
    ensures cause { result ≡ true → Rose (R.faults registers.old) (R.faults registers.new) }
{
    if !wanted {
        return false;
    }
    put_report(machine, registers).is_err()
}

/// The same of a world that stopped so.
pub fn put_wanted_world<R: Sink>(
    world: &World,
    stop: WorldEnding,
    wanted: bool,
    registers: &mut R,
) -> bool
    requires { stop ≡ ending world.now.world world.now.world.ended }
    ensures bytes { GainsReport wanted result (R.held registers.old) (R.held registers.new)
        (world_report world.now.world) }
    ensures unwanted { wanted ≡ false → registers.new ≡ registers.old }
    ensures cause { result ≡ true → Rose (R.faults registers.old) (R.faults registers.new) }
{
    if !wanted {
        return false;
    }
    put_world(world, stop, registers).is_err()
}
