//! How a session ends.
ghost use Rattle.std.specs.Prelude.{◌≡◌};
ghost use Rattle.dbg_core.specs.Ends.{end_of_put, end_of_run, end_of_step};

use emu_machine::{RunEnd, StepEnd};
use io_gate::Failed;

/// How a session ended.
#[derive(Clone, Copy, Debug, PartialEq, Eq)]
pub enum SessionEnd {
    /// All commands were obeyed.
    Done,
    /// The input failed.
    ReadFault,
    /// The output failed, by a write of the program or by a line of the session.
    WriteFault,
    /// The stream of errors failed.
    ErrorsFault,
}

/// The answer by that of a run.
pub fn end_of_run(end: RunEnd) -> SessionEnd
    ensures { result ≡ end_of_run end }
{
    match end {
        RunEnd::Exit(_) | RunEnd::Trap(_) | RunEnd::Spent => SessionEnd::Done,
        RunEnd::ReadFault => SessionEnd::ReadFault,
        RunEnd::WriteFault => SessionEnd::WriteFault,
        RunEnd::ErrorsFault => SessionEnd::ErrorsFault,
    }
}

/// The answer by that of a step.
pub fn end_of_step(end: StepEnd) -> SessionEnd
    ensures { result ≡ end_of_step end }
{
    match end {
        StepEnd::Going | StepEnd::Exit(_) | StepEnd::Trap(_) => SessionEnd::Done,
        StepEnd::ReadFault => SessionEnd::ReadFault,
        StepEnd::WriteFault => SessionEnd::WriteFault,
        StepEnd::ErrorsFault => SessionEnd::ErrorsFault,
    }
}

/// The answer by that of a line that was put to the output.
pub fn end_of_put(put: Result<(), Failed>) -> SessionEnd
    ensures { result ≡ end_of_put put }
{
    match put {
        Ok(()) => SessionEnd::Done,
        Err(Failed) => SessionEnd::WriteFault,
    }
}
