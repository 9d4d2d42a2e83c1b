//! How a step and a run end.
ghost use Rattle.std.specs.Prelude.{◌≡◌};
ghost use Rattle.emu_machine.specs.Ends as ends;

use emu_model::{Ended, Trap};

/// How a step ended. After a fault of a stream the step wasn't done.
#[derive(Clone, Copy, Debug, PartialEq, Eq)]
pub enum StepEnd {
    /// The machine goes on.
    Going,
    /// The program ended itself with this code.
    Exit(u8),
    /// The step trapped.
    Trap(Trap),
    /// The input failed.
    ReadFault,
    /// The output failed.
    WriteFault,
    /// The stream of errors failed.
    ErrorsFault,
}

/// How far steps that make no call came.
#[derive(Clone, Copy, Debug, PartialEq, Eq)]
pub enum Progress {
    /// They were done, and the machine goes on.
    GoesOn,
    /// The last one trapped, which ended the machine.
    Trapped,
    /// The next one makes a call.
    AtCall,
}

/// How a run ended. After a fault of a stream its last step wasn't done.
#[derive(Clone, Copy, Debug, PartialEq, Eq)]
pub enum RunEnd {
    /// The program ended itself with this code.
    Exit(u8),
    /// A step trapped.
    Trap(Trap),
    /// The machine goes on, and has counted its budget of steps.
    Spent,
    /// The input failed.
    ReadFault,
    /// The output failed.
    WriteFault,
    /// The stream of errors failed.
    ErrorsFault,
}

/// The answer of a step that was done, by how the machine ended.
pub fn step_end(ended: Option<Ended>) -> StepEnd
    ensures { result ≡ ends.step_end ended }
{
    match ended {
        None => StepEnd::Going,
        Some(Ended::Exit(code)) => StepEnd::Exit(code),
        Some(Ended::Trap(trap)) => StepEnd::Trap(trap),
    }
}

/// The answer of a run by that of its last step.
pub(crate) fn run_end_of(end: StepEnd) -> RunEnd
    ensures { result ≡ ends.run_end_of end }
{
    match end {
        StepEnd::Going => RunEnd::Spent,
        StepEnd::Exit(code) => RunEnd::Exit(code),
        StepEnd::Trap(trap) => RunEnd::Trap(trap),
        StepEnd::ReadFault => RunEnd::ReadFault,
        StepEnd::WriteFault => RunEnd::WriteFault,
        StepEnd::ErrorsFault => RunEnd::ErrorsFault,
    }
}
