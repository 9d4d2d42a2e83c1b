//! How steps of a context ended, as a small name.
ghost use Rattle.std.specs.Prelude.{◌≡◌};
ghost use Rattle.guest_threads.specs.Named.{went_by};

use emu_machine::StepEnd;

/// How steps of a context ended. What code or trap ended the world is with the machine, so that no answer of a loop is
/// in memory.
#[derive(Clone, Copy)]
pub(crate) enum Went {
    /// The world goes on.
    On,
    /// The last step ended the world.
    Over,
    /// The input failed.
    ReadFault,
    /// The output failed.
    WriteFault,
    /// The stream of errors failed.
    ErrorsFault,
}

/// The name of a step's answer.
pub(crate) fn went_by(end: StepEnd) -> Went
    ensures { result ≡ went_by end }
{
    match end {
        StepEnd::Going => Went::On,
        StepEnd::Exit(_) | StepEnd::Trap(_) => Went::Over,
        StepEnd::ReadFault => Went::ReadFault,
        StepEnd::WriteFault => Went::WriteFault,
        StepEnd::ErrorsFault => Went::ErrorsFault,
    }
}
