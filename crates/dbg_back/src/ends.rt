//! How a session that may go back ends.
ghost use Rattle.std.specs.Prelude.{◌≡◌, ◌≢◌};
ghost use Rattle.dbg_back.specs.Ends.{end_of_put, end_of_run};

use emu_machine::RunEnd;
use io_gate::Failed;

/// How a session ended.
#[derive(Clone, Copy, Debug, PartialEq, Eq)]
pub enum BackEnd {
    /// All commands were obeyed.
    Done,
    /// The output failed, by a write of the program or by a line of the session.
    WriteFault,
    /// The stream of errors failed.
    ErrorsFault,
}

/// The answer by that of a run whose input can't fail.
pub fn end_of_run(end: RunEnd) -> BackEnd
    requires { end ≢ RunEnd.ReadFault }
    ensures { result ≡ end_of_run end }
{
    match end {
        RunEnd::Exit(_) | RunEnd::Trap(_) | RunEnd::Spent => BackEnd::Done,
        RunEnd::ReadFault => unreachable!(),
        RunEnd::WriteFault => BackEnd::WriteFault,
        RunEnd::ErrorsFault => BackEnd::ErrorsFault,
    }
}

/// The answer by that of a line that was put to the output.
pub fn end_of_put(put: Result<(), Failed>) -> BackEnd
    ensures { result ≡ end_of_put put }
{
    match put {
        Ok(()) => BackEnd::Done,
        Err(Failed) => BackEnd::WriteFault,
    }
}
