//! How a command ends, and the status that the process then has.
ghost use Rattle.std.specs.Prelude.{◌≡◌};
ghost use Rattle.command_lines.specs.Statuses.{status_of};

use command_model::WordsFault;
use dbg_model::ScriptFault;
use emu_model::Trap;
use emu_system::ElfFault;
use guest_schedule::ScheduleFault;
use listing_model::ListingFault;

/// How a command ended.
#[derive(Clone, Copy, Debug, PartialEq, Eq)]
pub enum Ending {
    /// The program ended itself with this code.
    Exit(u8),
    /// The program trapped at this address of the program counter.
    Trap(Trap, u64),
    /// The step budget was spent.
    Spent,
    /// No context of the program was ready.
    Stuck,
    /// `asm`, `dis`, `dbg`, `load` or `sweep` came to its end.
    Done,
    /// The command line was refused.
    WordsRefused(WordsFault),
    /// The file isn't an image that can be run.
    ImageRefused(ElfFault),
    /// The listing was refused.
    ListingRefused(ListingFault),
    /// The script was refused.
    ScriptRefused(ScriptFault),
    /// The schedule was refused.
    ScheduleRefused(ScheduleFault),
    /// A file is longer than this many bytes; or, of `sweep` and of a session that goes back, the input is, or, of
    /// `sweep`, the output or the errors of a run are.
    TooLong(u64),
    /// A file couldn't be read, or there is none of its name.
    FileFault,
    /// The input failed.
    ReadFault,
    /// The output failed.
    WriteFault,
    /// The stream of errors failed.
    ErrorsFault,
    /// There was no memory left.
    OutOfMemory,
}

impl Ending {
    /// The status of the process: the program's own, 128 plus the signal of a trap, 0 where `asm`, `dis`, `dbg`, `load`
    /// or `sweep` came to its end, or one from 119 to 127.
    pub fn status(&self) -> u8
        ensures { result ≡ status_of self.now }
    {
        match self {
            Ending::Exit(code) => *code,
            Ending::Trap(trap, _) => 128 + trap.signal(),
            Ending::Done => 0,
            Ending::Spent => 123,
            Ending::Stuck => 119,
            Ending::WordsRefused(_) => 121,
            Ending::ImageRefused(_) | Ending::ListingRefused(_) => 122,
            Ending::ScriptRefused(_) | Ending::ScheduleRefused(_) => 122,
            Ending::TooLong(_) => 127,
            Ending::FileFault => 126,
            Ending::ReadFault => 124,
            Ending::WriteFault | Ending::ErrorsFault => 125,
            Ending::OutOfMemory => 120,
        }
    }
}
