//! Files as commands read them, and the endings behind what is put to a sink.
ghost use Rattle.std.specs.Prelude.{◌≡◌, ◌≢◌, ◌≤◌, ◌⊎◌, IfErr, IfOk, IfSome, OnOk, Ok, Err, vec_len, true};
ghost use Rattle.std.specs.FinMap.{get};
ghost use Rattle.io_gate.specs.Images.{MissesNamed};
ghost use Rattle.io_gate.specs.Streams.{Rose, Causes};
ghost use Rattle.command_lines.specs.Outcome.{file_limit};
ghost use Rattle.commands.specs.Endings.{done_by, ended_by};
ghost use Rattle.commands.specs.Lines.{stops_any};
ghost use Rattle.commands.specs.Reading.{EndsUnread, GivesFile};

use command_lines::Ending;
use emu_report::put_too_long;
use io_gate::{Failed, Images, ImagesError, Sink};
use std::alloc::Global;

/// Files are read up to so many bytes.
pub const FILE_LIMIT: u64 = 67_108_864;

/// The ending behind a line on the errors: the command's own where all of it was put, else a fault of the errors.
pub fn ending_after_line(put: Result<(), Failed>, ending: Ending) -> Ending
    ensures { result ≡ ended_by put ending }
{
    match put {
        Ok(()) => ending,
        Err(_) => Ending::ErrorsFault,
    }
}

/// The ending behind the whole output of a command.
pub fn ending_after_output(put: Result<(), Failed>) -> Ending
    ensures { result ≡ done_by put }
{
    match put {
        Ok(()) => Ending::Done,
        Err(_) => Ending::WriteFault,
    }
}

/// The bytes of a file, at most `FILE_LIMIT`. Err is how the command ends without them: by a fault of the files where
/// reading failed or none has the name, by TooLong behind its line where the file is longer, or by want of memory.
pub fn file_bytes<F: Images, E: Sink>(
    alloc: Global,
    name: &str,
    files: &mut F,
    errors: &mut E,
) -> Result<Vec<u8>, Ending>
    ensures told { F.named files.new ≡ F.named files.old }
    ensures content { IfSome (F.named files.old)
        (λ named. GivesFile (get named name.now) result (E.held errors.old) (E.held errors.new)) }
    ensures kind { IfErr result (λ ending. stops_any ending ≡ true) }
    ensures limit { IfOk result (λ bytes. vec_len bytes ≤ file_limit) }
    ensures unread { IfErr result (EndsUnread (F.named files.old) name.now) }
    ensures missing { MissesNamed (F.named files.old) name.now → result ≡ Err Ending.FileFault }
    ensures file_cause { result ≡ Err Ending.FileFault
        → Rose (F.faults files.old) (F.faults files.new) ⊎ MissesNamed (F.named files.old) name.now }
    ensures file_kept { result ≢ Err Ending.FileFault → F.faults files.new ≡ F.faults files.old }
    ensures files_later { F.faults files.old ≤ F.faults files.new }
    ensures errors_cause { Causes (result ≡ Err Ending.ErrorsFault) (E.faults errors.old) (E.faults errors.new) }
    ensures read_still { OnOk result (errors.new ≡ errors.old) }
    ensures file_still { result ≡ Err Ending.FileFault → errors.new ≡ errors.old }
    ensures memory_still { result ≡ Err Ending.OutOfMemory → errors.new ≡ errors.old }
{
    match files.read_whole(alloc, name, FILE_LIMIT as usize) {
        Ok(bytes) => Ok(bytes),
        Err(ImagesError::Failed) => Err(Ending::FileFault),
        Err(ImagesError::Missing) => Err(Ending::FileFault),
        Err(ImagesError::TooLong) => Err(ending_after_line(
            put_too_long(FILE_LIMIT, errors),
            Ending::TooLong(FILE_LIMIT),
        )),
        Err(ImagesError::OutOfMemory) => Err(Ending::OutOfMemory),
    }
}
