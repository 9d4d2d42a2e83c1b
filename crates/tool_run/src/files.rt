//! The files of a line, and what is said where one isn't read.
ghost use Rattle.std.specs.Prelude.{◌≡◌, ◌≤◌, ◌⊎◌, IfErr, IfOk, IfSome, Err, false, true, vec_len};
ghost use Rattle.std.specs.FinMap.{get};
ghost use Rattle.io_gate.specs.Images.{MissesNamed};
ghost use Rattle.io_gate.specs.Streams.{Rose};
ghost use Rattle.command_lines.specs.Outcome.{file_limit};
ghost use Rattle.tool_run.specs.Still.{is_still, Reads};

use crate::ends::{Told, silent, with_text};
use crate::refusals::file_text;
use command_lines::Ending;
use io_gate::{Images, ImagesError};
use std::alloc::Global;

/// Files are read up to so many bytes.
const FILE_LIMIT: u64 = 67_108_864;

/// The bytes of a file, at most 67,108,864. Err is how the command ends without them: by a fault of the files where
/// reading failed or none has the name, by TooLong where the file is longer, or by want of memory.
pub fn whole_bytes<F: Images>(alloc: Global, name: &str, files: &mut F) -> Result<Vec<u8>, Ending>
    ensures told { F.named files.new ≡ F.named files.old }
    ensures content { IfSome (F.named files.old) (λ named. Reads (get named name.now) result) }
    ensures limit { IfOk result (λ bytes. vec_len bytes ≤ file_limit) }
    ensures still { IfErr result (λ ending. is_still ending ≡ true) }
    ensures file_cause { result ≡ Err Ending.FileFault
        → Rose (F.faults files.old) (F.faults files.new) ⊎ MissesNamed (F.named files.old) name.now }
    ensures files_later { F.faults files.old ≤ F.faults files.new }
{
    match files.read_whole(alloc, name, FILE_LIMIT as usize) {
        Ok(bytes) => Ok(bytes),
        Err(ImagesError::Failed) => Err(Ending::FileFault),
        Err(ImagesError::Missing) => Err(Ending::FileFault),
        Err(ImagesError::TooLong) => Err(Ending::TooLong(FILE_LIMIT)),
        Err(ImagesError::OutOfMemory) => Err(Ending::OutOfMemory),
    }
}

/// An ending without the bytes of a file, and what is said of it.
pub fn unread(alloc: Global, name: &str, ending: Ending) -> Told
    ensures ending { result.ending ≡ ending }
    ensures report { result.report_failed ≡ false }
{
    match ending {
        Ending::FileFault => with_text(
            alloc,
            ending,
            file_text(alloc, name, "isn't there, or can't be read"),
        ),
        Ending::TooLong(_) => with_text(
            alloc,
            ending,
            file_text(alloc, name, "has more than 67,108,864 bytes"),
        ),
        _ => silent(alloc, ending),
    }
}
