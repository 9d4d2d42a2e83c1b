//! What is read before a program is run: its file, and the input to its end.
ghost use Rattle.std.specs.Prelude.{◌≡◌, ◌≢◌, ◌≤◌, ◌⊎◌, [], Some, IfErr, IfOk, IfSome, OnOk, false, vec_len};
ghost use Rattle.std.specs.FinMap.{get};
ghost use Rattle.io_gate.specs.Images.{whole_file, MissesNamed};
ghost use Rattle.io_gate.specs.Streams.{Rose};
ghost use Rattle.command_lines.specs.Outcome.{file_limit};
ghost use Rattle.command_model.specs.Sweep.{stream_limit};
ghost use Rattle.commands.specs.Promises.{is_failure};
ghost use Rattle.tool_refusals.specs.Endings.{EndsOver, Leaves, ReadsFile};

use crate::saying::say;
use command_lines::Ending;
use io_gate::{Images, ImagesError, ReadEnd, Sink, Source, read_all};
use std::alloc::Global;

/// The most bytes of a file.
const FILE_LIMIT: u64 = 67_108_864;

/// The most bytes of the input.
const INPUT_LIMIT: u64 = 16_777_216;

/// The bytes of a file, at most 67,108,864. Err is how the command ends without them: FileFault where reading failed or
/// no file has the name, TooLong, or ErrorsFault behind the line that tells of these; or OutOfMemory.
pub fn file_bytes<F: Images, E: Sink>(
    alloc: Global,
    name: &str,
    files: &mut F,
    errors: &mut E,
) -> Result<Vec<u8>, Ending>
    ensures content { IfSome (F.named files.old)
        (λ named. ReadsFile (whole_file (get named name.now) file_limit) result) }
    ensures leaves { IfErr result (λ ending. Leaves ending (Unit {0}) (Unit {0}) (errors.new ≡ errors.old)
        (Rose (F.faults files.old) (F.faults files.new) ⊎ MissesNamed (F.named files.old) name.now) ⊥ ⊥
        (Rose (E.faults errors.old) (E.faults errors.new))) }
    ensures still { OnOk result (errors.new ≡ errors.old) }
    ensures undone { IfErr result (λ ending. ending ≢ Ending.Done) }
{
    match files.read_whole(alloc, name, FILE_LIMIT as usize) {
        Ok(bytes) => Ok(bytes),
        Err(ImagesError::Failed) => Err(say(
            alloc,
            name,
            "isn't there, or can't be read",
            Ending::FileFault,
            errors,
        )),
        Err(ImagesError::Missing) => Err(say(
            alloc,
            name,
            "isn't there, or can't be read",
            Ending::FileFault,
            errors,
        )),
        Err(ImagesError::TooLong) => Err(say(
            alloc,
            name,
            "has more than 67,108,864 bytes",
            Ending::TooLong(FILE_LIMIT),
            errors,
        )),
        Err(ImagesError::OutOfMemory) => Err(Ending::OutOfMemory),
    }
}

/// The input, at most 16,777,216 bytes. Err is how the command ends without it: ReadFault, TooLong, or ErrorsFault
/// behind the line that tells of that; or OutOfMemory.
pub fn input_bytes<I: Source, E: Sink>(
    alloc: Global,
    input: &mut I,
    errors: &mut E,
) -> Result<Vec<u8>, Ending>
    ensures content { IfSome (I.left input.old)
        (λ left. IfOk result (λ bytes. (bytes.items ≡ left) × (I.left input.new ≡ Some []))) }
    ensures limit { IfOk result (λ bytes. vec_len bytes ≤ stream_limit) }
    ensures over { IfErr result (λ ending. is_failure ending ≡ false → EndsOver (I.left input.old) ending) }
    ensures leaves { IfErr result (λ ending. Leaves ending (input.new ≡ input.old) (Unit {0})
        (errors.new ≡ errors.old) ⊥ (Rose (I.faults input.old) (I.faults input.new)) ⊥
        (Rose (E.faults errors.old) (E.faults errors.new))) }
    ensures still { OnOk result (errors.new ≡ errors.old) }
    ensures undone { IfErr result (λ ending. ending ≢ Ending.Done) }
{
    match read_all(alloc, input, INPUT_LIMIT as usize) {
        Ok(bytes) => Ok(bytes),
        Err(ReadEnd::Failed) => Err(Ending::ReadFault),
        Err(ReadEnd::OutOfMemory) => Err(Ending::OutOfMemory),
        Err(ReadEnd::TooLong) => Err(say(
            alloc,
            "the input",
            "has more than 16,777,216 bytes",
            Ending::TooLong(INPUT_LIMIT),
            errors,
        )),
    }
}
