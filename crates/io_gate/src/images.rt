//! Files that are read whole, by name.
ghost use Rattle.std.specs.Prelude.{◌≡◌, ◌≤◌, ℕ, Option, IfOk, vec_len, string_bytes};
ghost use Rattle.io_gate.specs.Streams.{Causes};
ghost use Rattle.io_gate.specs.Images.{NamedFiles, ReadsNamed, MissesNamed};

use std::alloc::Global;

/// Why a file was not read.
#[derive(Clone, Copy, Debug, PartialEq, Eq)]
pub enum ImagesError {
    /// Opening or reading failed.
    Failed,
    /// No file has the name.
    Missing,
    /// The file has more bytes than the limit.
    TooLong,
    /// Memory was wanting.
    OutOfMemory,
}

/// Files by name.
pub trait Images {
    /// The bytes of each file by the bytes of its name, where they are told.
    ghost named: { Self → Option NamedFiles };

    /// How often it has failed, up to 2^64 - 1.
    ghost faults: { Self → ℕ };

    /// All bytes of the file, at most `limit` of them. `Failed` comes only where the count rose, and any other answer
    /// leaves the count as it was. Where the files are told, `Missing` comes for a name that none has, and memory is
    /// wanting for no such name.
    fn read_whole(
        &mut self,
        alloc: Global,
        name: &str,
        limit: usize,
    ) -> Result<Vec<u8>, ImagesError>
        ensures files { named self.new ≡ named self.old }
        ensures limit { IfOk result (λ bytes. vec_len bytes ≤ limit) }
        ensures content { ReadsNamed (named self.old) name.now limit result }
        ensures missing { result ≡ Err ImagesError.Missing → MissesNamed (named self.old) name.now }
        ensures cause { Causes (result ≡ Err ImagesError.Failed) (faults self.old) (faults self.new) };
}
