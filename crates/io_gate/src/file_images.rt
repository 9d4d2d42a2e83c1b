//! Files of the system, by name. They tell nothing of their bytes.
ghost use Rattle.std.specs.Prelude.{◌≡◌, ◌≢◌, ◌≤◌, None, Some, Ok, Err, IfOk, IfSome, vec_len};
ghost use Rattle.io_gate.specs.Streams.{Causes};
ghost use Rattle.io_gate.specs.Calls.{next_count};
ghost use Rattle.io_gate.specs.Images.{IsAnswerOf, whole_file};

use crate::images::{Images, ImagesError};
use std::alloc::Global;
use std::fs;
use std::io::Read;
use std::marker::Model;
use std::rt::Files;

/// How many bytes one read asks for at most.
const PIECE: usize = 4096;

/// The files of a runtime. Any error of opening or reading is a fault, a missing file among them.
#[derive(Drop)]
pub struct FileImages<'a, R> {
    rt: &'a R,
    faults: u64,
}

impl<'a, R> Model for FileImages<'a, R> {
    ghost use Rattle.io_gate.specs.Memory.{FilesEdge, coded_files_edge};

    ghost Value = { FilesEdge };

    ghost coded = { coded_files_edge };

    ghost view = { λ s. record { faults = s.faults } };
}

impl<'a, R: Files> FileImages<'a, R> {
    /// The files that this runtime reaches.
    pub fn new(rt: &'a R) -> FileImages<'a, R>
        ensures { result.faults ≡ 0 }
    {
        FileImages { rt, faults: 0 }
    }
}

impl<'a, R: Files> Images for FileImages<'a, R> {
    ghost named = { λ _. None };

    ghost faults = { λ s. s.faults };

    fn read_whole(
        &mut self,
        alloc: Global,
        name: &str,
        limit: usize,
    ) -> Result<Vec<u8>, ImagesError>
        ensures limit { IfOk result (λ bytes. vec_len bytes ≤ limit) }
        ensures present { result ≢ Err ImagesError.Missing }
        ensures cause { Causes (result ≡ Err ImagesError.Failed) self.old.faults self.new.faults }
        ensures failed { result ≡ Err ImagesError.Failed → self.new.faults ≡ next_count self.old.faults }
    {
        let faults = self.faults;
        let Ok(mut file) = fs::open(self.rt, name) else {
            self.faults = faults.saturating_add(1);
            return Err(ImagesError::Failed);
        };
        match read_to_limit(&mut file, alloc, limit) {
            Err(ImagesError::Failed) => {
                self.faults = faults.saturating_add(1);
                Err(ImagesError::Failed)
            }
            result => result,
        }
    }
}

/// All that the reader has left, at most `limit` bytes of it.
fn read_to_limit<R: Read>(
    reader: &mut R,
    alloc: Global,
    limit: usize,
) -> Result<Vec<u8>, ImagesError>
    ensures limit { IfOk result (λ bytes. vec_len bytes ≤ limit) }
    ensures content { IfSome (R.remaining reader.old) (λ bytes. IsAnswerOf (whole_file (Some bytes) limit) result) }
    ensures present { result ≢ Err ImagesError.Missing }
{
    let mut bytes = Vec::new(alloc);
    let mut piece = [0; PIECE];
    'pieces: loop {
        let Ok(count) = reader.read(&mut piece) else {
            return Err(ImagesError::Failed);
        };
        if count == 0 {
            return Ok(bytes);
        }
        if count > limit - bytes.len() {
            return Err(ImagesError::TooLong);
        }
        if bytes.extend_from_slice(&piece[..count]).is_err() {
            return Err(ImagesError::OutOfMemory);
        }
    }
}
