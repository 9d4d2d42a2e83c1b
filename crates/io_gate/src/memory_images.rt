//! Files in memory.
ghost use Rattle.std.specs.Prelude.{
  ◌≡◌,
  ◌≢◌,
  ◌<◌,
  ◌≤◌,
  ◌^◌,
  ◌↔◌,
  Some,
  None,
  true,
  IfOk,
  Ok,
  Err,
  IsOk,
  IsTrue,
  vec_len,
  option_map,
};
ghost use Rattle.std.specs.FinMap.{get};
ghost use Rattle.io_gate.specs.Streams.{Causes};
ghost use Rattle.io_gate.specs.Images.{ReadsNamed, MissesNamed, whole_file};
ghost use Rattle.io_gate.specs.FileLists.{named_files};
ghost use Rattle.io_gate.specs.Calls.{is_due, uncalled, after_call};

use crate::calls::FailingCalls;
use crate::images::{Images, ImagesError};
use std::alloc::Global;
use std::marker::Model;

/// Files in memory, by name. Some of its calls fail, by their numbers.
#[derive(Drop)]
pub struct MemImages {
    files: Vec<(String, Vec<u8>)>,
    calls: FailingCalls,
}

impl Model for MemImages {
    ghost use Rattle.io_gate.specs.Memory.{Shelf, coded_shelf};
    ghost use Rattle.io_gate.specs.FileLists.{named_files};

    ghost Value = { Shelf };

    ghost coded = { coded_shelf };

    ghost view = { λ s. record { files = named_files s.files.items; calls = s.calls } };
}

impl MemImages {
    /// These files. Where a name stands twice, its first pair counts. The calls whose numbers, counted
    /// from 0, stand in `fails` fail.
    pub fn new(files: Vec<(String, Vec<u8>)>, fails: Vec<u64>) -> MemImages
        ensures files { result.files ≡ named_files files.items }
        ensures calls { result.calls ≡ uncalled fails.items }
    {
        MemImages {
            files,
            calls: FailingCalls::new(fails),
        }
    }
}

impl Images for MemImages {
    ghost named = { λ s. Some s.files };

    ghost faults = { λ s. s.calls.faults };

    fn read_whole(
        &mut self,
        alloc: Global,
        name: &str,
        limit: usize,
    ) -> Result<Vec<u8>, ImagesError>
        ensures files { Some self.new.files ≡ Some self.old.files }
        ensures limit { IfOk result (λ bytes. vec_len bytes ≤ limit) }
        ensures content { ReadsNamed (Some self.old.files) name.now limit result }
        ensures missing { result ≡ Err ImagesError.Missing → MissesNamed (Some self.old.files) name.now }
        ensures cause { Causes (result ≡ Err ImagesError.Failed) self.old.calls.faults self.new.calls.faults }
        ensures wanting { result ≡ Err ImagesError.OutOfMemory → IsOk (whole_file (get self.old.files name.now) limit) }
        ensures fails { result ≡ Err ImagesError.Failed ↔ IsTrue (is_due self.old.calls) }
        ensures calls { self.new.calls ≡ after_call (is_due self.old.calls) self.old.calls }
    {
        if self.calls.call().is_err() {
            return Err(ImagesError::Failed);
        }
        read_named(alloc, &self.files, name, limit)
    }
}

/// The first file of the name, whole.
pub fn read_named(
    alloc: Global,
    files: &[(String, Vec<u8>)],
    name: &str,
    limit: usize,
) -> Result<Vec<u8>, ImagesError>
    ensures limit { IfOk result (λ bytes. vec_len bytes ≤ limit) }
    ensures content { ReadsNamed (Some (named_files files.now)) name.now limit result }
    ensures missing { result ≡ Err ImagesError.Missing → MissesNamed (Some (named_files files.now)) name.now }
    ensures wanting { result ≡ Err ImagesError.OutOfMemory
        → IsOk (whole_file (get (named_files files.now) name.now) limit) }
    ensures unfailing { result ≢ Err ImagesError.Failed }
{
    let Some(bytes) = file_of(files, name) else {
        return Err(ImagesError::Missing);
    };
    if bytes.len() > limit {
        return Err(ImagesError::TooLong);
    }
    let Ok(copy) = Vec::from_slice(alloc, bytes) else {
        return Err(ImagesError::OutOfMemory);
    };
    Ok(copy)
}

/// The bytes of the first file of the name.
fn file_of<'a>(files: &'a [(String, Vec<u8>)], name: &str) -> Option<&'a [u8]>
    ensures { option_map (λ bytes. bytes.now) result ≡ get (named_files files.now) name.now }
{
    for (known, bytes) in files {
        if name == known.as_str() {
            return Some(bytes);
        }
    }
    None
}
