//! A source and files in memory that never fail.
ghost use Rattle.std.specs.Prelude.{◌≡◌, ◌≢◌, ◌<◌, ◌≤◌, Some, Ok, Err, IfOk, IsOk, length, vec_len};
ghost use Rattle.std.specs.FinMap.{get};
ghost use Rattle.io_gate.specs.Streams.{HasCause, Causes, TakesAtMost, TakesFirst, TakesSome, KeepsRest};
ghost use Rattle.io_gate.specs.Images.{ReadsNamed, MissesNamed, whole_file};
ghost use Rattle.io_gate.specs.FileLists.{named_files};
ghost use Rattle.io_gate.specs.Memory.{portion};

use crate::images::{Images, ImagesError};
use crate::memory::Stock;
use crate::memory_images::read_named;
use crate::streams::{Failed, Source};
use std::alloc::Global;
use std::marker::Model;

/// A source that gives bytes from memory and never fails.
#[derive(Drop)]
pub struct NoFaultSource {
    stock: Stock,
}

impl Model for NoFaultSource {
    ghost use Rattle.io_gate.specs.Memory.{Supplied, coded_supplied};

    ghost Value = { Supplied };

    ghost coded = { coded_supplied };

    ghost view = { λ s. s.stock };
}

impl NoFaultSource {
    /// A source of these bytes. It gives at most `most` bytes a call.
    pub fn new(bytes: Vec<u8>, most: usize) -> NoFaultSource
        requires { 1 ≤ most }
        ensures left { result.left ≡ bytes.items }
        ensures most { result.most ≡ most }
    {
        NoFaultSource {
            stock: Stock::new(bytes, most),
        }
    }
}

impl Source for NoFaultSource {
    ghost left = { λ s. Some s.left };

    ghost faults = { λ _. 0 };

    fn take(&mut self, into: &mut [u8]) -> Result<usize, Failed>
        requires { 0 < length into.old }
        ensures count { TakesAtMost result into.old }
        ensures bytes { TakesFirst (Some self.old.left) (Some self.new.left) into.new result }
        ensures some { TakesSome (Some self.old.left) result }
        ensures rest { KeepsRest into.old into.new result }
        ensures cause { HasCause 0 0 result }
        ensures portion { result ≡ Ok (portion self.old (length into.old)) }
        ensures most { self.new.most ≡ self.old.most }
    {
        Ok(self.stock.give(into))
    }
}

/// Files in memory, by name, which never fail.
#[derive(Drop)]
pub struct NoFaultImages {
    files: Vec<(String, Vec<u8>)>,
}

impl Model for NoFaultImages {
    ghost use Rattle.std.specs.Prelude.{List, ℕ};
    ghost use Rattle.std.specs.Coded.{coded_ℕ, coded_list};
    ghost use Rattle.std.specs.FinMap as map;
    ghost use Rattle.io_gate.specs.Images.{NamedFiles};
    ghost use Rattle.io_gate.specs.FileLists.{named_files};

    ghost Value = { NamedFiles };

    ghost coded = { map.code (coded_list coded_ℕ) (coded_list coded_ℕ) };

    ghost view = { λ s. named_files s.files.items };
}

impl NoFaultImages {
    /// These files. Where a name stands twice, its first pair counts.
    pub fn new(files: Vec<(String, Vec<u8>)>) -> NoFaultImages
        ensures { result ≡ named_files files.items }
    {
        NoFaultImages { files }
    }
}

impl Images for NoFaultImages {
    ghost named = { λ s. Some s };

    ghost faults = { λ _. 0 };

    fn read_whole(
        &mut self,
        alloc: Global,
        name: &str,
        limit: usize,
    ) -> Result<Vec<u8>, ImagesError>
        ensures files { Some self.new ≡ Some self.old }
        ensures limit { IfOk result (λ bytes. vec_len bytes ≤ limit) }
        ensures content { ReadsNamed (Some self.old) name.now limit result }
        ensures missing { result ≡ Err ImagesError.Missing → MissesNamed (Some self.old) name.now }
        ensures cause { Causes (result ≡ Err ImagesError.Failed) 0 0 }
        ensures wanting { result ≡ Err ImagesError.OutOfMemory → IsOk (whole_file (get self.old name.now) limit) }
        ensures unfailing { result ≢ Err ImagesError.Failed }
    {
        read_named(alloc, &self.files, name, limit)
    }
}
