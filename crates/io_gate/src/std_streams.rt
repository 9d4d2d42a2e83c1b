//! A source over any reader of std, and a sink over any writer. They tell nothing of the bytes.
ghost use Rattle.std.specs.Prelude.{◌≡◌, ◌<◌, None, length, is_err};
ghost use Rattle.std.specs.Io.KnownBytes.{ReadConsumes, WriteAppends};
ghost use Rattle.io_gate.specs.Streams.{HasCause, TakesAtMost, KeepsRest, PutsSome};
ghost use Rattle.io_gate.specs.Calls.{counts_if};

use crate::streams::{Failed, Sink, Source};
use std::io::{Read, Write};
use std::marker::Model;

/// How many bytes one call reads at most.
const PIECE: usize = 4096;

/// A source over a reader. Each error of the reader is a fault.
#[derive(Drop)]
pub struct StdSource<R> {
    reader: R,
    faults: u64,
}

impl<R> Model for StdSource<R> {
    ghost use Rattle.io_gate.specs.Memory.{Edge, coded_edge};

    ghost Value = { Edge R };

    ghost coded = { coded_edge R.code };

    ghost view = { λ s. record { inner = s.reader; faults = s.faults } };
}

impl<R: Read> StdSource<R> {
    /// A source over this reader.
    pub fn new(reader: R) -> StdSource<R>
        ensures reader { result.inner ≡ reader }
        ensures faults { result.faults ≡ 0 }
    {
        StdSource { reader, faults: 0 }
    }
}

impl<R: Read> Source for StdSource<R> {
    ghost left = { λ _. None };

    ghost faults = { λ s. s.faults };

    fn take(&mut self, into: &mut [u8]) -> Result<usize, Failed>
        requires { 0 < length into.old }
        ensures count { TakesAtMost result into.old }
        ensures rest { KeepsRest into.old into.new result }
        ensures cause { HasCause self.old.faults self.new.faults result }
        ensures passed { ReadConsumes (R.remaining self.old.inner) (R.remaining self.new.inner) result into.new }
        ensures counted { self.new.faults ≡ counts_if (is_err result) self.old.faults }
    {
        let faults = self.faults;
        let result = read_first(&mut self.reader, into);
        if result.is_err() {
            self.faults = faults.saturating_add(1);
        }
        result
    }
}

/// Reads once, into the first bytes of `into`. A reader that fails may have written to what it was
/// lent, so it is lent a piece of its own.
fn read_first<R: Read>(reader: &mut R, into: &mut [u8]) -> Result<usize, Failed>
    requires { 0 < length into.old }
    ensures count { TakesAtMost result into.old }
    ensures rest { KeepsRest into.old into.new result }
    ensures bytes { ReadConsumes (R.remaining reader.old) (R.remaining reader.new) result into.new }
{
    let mut piece = [0; PIECE];
    let room = into.len().min(PIECE);
    let Ok(count) = reader.read(&mut piece[..room]) else {
        return Err(Failed);
    };
    into[..count].copy_from_slice(&piece[..count]);
    Ok(count)
}

/// A sink over a writer. Each error of the writer is a fault, and so is a write of no bytes.
#[derive(Drop)]
pub struct StdSink<W> {
    writer: W,
    faults: u64,
}

impl<W> Model for StdSink<W> {
    ghost use Rattle.io_gate.specs.Memory.{Edge, coded_edge};

    ghost Value = { Edge W };

    ghost coded = { coded_edge W.code };

    ghost view = { λ s. record { inner = s.writer; faults = s.faults } };
}

impl<W: Write> StdSink<W> {
    /// A sink over this writer.
    pub fn new(writer: W) -> StdSink<W>
        ensures writer { result.inner ≡ writer }
        ensures faults { result.faults ≡ 0 }
    {
        StdSink { writer, faults: 0 }
    }
}

impl<W: Write> Sink for StdSink<W> {
    ghost held = { λ _. None };

    ghost faults = { λ s. s.faults };

    fn put(&mut self, piece: &[u8]) -> Result<usize, Failed>
        requires { 0 < length piece.now }
        ensures some { PutsSome result piece.now }
        ensures cause { HasCause self.old.faults self.new.faults result }
        ensures passed { WriteAppends (W.contents self.old.inner) (W.contents self.new.inner) result piece.now }
        ensures counted { self.new.faults ≡ counts_if (is_err result) self.old.faults }
    {
        let faults = self.faults;
        let result = write_first(&mut self.writer, piece);
        if result.is_err() {
            self.faults = faults.saturating_add(1);
        }
        result
    }
}

/// Writes once, the first bytes of `piece`.
fn write_first<W: Write>(writer: &mut W, piece: &[u8]) -> Result<usize, Failed>
    requires { 0 < length piece.now }
    ensures some { PutsSome result piece.now }
    ensures bytes { WriteAppends (W.contents writer.old) (W.contents writer.new) result piece.now }
{
    match writer.write(piece) {
        Ok(count) if count > 0 => Ok(count),
        _ => Err(Failed),
    }
}
