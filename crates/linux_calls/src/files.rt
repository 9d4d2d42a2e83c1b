//! The calls on files: ioctl, read, write, readv, writev.
ghost use Rattle.std.specs.Prelude.{◌≡◌, ◌≤◌, IfOk, IfErr, OnErr, IsTrue, is_err, Err};
ghost use Rattle.io_gate.specs.Streams.{Causes, HasCause};
ghost use Rattle.emu_model.specs.declared.program_break.Break.{Break};
ghost use Rattle.emu_model.specs.Access.{Memory};
ghost use Rattle.emu_model.specs.State.{Vectors};
ghost use Rattle.emu_system.specs.SystemCall as model;
ghost use Rattle.linux_calls.specs.Granted.{AreGranted};
ghost use Rattle.linux_calls.specs.Puts.{FailsAt, HasPut, HasWritten, PutsTo, fault_of};
ghost use Rattle.linux_calls.specs.Replies.{HasBrokenOff, HasTaken, replied};

use crate::arguments::file_of;
use crate::buffer::buffer;
use crate::end::CallEnd;
use crate::entries::{Ranges, read_vector};
use crate::moves::{put_ranges, take_ranges};
use crate::reply::Reply;
use core_regs::Core;
use emu_model::Kind;
use emu_system::{CallName, Errno, Range};
use guest_mem::Mem;
use io_gate::{Failed, Sink, Source};

/// ioctl(file): no file is a terminal.
pub fn ioctl(core: &Core) -> Reply
    ensures { (v : Vectors) (m : Memory) (brk : Break)
        → model.action_of CallName.Ioctl core.now v m brk ≡ replied result }
{
    if file_of(core) < 3 {
        Reply::Error(Errno::ENOTTY)
    } else {
        Reply::Error(Errno::EBADF)
    }
}

/// read(file, address, count): bytes of the input are taken to the buffer, and their number is answered.
pub fn read<S: Source>(core: &Core, mem: &mut Mem, input: &mut S) -> Result<Reply, Failed>
    ensures replied { (v : Vectors) (brk : Break)
        → IfOk result (HasTaken (model.action_of CallName.Read core.now v mem.old.memory brk) mem.old.memory
        mem.new.memory (S.left input.old) (S.left input.new) (input.new ≡ input.old)) }
    ensures failed { (v : Vectors) (brk : Break) → OnErr result (HasBrokenOff
        (model.action_of CallName.Read core.now v mem.old.memory brk) mem.old.memory mem.new.memory
        (S.left input.old) (S.left input.new)) }
    ensures file { OnErr result (model.file_of core.now ≡ 0) }
    ensures marks { mem.new.marks ≡ mem.old.marks }
    ensures cause { HasCause (S.faults input.old) (S.faults input.new) result }
{
    if file_of(core) != 0 {
        return Ok(Reply::Error(Errno::EBADF));
    }
    match buffer(core, mem, Kind::Write) {
        Err(reply) => Ok(reply),
        Ok(range) => take(mem, &[range], input),
    }
}

/// readv(file, address, count): the same to the ranges whose entries stand at the address.
#[inline(never)]
pub fn readv<S: Source>(core: &Core, mem: &mut Mem, input: &mut S) -> Result<Reply, Failed>
    ensures replied { (v : Vectors) (brk : Break)
        → IfOk result (HasTaken (model.action_of CallName.Readv core.now v mem.old.memory brk) mem.old.memory
        mem.new.memory (S.left input.old) (S.left input.new) (input.new ≡ input.old)) }
    ensures failed { (v : Vectors) (brk : Break) → OnErr result (HasBrokenOff
        (model.action_of CallName.Readv core.now v mem.old.memory brk) mem.old.memory mem.new.memory
        (S.left input.old) (S.left input.new)) }
    ensures file { OnErr result (model.file_of core.now ≡ 0) }
    ensures marks { mem.new.marks ≡ mem.old.marks }
    ensures cause { HasCause (S.faults input.old) (S.faults input.new) result }
{
    if file_of(core) != 0 {
        return Ok(Reply::Error(Errno::EBADF));
    }
    let mut ranges = Ranges::new();
    match read_vector(core, mem, Kind::Write, &mut ranges) {
        Err(error) => Ok(Reply::Error(error)),
        Ok(()) => take(mem, ranges.as_slice(), input),
    }
}

/// Takes bytes of the input to ranges.
fn take<S: Source>(mem: &mut Mem, ranges: &[Range], input: &mut S) -> Result<Reply, Failed>
    requires { AreGranted mem.old.memory Kind.Write ranges.now }
    ensures replied { IfOk result (HasTaken (model.takes ranges.now) mem.old.memory mem.new.memory (S.left input.old)
        (S.left input.new) (input.new ≡ input.old)) }
    ensures failed { OnErr result
        (HasBrokenOff (model.takes ranges.now) mem.old.memory mem.new.memory (S.left input.old) (S.left input.new)) }
    ensures marks { mem.new.marks ≡ mem.old.marks }
    ensures cause { HasCause (S.faults input.old) (S.faults input.new) result }
{
    let count = take_ranges(mem, ranges, input)?;
    Ok(Reply::Answer(count))
}

/// write(file, address, count): the bytes of the buffer are put to the file, and their number is answered.
pub fn write<O: Sink, E: Sink>(
    core: &Core,
    mem: &mut Mem,
    output: &mut O,
    errors: &mut E,
) -> Result<Reply, CallEnd>
    ensures written { (v : Vectors) (brk : Break) → HasWritten
        (model.action_of CallName.Write core.now v mem.old.memory brk) mem.old.memory (O.held output.old)
        (O.held output.new) (output.new ≡ output.old) (E.held errors.old) (E.held errors.new)
        (errors.new ≡ errors.old) result }
    ensures file { IfErr result (λ end. end ≡ fault_of (model.file_of core.now)) }
    ensures sink { IfErr result (λ end. IsTrue (model.is_sink (model.file_of core.now))) }
    ensures unchanged { mem.new ≡ mem.old }
    ensures write_cause { Causes (result ≡ Err CallEnd.WriteFault) (O.faults output.old) (O.faults output.new) }
    ensures errors_cause { Causes (result ≡ Err CallEnd.ErrorsFault) (E.faults errors.old) (E.faults errors.new) }
{
    let file = file_of(core);
    if !is_sink(file) {
        return Ok(Reply::Error(Errno::EBADF));
    }
    match buffer(core, mem, Kind::Read) {
        Err(reply) => Ok(reply),
        Ok(range) => put(mem, file, &[range], output, errors),
    }
}

/// writev(file, address, count): the same of the ranges whose entries stand at the address.
#[inline(never)]
pub fn writev<O: Sink, E: Sink>(
    core: &Core,
    mem: &mut Mem,
    output: &mut O,
    errors: &mut E,
) -> Result<Reply, CallEnd>
    ensures written { (v : Vectors) (brk : Break) → HasWritten
        (model.action_of CallName.Writev core.now v mem.old.memory brk) mem.old.memory (O.held output.old)
        (O.held output.new) (output.new ≡ output.old) (E.held errors.old) (E.held errors.new)
        (errors.new ≡ errors.old) result }
    ensures file { IfErr result (λ end. end ≡ fault_of (model.file_of core.now)) }
    ensures sink { IfErr result (λ end. IsTrue (model.is_sink (model.file_of core.now))) }
    ensures unchanged { mem.new ≡ mem.old }
    ensures write_cause { Causes (result ≡ Err CallEnd.WriteFault) (O.faults output.old) (O.faults output.new) }
    ensures errors_cause { Causes (result ≡ Err CallEnd.ErrorsFault) (E.faults errors.old) (E.faults errors.new) }
{
    let file = file_of(core);
    if !is_sink(file) {
        return Ok(Reply::Error(Errno::EBADF));
    }
    let mut ranges = Ranges::new();
    match read_vector(core, mem, Kind::Read, &mut ranges) {
        Err(error) => Ok(Reply::Error(error)),
        Ok(()) => put(mem, file, ranges.as_slice(), output, errors),
    }
}

/// Whether a file is the output or the stream of errors.
fn is_sink(file: u64) -> bool
    ensures { result ≡ model.is_sink file }
{
    file == 1 || file == 2
}

/// Puts the bytes of ranges to file 1, the output, or to file 2, the stream of errors.
fn put<O: Sink, E: Sink>(
    mem: &mut Mem,
    file: u64,
    ranges: &[Range],
    output: &mut O,
    errors: &mut E,
) -> Result<Reply, CallEnd>
    requires file { IsTrue (model.is_sink file) }
    requires granted { AreGranted mem.old.memory Kind.Read ranges.now }
    ensures replied { IfOk result (HasPut (model.puts file ranges.now)) }
    ensures failed { IfErr result (FailsAt (model.puts file ranges.now)) }
    ensures output { PutsTo 1 (model.puts file ranges.now) mem.old.memory (O.held output.old) (O.held output.new)
        (output.new ≡ output.old) (is_err result) }
    ensures errors { PutsTo 2 (model.puts file ranges.now) mem.old.memory (E.held errors.old) (E.held errors.new)
        (errors.new ≡ errors.old) (is_err result) }
    ensures unchanged { mem.new ≡ mem.old }
    ensures write_cause { Causes (result ≡ Err CallEnd.WriteFault) (O.faults output.old) (O.faults output.new) }
    ensures errors_cause { Causes (result ≡ Err CallEnd.ErrorsFault) (E.faults errors.old) (E.faults errors.new) }
{
    if file == 1 {
        if let Err(_) = put_ranges(mem, ranges, output) {
            return Err(CallEnd::WriteFault);
        }
    } else if let Err(_) = put_ranges(mem, ranges, errors) {
        return Err(CallEnd::ErrorsFault);
    }
    Ok(Reply::Answer(total(ranges)))
}

/// The number of bytes of ranges.
fn total(ranges: &[Range]) -> u64
    requires { model.total ranges.now ≤ 0x7FFFF000 }
    ensures { result ≡ model.total ranges.now }
{
    ranges.iter().map(|range| range.length).sum()
}
