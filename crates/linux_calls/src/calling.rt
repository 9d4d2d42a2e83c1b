//! The call that a program makes.
ghost use Rattle.std.specs.Prelude.{◌≡◌, ◌≤◌, ◌/◌, ℕ, List, Some, IfSome, true, false};
ghost use Rattle.io_gate.specs.Streams.{Causes};
ghost use Rattle.emu_model.specs.SoundState.{IsSoundBreak};
ghost use Rattle.emu_model.specs.AfterCall.{cleared};
ghost use Rattle.emu_model.specs.Writes.{after_call};
ghost use Rattle.emu_system.specs.declared.system_call.Errno.{Errno};
ghost use Rattle.emu_system.specs.SystemCall as model;
ghost use Rattle.linux_calls.specs.Done.{IsAccounted, IsDone};
ghost use Rattle.linux_calls.specs.Ends.{
  OfInput,
  Stores,
  behind,
  caller,
  does_put,
  does_take,
  end_of,
  is_fault,
  is_put_fault,
};
ghost use Rattle.linux_calls.specs.Names.{HasNumber, NamesRead, NamesWrite};
ghost use Rattle.emu_system.specs.Gained.{Gains};
ghost use Rattle.linux_calls.specs.Replies.{value_of};

use crate::arguments::{argument, name_of_call};
use crate::end::CallEnd;
use crate::files::{read, readv, write, writev};
use crate::lengths::prctl;
use crate::reply::Reply;
use crate::still::make_still;
use core_regs::Core;
use emu_bits::Reg;
use emu_model::{Break, Length};
use emu_system::CallName;
use guest_mem::Mem;
use io_gate::{Sink, Source};
use vec_regs::VecRegs;

/// Makes the call whose number is in x8, with its arguments in x0 to x5. The program counter stays at the call.
///
/// File 0 is the input, file 1 the output and file 2 the stream of errors. A fault of one of them is answered exactly
/// where it failed. The registers and the break are then as before the call, bytes that were taken are stored, and
/// bytes that were put stay put. Whatever is answered, the marks of the memory stay as they are. No call wants memory.
pub fn call<I: Source, O: Sink, E: Sink>(
    core: &mut Core,
    vec: &mut VecRegs,
    mem: &mut Mem,
    brk: &mut Break,
    input: &mut I,
    output: &mut O,
    errors: &mut E,
) -> CallEnd
    requires { IsSoundBreak brk.old }
    ensures state { OfInput (model.action (caller core.old vec.old mem.old.memory brk.old)) (I.left input.old)
        (λ bytes. is_fault result ≡ false → behind result core.new vec.new mem.new.memory brk.new
        ≡ (model.call (caller core.old vec.old mem.old.memory brk.old) bytes).parts) }
    ensures input { IfSome (I.left input.old) (λ bytes. is_fault result ≡ false
        → I.left input.new ≡ Some (model.call (caller core.old vec.old mem.old.memory brk.old) bytes).input) }
    ensures output { (bytes : List ℕ) → IfSome (O.held output.old) (λ had. Gains (is_fault result)
        (O.held output.new) had (model.call (caller core.old vec.old mem.old.memory brk.old) bytes).output) }
    ensures errors { (bytes : List ℕ) → IfSome (E.held errors.old) (λ had. Gains (is_fault result)
        (E.held errors.new) had (model.call (caller core.old vec.old mem.old.memory brk.old) bytes).errors) }
    ensures end { is_fault result ≡ false
        → result ≡ end_of (model.action (caller core.old vec.old mem.old.memory brk.old)) }
    ensures sound { IsSoundBreak brk.new }

    // marks are no part of what a call looks at or changes, however it ends
    ensures marks { mem.new.marks ≡ mem.old.marks }

    // an error changes nothing but the registers
    ensures refused { (error : Errno)
        → model.action (caller core.old vec.old mem.old.memory brk.old) ≡ model.fails error
        → (mem.new.memory ≡ mem.old.memory) × (brk.new ≡ brk.old) × (input.new ≡ input.old) × (output.new ≡ output.old)
        × (errors.new ≡ errors.old) }

    // where a stream failed
    ensures kept { is_fault result ≡ true → (core.new ≡ core.old) × (vec.new ≡ vec.old) × (brk.new ≡ brk.old) }
    ensures stored { is_fault result ≡ true → Stores
        (model.action (caller core.old vec.old mem.old.memory brk.old)) mem.old.memory mem.new.memory
        (I.left input.old) (I.left input.new) }
    ensures unstored { is_put_fault result ≡ true → mem.new.memory ≡ mem.old.memory }
    ensures read_cause { Causes (result ≡ CallEnd.ReadFault) (I.faults input.old) (I.faults input.new) }
    ensures write_cause { Causes (result ≡ CallEnd.WriteFault) (O.faults output.old) (O.faults output.new) }
    ensures errors_cause { Causes (result ≡ CallEnd.ErrorsFault) (E.faults errors.old) (E.faults errors.new) }
    ensures read_named { result ≡ CallEnd.ReadFault → NamesRead core.old }
    ensures write_named { result ≡ CallEnd.WriteFault → NamesWrite core.old 1 }
    ensures errors_named { result ≡ CallEnd.ErrorsFault → NamesWrite core.old 2 }

    // a stream that the call doesn't speak of
    ensures untaken { does_take (model.action (caller core.old vec.old mem.old.memory brk.old)) ≡ false
        → input.new ≡ input.old }
    ensures output_kept { does_put 1 (model.action (caller core.old vec.old mem.old.memory brk.old)) ≡ false
        → output.new ≡ output.old }
    ensures errors_kept { does_put 2 (model.action (caller core.old vec.old mem.old.memory brk.old)) ≡ false
        → errors.new ≡ errors.old }
{
    let name = name_of_call(core);
    make(name, core, vec, mem, brk, input, output, errors)
}

/// Makes the call of a name.
fn make<I: Source, O: Sink, E: Sink>(
    name: CallName,
    core: &mut Core,
    vec: &mut VecRegs,
    mem: &mut Mem,
    brk: &mut Break,
    input: &mut I,
    output: &mut O,
    errors: &mut E,
) -> CallEnd
    requires number { HasNumber name (model.number_of_call core.old) }
    requires sound { IsSoundBreak brk.old }
    ensures done { IsDone (model.action_of name core.old vec.old mem.old.memory brk.old) (record {
      core = core.old;
      vectors = vec.old;
      memory = mem.old.memory;
      brk = brk.old;
      left = I.left input.old;
      output = O.held output.old;
      errors = E.held errors.old;
    }) (record {
      core = core.new;
      vectors = vec.new;
      memory = mem.new.memory;
      brk = brk.new;
      left = I.left input.new;
      output = O.held output.new;
      errors = E.held errors.new;
    }) (input.new ≡ input.old) (output.new ≡ output.old) (errors.new ≡ errors.old) result }
    ensures accounted { IsAccounted result core.old mem.old.memory mem.new.memory
        (I.faults input.old) (I.faults input.new) (O.faults output.old) (O.faults output.new)
        (E.faults errors.old) (E.faults errors.new) }
    ensures marks { mem.new.marks ≡ mem.old.marks }
{
    match name {
        CallName::Exit | CallName::ExitGroup => CallEnd::Exit((argument(core, 0) % 256) as u8),
        CallName::Read => match read(core, mem, input) {
            Ok(reply) => answer(core, vec, reply),
            Err(_) => CallEnd::ReadFault,
        },
        CallName::Readv => match readv(core, mem, input) {
            Ok(reply) => answer(core, vec, reply),
            Err(_) => CallEnd::ReadFault,
        },
        CallName::Write => match write(core, mem, output, errors) {
            Ok(reply) => answer(core, vec, reply),
            Err(end) => end,
        },
        CallName::Writev => match writev(core, mem, output, errors) {
            Ok(reply) => answer(core, vec, reply),
            Err(end) => end,
        },
        CallName::Prctl => match prctl(core, vec) {
            Ok(length) => set_length(core, vec, length),
            Err(reply) => answer(core, vec, reply),
        },
        _ => {
            let reply = make_still(name, core, mem, brk);
            answer(core, vec, reply)
        }
    }
}

/// What a call that returns leaves of the registers: its reply is in x0.
fn answer(core: &mut Core, vec: &mut VecRegs, reply: Reply) -> CallEnd
    ensures core { core.new ≡ model.answered_core core.old (value_of reply) }
    ensures vectors { vec.new ≡ after_call vec.old }
    ensures end { result ≡ CallEnd.Returned }
{
    core.set_x(Reg::at(0, 0), 64, reply.value());
    core.set_monitor(None);
    vec.after_call();
    CallEnd::Returned
}

/// What a call that sets the vector length leaves of the registers: the bytes of the length are in x0.
fn set_length(core: &mut Core, vec: &mut VecRegs, length: Length) -> CallEnd
    requires { length ≤ vec.old.most }
    ensures core { core.new ≡ model.answered_core core.old (length / 8) }
    ensures vectors { vec.new ≡ cleared length vec.old }
    ensures end { result ≡ CallEnd.Returned }
{
    core.set_x(Reg::at(0, 0), 64, u64::from(length.bits() / 8));
    core.set_monitor(None);
    vec.set_length(length);
    CallEnd::Returned
}
