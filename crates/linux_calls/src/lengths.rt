//! prctl, which tells the vector length and sets it.
ghost use Rattle.std.specs.Prelude.{◌≡◌, ◌≤◌, ◌*◌, min, true, IfErr, IfOk};
ghost use Rattle.emu_model.specs.declared.program_break.Break.{Break};
ghost use Rattle.emu_model.specs.Access.{Memory};
ghost use Rattle.emu_system.specs.SystemCall as model;
ghost use Rattle.linux_calls.specs.Replies.{replied};

use crate::arguments::argument;
use crate::reply::Reply;
use core_regs::Core;
use emu_model::Length;
use emu_system::{CallName, Errno};
use vec_regs::VecRegs;

/// prctl's option that sets the vector length.
const PR_SVE_SET_VL: u64 = 50;

/// prctl's option that asks for the vector length.
const PR_SVE_GET_VL: u64 = 51;

/// prctl(option, bytes): Ok is the vector length that it sets, which is at most the starting one. Err is what it
/// answers where it sets none.
pub fn prctl(core: &Core, vec: &VecRegs) -> Result<Length, Reply>
    ensures set { (m : Memory) (brk : Break)
        → IfOk result (λ bits. model.action_of CallName.Prctl core.now vec.now m brk ≡ model.sets_length bits) }
    ensures within { IfOk result (λ bits. bits ≤ vec.now.most) }
    ensures replied { (m : Memory) (brk : Break)
        → IfErr result (λ reply. model.action_of CallName.Prctl core.now vec.now m brk ≡ replied reply) }
{
    let option = argument(core, 0);
    if option == PR_SVE_GET_VL {
        return Err(Reply::Answer(u64::from(vec.length().bits() / 8)));
    }
    if option != PR_SVE_SET_VL {
        return Err(Reply::Error(Errno::EINVAL));
    }
    let bytes = argument(core, 1);
    if !is_length_in_bytes(bytes) {
        return Err(Reply::Error(Errno::EINVAL));
    }
    Ok(lesser_length(bytes, vec.most()))
}

/// Whether so many bytes may be asked for: a multiple of 16 from 16 to 8,192.
fn is_length_in_bytes(bytes: u64) -> bool
    ensures { result ≡ model.is_length_in_bytes bytes }
{
    bytes % 16 == 0 && 16 <= bytes && bytes <= 8192
}

/// The lesser of what is asked for in bytes and the starting length.
fn lesser_length(bytes: u64, most: Length) -> Length
    requires { model.is_length_in_bytes bytes ≡ true }
    ensures { result ≡ min (8 * bytes) most }
{
    match Length::of_bits(8 * bytes as u32) {
        None => most,
        Some(length) => lesser(length, most),
    }
}

/// The lesser of two lengths.
fn lesser(length: Length, most: Length) -> Length
    ensures { result ≡ min length most }
{
    if length.bits() < most.bits() {
        length
    } else {
        most
    }
}
