//! The ranges that a call is given: a buffer, or entries that stand in the guest's memory.
ghost use Rattle.std.specs.Prelude.{◌≡◌, ◌∷◌, [], List, IfOk, IfErr};
ghost use Rattle.emu_system.specs.SystemCall as model;
ghost use Rattle.linux_calls.specs.Granted.{AreGranted};
ghost use Rattle.linux_calls.specs.Replies.{replied};

use crate::arguments::argument;
use crate::ranges::is_allowed;
use crate::reply::Reply;
use core_regs::Core;
use emu_model::Kind;
use emu_system::{Errno, Range};
use guest_mem::Mem;

/// The most bytes of one call.
pub const MOST_BYTES: u64 = 0x7FFF_F000;

/// The buffer (file, address, count) of a call that needs a right to its bytes. An Err has the reply where no byte is
/// to be moved.
pub fn buffer(core: &Core, mem: &mut Mem, kind: Kind) -> Result<Range, Reply>
    ensures refused { IfErr result (λ reply. (moves : List Range → model.Action)
        → model.with_buffer kind moves core.now mem.old.memory ≡ replied reply) }
    ensures range { IfOk result (λ range. (moves : List Range → model.Action)
        → model.with_buffer kind moves core.now mem.old.memory ≡ moves (range ∷ [])) }
    ensures granted { IfOk result (λ range. AreGranted mem.old.memory kind (range ∷ [])) }
    ensures unchanged { mem.new ≡ mem.old }
{
    let address = argument(core, 1);
    let length = argument(core, 2).min(MOST_BYTES);
    if length == 0 {
        return Err(Reply::Answer(0));
    }
    if !is_allowed(mem, address, length as usize, kind) {
        return Err(Reply::Error(Errno::EFAULT));
    }
    Ok(Range { address, length })
}
