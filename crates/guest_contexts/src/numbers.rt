//! The calls that speak of contexts, by their numbers.
ghost use Rattle.std.specs.Prelude.{◌≡◌};
ghost use Rattle.emu_system.specs.SystemCall.{error_answer};
ghost use Rattle.emu_run.specs.ThreadCall as model;

use core_regs::Core;
use emu_bits::Reg;
use emu_run::{ThreadCall, ThreadErrno};

/// The call whose number is in x8.
pub fn thread_call(core: &Core) -> ThreadCall
    ensures { result ≡ model.thread_call core.now }
{
    match core.x(Reg::at(8, 0)) % 0x1_0000_0000 {
        93 => ThreadCall::Exit,
        96 => ThreadCall::SetTidAddress,
        98 => ThreadCall::Futex,
        178 => ThreadCall::Gettid,
        220 => ThreadCall::Clone,
        _ => ThreadCall::Alone,
    }
}

/// What is answered where a call is refused.
pub fn error_answer(error: ThreadErrno) -> u64
    ensures { result ≡ error_answer (model.error_number error) }
{
    let number = match error {
        ThreadErrno::EAGAIN => 11,
        ThreadErrno::EFAULT => 14,
        ThreadErrno::EINVAL => 22,
        ThreadErrno::ENOSYS => 38,
    };
    u64::MAX - number + 1
}
