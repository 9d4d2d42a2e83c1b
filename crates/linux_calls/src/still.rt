//! The calls that move no byte, set no length and don't end the program.
ghost use Rattle.std.specs.Prelude.{◌≡◌, true};
ghost use Rattle.emu_model.specs.State.{Vectors};
ghost use Rattle.emu_model.specs.SoundState.{IsSoundBreak};
ghost use Rattle.emu_system.specs.SystemCall as model;
ghost use Rattle.linux_calls.specs.Names.{is_still};
ghost use Rattle.linux_calls.specs.Replies.{HasDone};

use crate::arguments::argument;
use crate::files::ioctl;
use crate::identity::{PARENT, THREAD, USER};
use crate::memory::{map, move_break, protect, unmap};
use crate::reply::Reply;
use core_regs::Core;
use emu_model::Break;
use emu_system::{CallName, Errno};
use guest_mem::Mem;

/// Makes such a call, and says what it answers.
pub fn make_still(name: CallName, core: &Core, mem: &mut Mem, brk: &mut Break) -> Reply
    requires still { is_still name ≡ true }
    requires sound { IsSoundBreak brk.old }
    ensures done { (v : Vectors)
        → HasDone (model.action_of name core.now v mem.old.memory brk.old) mem.old.memory brk.old
        mem.new.memory brk.new result }
    ensures sound { IsSoundBreak brk.new }
    ensures marks { mem.new.marks ≡ mem.old.marks }
{
    match name {
        CallName::Ioctl => ioctl(core),
        CallName::SetTidAddress | CallName::Getpid | CallName::Gettid => THREAD,
        CallName::Getppid => PARENT,
        CallName::Getuid | CallName::Geteuid | CallName::Getgid | CallName::Getegid => USER,
        CallName::Brk => move_break(mem, brk, argument(core, 0)),
        CallName::Munmap => unmap(mem, argument(core, 0), argument(core, 1)),
        CallName::Mmap => map(mem, argument(core, 1), argument(core, 2), argument(core, 3)),
        CallName::Mprotect => protect(mem, argument(core, 0), argument(core, 1), argument(core, 2)),
        CallName::Unknown => Reply::Error(Errno::ENOSYS),
        CallName::Read | CallName::Readv | CallName::Write | CallName::Writev => unreachable!(),
        CallName::Exit | CallName::ExitGroup | CallName::Prctl => unreachable!(),
    }
}
