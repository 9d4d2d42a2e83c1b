//! The call that starts a context.
ghost use Rattle.std.specs.Prelude.{◌≡◌, ◌<◌, length, false};
ghost use Rattle.guest_threads.specs.Calls.{IsCalling, IsMade, are_unknown, is_parent_refused};
ghost use Rattle.emu_run.specs.ThreadCall as model;
ghost use Rattle.emu_run.specs.Worlds as worlds;

use crate::held::Held;
use crate::parts::has_flag;
use emu_machine::StepEnd;
use emu_run::ThreadErrno;

/// CLONE_VM, FS, FILES, SIGHAND and THREAD, which are asked for.
const NEEDED: u64 = 0x1_0F00;

/// Those, and CLONE_SYSVSEM, SETTLS, PARENT_SETTID, CHILD_CLEARTID and DETACHED, which may be.
const KNOWN: u64 = 0x7D_0F00;

/// Whether a flag isn't there that is asked for, or one is that isn't known.
fn are_unknown(flags: u64) -> bool
    ensures { result ≡ are_unknown flags }
{
    !has_flag(NEEDED, flags) || flags & (u64::MAX - KNOWN) != 0
}

impl Held {
    /// The call of flags, a stack, the address of a word, a thread pointer and a clear address.
    pub(crate) fn clone_context(&mut self) -> StepEnd
        requires { IsCalling self.old }
        ensures { IsMade (model.starting (worlds.context self.old.world self.old.world.last).core self.old.world)
            self.old self.new result }
    {
        let flags = self.argument(0);
        if are_unknown(flags) {
            return self.fail(ThreadErrno::EINVAL);
        }
        if self.is_full() {
            return self.fail(ThreadErrno::EAGAIN);
        }
        if self.is_parent_refused() {
            return self.fail(ThreadErrno::EFAULT);
        }
        self.start()
    }

    /// Whether the parent's word is to be stored and may not be.
    fn is_parent_refused(&mut self) -> bool
        ensures refused { result
            ≡ is_parent_refused (worlds.context self.old.world self.old.world.last).core self.old.world }
        ensures unchanged { self.new ≡ self.old }
    {
        let flags = self.argument(0);
        let parent = self.argument(2);
        has_flag(0x10_0000, flags) && self.is_refused(parent)
    }

    /// Starts a context, whose flags and whose parent's word were tested.
    fn start(&mut self) -> StepEnd
        requires calling { IsCalling self.old }
        requires room { length self.old.world.contexts < 64 }
        requires parent { is_parent_refused (worlds.context self.old.world self.old.world.last).core self.old.world
            ≡ false }
        ensures { IsMade model.starts self.old self.new result }
    {
        let flags = self.argument(0);
        let stack = self.argument(1);
        let tls = self.argument(3);
        let clear = self.argument(4);
        let id = self.next_id();
        self.tell_parent(id);
        self.answer(id);
        let context = self.started(flags, stack, tls, clear);
        self.add(context);
        StepEnd::Going
    }

    /// Stores what names a context where its caller asks for it.
    fn tell_parent(&mut self, id: u64)
        requires id { id ≡ model.thread_id (length self.old.world.contexts) }
        requires parent { is_parent_refused (worlds.context self.old.world self.old.world.last).core self.old.world
            ≡ false }
        ensures { self.new ≡ record self.old {
          world = model.parent_told self.old.world (worlds.context self.old.world self.old.world.last).core;
        } }
    {
        let flags = self.argument(0);
        let parent = self.argument(2);
        if has_flag(0x10_0000, flags) {
            self.put_word(parent, id);
        }
    }
}
