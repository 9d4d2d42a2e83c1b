//! The call by which contexts wait for a word to be changed, and wake each other.
ghost use Rattle.std.specs.Prelude.{◌≡◌};
ghost use Rattle.guest_threads.specs.Calls.{IsCalling, IsMade};
ghost use Rattle.emu_run.specs.ThreadCall as model;
ghost use Rattle.emu_run.specs.Worlds as worlds;

use crate::held::Held;
use emu_machine::StepEnd;
use emu_run::{Standing, ThreadErrno};

/// The operation that a number tells, with FUTEX_PRIVATE_FLAG or without.
fn operation(op: u64) -> u64
    ensures { result ≡ model.operation op }
{
    (op % 0x1_0000_0000) & 0xFFFF_FF7F
}

impl Held {
    /// The call of an address, an operation, a number and a time.
    pub(crate) fn futex(&mut self) -> StepEnd
        requires { IsCalling self.old }
        ensures { IsMade (model.futex (worlds.context self.old.world self.old.world.last).core self.old.world.memory)
            self.old self.new result }
    {
        let address = self.argument(0);
        let asked = self.argument(1);
        let value = self.argument(2);
        let op = operation(asked);
        if op > 1 {
            return self.fail(ThreadErrno::ENOSYS);
        }
        if address % 4 != 0 {
            return self.fail(ThreadErrno::EINVAL);
        }
        if op == 0 {
            return self.wait();
        }
        self.wake_waiting(address, value % 0x1_0000_0000)
    }

    /// Waits at the word of an address, where it is the one that is expected.
    fn wait(&mut self) -> StepEnd
        requires { IsCalling self.old }
        ensures { IsMade (model.waiting (worlds.context self.old.world self.old.world.last).core self.old.world.memory)
            self.old self.new result }
    {
        let address = self.argument(0);
        let value = self.argument(2);
        let time = self.argument(3);
        let Some(word) = self.word(address) else {
            return self.fail(ThreadErrno::EFAULT);
        };
        if time != 0 {
            return self.fail(ThreadErrno::ENOSYS);
        }
        if word != value % 0x1_0000_0000 {
            return self.fail(ThreadErrno::EAGAIN);
        }
        self.wait_at(address)
    }

    /// Returns from the call, and waits at an address.
    fn wait_at(&mut self, address: u64) -> StepEnd
        requires { IsCalling self.old }
        ensures { IsMade (model.waits address) self.old self.new result }
    {
        self.answer(0);
        self.stand(Standing::Waiting(address));
        StepEnd::Going
    }

    /// Wakes at most so many contexts that wait at an address.
    fn wake_waiting(&mut self, address: u64, most: u64) -> StepEnd
        requires { IsCalling self.old }
        ensures { IsMade (model.wakes address most) self.old self.new result }
    {
        let count = self.wake(address, most);
        self.answer(count);
        StepEnd::Going
    }
}
