//! The calls that speak of contexts, each made by the context whose registers the machine has.
ghost use Rattle.std.specs.Prelude.{◌≡◌, MatchOption, None, true};
ghost use Rattle.guest_threads.specs.Calls.{IsCalling, IsMade};
ghost use Rattle.emu_run.specs.ThreadCall as model;
ghost use Rattle.emu_run.specs.Worlds as worlds;

use crate::held::Held;
use emu_machine::StepEnd;
use emu_run::{Standing, ThreadCall, ThreadErrno};
use guest_contexts::error_answer;

impl Held {
    /// Makes the call of the context whose registers the machine has, where it makes one and that speaks of contexts.
    /// None exactly where it doesn't, and then nothing is changed.
    pub(crate) fn call(&mut self, calls: bool) -> Option<StepEnd>
        requires { IsCalling self.old }
        ensures made { MatchOption result (calls ≡ true → model.action self.old.world self.old.world.last ≡ model.alone)
            (λ end. (calls ≡ true) × IsMade (model.action self.old.world self.old.world.last) self.old self.new end) }
        ensures kept { result ≡ None → self.new ≡ self.old }
    {
        if calls { self.named_call() } else { None }
    }

    /// The same where a call is made.
    fn named_call(&mut self) -> Option<StepEnd>
        requires { IsCalling self.old }
        ensures made { MatchOption result (model.action self.old.world self.old.world.last ≡ model.alone)
            (λ end. IsMade (model.action self.old.world self.old.world.last) self.old self.new end) }
        ensures kept { result ≡ None → self.new ≡ self.old }
    {
        match self.name() {
            ThreadCall::Clone => Some(self.clone_context()),
            ThreadCall::Futex => Some(self.futex()),
            ThreadCall::Exit => Some(self.exit()),
            ThreadCall::SetTidAddress => Some(self.set_tid_address()),
            ThreadCall::Gettid => Some(self.gettid()),
            ThreadCall::Alone => None,
        }
    }

    /// Refuses a call.
    pub(crate) fn fail(&mut self, error: ThreadErrno) -> StepEnd
        requires { IsCalling self.old }
        ensures { IsMade (model.fails error) self.old self.new result }
    {
        self.answer(error_answer(error));
        StepEnd::Going
    }

    /// The call that sets the clear address, and answers what names the context.
    fn set_tid_address(&mut self) -> StepEnd
        requires { IsCalling self.old }
        ensures { IsMade (model.action_of ThreadCall.SetTidAddress
            (worlds.context self.old.world self.old.world.last).core self.old.world self.old.world.last)
            self.old self.new result }
    {
        let address = self.argument(0);
        let id = self.id();
        self.set_clear(address);
        self.answer(id);
        StepEnd::Going
    }

    /// The call that answers what names the context.
    fn gettid(&mut self) -> StepEnd
        requires { IsCalling self.old }
        ensures { IsMade (model.action_of ThreadCall.Gettid
            (worlds.context self.old.world self.old.world.last).core self.old.world self.old.world.last)
            self.old self.new result }
    {
        let id = self.id();
        self.answer(id);
        StepEnd::Going
    }

    /// The call by which a context leaves: its clear address is cleared, and where all others have left, the run ends.
    fn exit(&mut self) -> StepEnd
        requires { IsCalling self.old }
        ensures { IsMade model.leaves self.old self.new result }
    {
        let value = self.argument(0);
        let code = (value % 256) as u8;
        self.stand(Standing::Gone);
        if self.is_left() {
            self.clear_word();
            self.count_step(Some(code));
            return StepEnd::Exit(code);
        }
        self.clear_word();
        self.count_step(None);
        StepEnd::Going
    }

    /// Stores 0 at the clear address of the context, where there is one and it may be written, and makes ready the
    /// context of the lowest number that waits there.
    fn clear_word(&mut self)
        ensures { self.new ≡ record self.old {
          world = model.cleared self.old.world (worlds.context self.old.world self.old.world.last).clear;
        } }
    {
        let address = self.clear();
        if address == 0 || self.put_word(address, 0) {
            return;
        }
        self.wake(address, 1);
    }
}
