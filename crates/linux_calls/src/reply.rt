//! What a call answers.
ghost use Rattle.std.specs.Prelude.{◌≡◌};
ghost use Rattle.emu_system.specs.SystemCall as model;
ghost use Rattle.linux_calls.specs.Replies.{value_of};

use emu_system::Errno;

/// A number, or an error.
#[derive(Clone, Copy, Debug)]
pub enum Reply {
    Answer(u64),
    Error(Errno),
}

impl Reply {
    /// The same in x0: an error is 2^64 less its number.
    pub fn value(self) -> u64
        ensures { result ≡ value_of self }
    {
        match self {
            Reply::Answer(value) => value,
            Reply::Error(error) => u64::MAX - number_of(error) + 1,
        }
    }
}

fn number_of(error: Errno) -> u64
    ensures { result ≡ model.error_number error }
{
    match error {
        Errno::EBADF => 9,
        Errno::ENOMEM => 12,
        Errno::EFAULT => 14,
        Errno::EINVAL => 22,
        Errno::ENOTTY => 25,
        Errno::ENOSYS => 38,
    }
}
