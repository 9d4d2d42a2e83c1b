//! Why a session is broken off.
ghost use Rattle.std.specs.Prelude.{◌≡◌, is_err};
ghost use Rattle.dbg_back.specs.Ends.{is_fault};

use debug_walk::BackEnd;
use io_gate::Failed;
use std::alloc::AllocError;

/// Why a session is broken off.
#[derive(Clone, Copy)]
pub enum Broken {
    /// Memory was wanting.
    OutOfMemory,
    /// The lines of commands failed.
    Input,
    /// The output failed.
    Output,
    /// The stream of errors failed.
    Errors,
}

impl From<AllocError> for Broken {
    ghost use Rattle.debug_moves.specs.declared.ends.Broken.TheVariants.{OutOfMemory};

    ghost from_gives = { λ _ e. e ≡ OutOfMemory };

    fn from(_: AllocError) -> Broken {
        Broken::OutOfMemory
    }
}

impl From<Failed> for Broken {
    ghost use Rattle.debug_moves.specs.declared.ends.Broken.TheVariants.{Output};

    ghost from_gives = { λ _ e. e ≡ Output };

    fn from(_: Failed) -> Broken {
        Broken::Output
    }
}

/// What comes of a walk.
pub fn done(end: BackEnd) -> Result<(), Broken>
    ensures { is_err result ≡ is_fault end }
{
    match end {
        BackEnd::Done => Ok(()),
        BackEnd::WriteFault => Err(Broken::Output),
        BackEnd::ErrorsFault => Err(Broken::Errors),
    }
}
