//! Streams of bytes that come in and go out.
ghost use Rattle.std.specs.Prelude.{◌≡◌, ◌<◌, ◌≤◌, ℕ, List, [], Option, length, IfOk, IfSome, IsOk};
ghost use Rattle.io_gate.specs.Streams.{HasCause, TakesAtMost, TakesFirst, TakesSome, KeepsRest, PutsSome, PutsPrefix};
ghost use Rattle.io_gate.specs.Pieces.{PutsAll};

/// A source, a sink or a file failed.
#[derive(Clone, Copy, Debug, PartialEq, Eq)]
pub struct Failed;

/// Where bytes come from.
pub trait Source {
    /// The bytes still to come, where the source tells them.
    ghost left: { Self → Option (List ℕ) };

    /// How often it has failed, up to 2^64 - 1.
    ghost faults: { Self → ℕ };

    /// Fills the first bytes of `into` and says how many; 0 only where nothing is left. The rest of
    /// `into` stays, and after `Failed` all of it. `Failed` comes only where the count rose, and an Ok
    /// leaves the count as it was.
    fn take(&mut self, into: &mut [u8]) -> Result<usize, Failed>
        requires { 0 < length into.old }
        ensures count { TakesAtMost result into.old }
        ensures bytes { TakesFirst (left self.old) (left self.new) into.new result }
        ensures some { TakesSome (left self.old) result }
        ensures rest { KeepsRest into.old into.new result }
        ensures cause { HasCause (faults self.old) (faults self.new) result };
}

/// Where bytes go to.
pub trait Sink {
    /// All bytes so far, where the sink tells them.
    ghost held: { Self → Option (List ℕ) };

    /// How often it has failed, up to 2^64 - 1.
    ghost faults: { Self → ℕ };

    /// Puts the first bytes of `piece`, at least one, and says how many. `Failed` comes only where the
    /// count rose, and an Ok leaves the count as it was.
    fn put(&mut self, piece: &[u8]) -> Result<usize, Failed>
        requires { 0 < length piece.now }
        ensures some { PutsSome result piece.now }
        ensures bytes { PutsPrefix (held self.old) (held self.new) piece.now result }
        ensures cause { HasCause (faults self.old) (faults self.new) result };
}

/// Puts the whole piece, by as many calls as it takes. After `Failed`, which ends it at the first call
/// that fails, some of its first bytes went out. An empty piece needs no call.
pub fn put_all<S: Sink>(sink: &mut S, piece: &[u8]) -> Result<(), Failed>
    ensures bytes { PutsAll (S.held sink.old) (S.held sink.new) piece.now result }
    ensures cause { HasCause (S.faults sink.old) (S.faults sink.new) result }
    ensures empty { length piece.now ≡ 0 → IsOk result × (sink.new ≡ sink.old) }
{
    let mut at = 0;
    while at < piece.len() {
        let count = sink.put(&piece[at..])?;
        at += count;
    }
    Ok(())
}
