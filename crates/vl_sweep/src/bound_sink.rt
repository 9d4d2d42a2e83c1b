//! A sink in memory that has its room from the start.
ghost use Rattle.std.specs.Prelude.{◌≡◌, ◌<◌, ◌≤◌, ◌-◌, [], false, Some, IfOk, is_err, length, min, nat_eq};
ghost use Rattle.io_gate.specs.Streams.{HasCause, PutsPrefix, PutsSome};
ghost use Rattle.io_gate.specs.Calls.{counts_if};

use io_gate::{Failed, Sink};
use std::alloc::{AllocError, Global};
use std::marker::Model;

/// A sink that keeps in memory what it is given, at most `LIMIT` bytes. It fails once it is full, and only then.
/// Contracts see the bytes that it holds, and how often it failed.
#[derive(Drop)]
pub struct BoundSink<const LIMIT: usize> {
    bytes: Vec<u8>,
    faults: u64,
}

impl<const LIMIT: usize> Model for BoundSink<LIMIT> {
    ghost use Rattle.std.specs.Vec.{vec_capacity};
    ghost use Rattle.vl_sweep.specs.Bounded.{Bounded, IsBounded, coded_bounded};

    ghost Value = { Bounded };

    ghost coded = { coded_bounded };

    ghost view = { λ s. record { held = s.bytes.items; faults = s.faults } };

    ghost invariant = { λ s. IsBounded LIMIT s.bytes.items s.faults (vec_capacity s.bytes) };
}

impl<const LIMIT: usize> BoundSink<LIMIT> {
    /// A sink that holds nothing, with room for `LIMIT` bytes. No later call takes memory. Err is want of memory.
    pub fn new(alloc: Global) -> Result<Self, AllocError>
        ensures { IfOk result (λ s. s ≡ record { held = []; faults = 0 }) }
    {
        Ok(BoundSink {
            bytes: Vec::with_capacity(alloc, LIMIT)?,
            faults: 0,
        })
    }

    /// All bytes so far.
    pub fn kept(&self) -> &[u8]
        ensures bytes { result.now ≡ self.now.held }
        ensures most { length result.now ≤ LIMIT }
    {
        &self.bytes
    }

    /// Holds nothing again.
    pub fn clear(&mut self)
        requires { self.old.faults ≡ 0 }
        ensures { self.new ≡ record { held = []; faults = 0 } }
    {
        self.bytes.clear();
    }

    /// Whether it holds `LIMIT` bytes, so that it takes no more; where it has failed, it does.
    pub fn is_full(&self) -> bool
        ensures full { result ≡ nat_eq (length self.now.held) LIMIT }
        ensures most { length self.now.held ≤ LIMIT }
        ensures unfailed { result ≡ false → self.now.faults ≡ 0 }
    {
        self.bytes.len() == LIMIT
    }
}

impl<const LIMIT: usize> Sink for BoundSink<LIMIT> {
    ghost held = { λ s. Some s.held };

    ghost faults = { λ s. s.faults };

    fn put(&mut self, piece: &[u8]) -> Result<usize, Failed>
        requires { 0 < length piece.now }
        ensures some { PutsSome result piece.now }
        ensures bytes { PutsPrefix (Some self.old.held) (Some self.new.held) piece.now result }
        ensures cause { HasCause self.old.faults self.new.faults result }
        ensures full { is_err result ≡ nat_eq (length self.old.held) LIMIT }
        ensures portion { IfOk result (λ n. n ≡ min (length piece.now) (LIMIT - length self.old.held)) }
        ensures count { self.new.faults ≡ counts_if (is_err result) self.old.faults }
    {
        let count = piece.len().min(LIMIT - self.bytes.len());
        if count == 0 {
            self.faults = self.faults.saturating_add(1);
            return Err(Failed);
        }
        self.bytes.extend_from_slice(&piece[..count]).unwrap();
        Ok(count)
    }
}
