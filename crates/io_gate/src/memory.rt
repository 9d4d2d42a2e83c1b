//! A source and a sink in memory.
ghost use Rattle.std.specs.Prelude.{
  ◌≡◌,
  ◌<◌,
  ◌≤◌,
  ◌+◌,
  ◌++◌,
  [],
  Some,
  true,
  false,
  is_err,
  IsErr,
  min,
  take,
  drop,
  length,
  IfOk,
};
ghost use Rattle.io_gate.specs.Streams.{HasCause, TakesAtMost, TakesFirst, TakesSome, KeepsRest, PutsSome, PutsPrefix};
ghost use Rattle.io_gate.specs.Calls.{counts_if};
ghost use Rattle.io_gate.specs.Calls.{is_due, uncalled, after_call};
ghost use Rattle.io_gate.specs.Memory.{portion};

use crate::calls::FailingCalls;
use crate::streams::{Failed, Sink, Source};
use std::alloc::Global;
use std::marker::Model;

/// Bytes that are given out in order, at most so many at a time.
#[derive(Drop)]
pub struct Stock {
    bytes: Vec<u8>,
    at: usize,
    most: usize,
}

impl Model for Stock {
    ghost use Rattle.std.specs.Prelude.{◌≤◌, drop, vec_len};
    ghost use Rattle.io_gate.specs.Memory.{Supplied, coded_supplied};

    ghost Value = { Supplied };

    ghost coded = { coded_supplied };

    ghost view = { λ s. record { left = drop s.at s.bytes.items; most = s.most } };

    ghost invariant = { λ s. (s.at ≤ vec_len s.bytes) × (1 ≤ s.most) };
}

impl Stock {
    /// These bytes, of which one call gives `most` at most.
    pub fn new(bytes: Vec<u8>, most: usize) -> Self
        requires { 1 ≤ most }
        ensures { result ≡ record { left = bytes.items; most = most } }
    {
        Stock { bytes, at: 0, most }
    }

    /// Fills the first bytes of `into` with the first that are left, as many as it may.
    pub fn give(&mut self, into: &mut [u8]) -> usize
        ensures count { result ≡ portion self.old (length into.old) }
        ensures left { self.new ≡ record { left = drop result self.old.left; most = self.old.most } }
        ensures into { into.new ≡ take result self.old.left ++ drop result into.old }
        ensures most { 1 ≤ self.old.most }
    {
        let rest = &self.bytes[self.at..];
        let count = self.most.min(rest.len()).min(into.len());
        into[..count].copy_from_slice(&rest[..count]);
        self.at += count;
        count
    }
}

/// A source that gives bytes from memory. Some of its calls fail, by their numbers.
#[derive(Drop)]
pub struct MemSource {
    stock: Stock,
    calls: FailingCalls,
}

impl Model for MemSource {
    ghost use Rattle.io_gate.specs.Memory.{Supply, coded_supply};

    ghost Value = { Supply };

    ghost coded = { coded_supply };

    ghost view = { λ s. record { stock = s.stock; calls = s.calls } };
}

impl MemSource {
    /// A source of these bytes. It gives at most `most` bytes a call, and the calls whose numbers,
    /// counted from 0, stand in `fails` fail.
    pub fn new(bytes: Vec<u8>, most: usize, fails: Vec<u64>) -> MemSource
        requires { 1 ≤ most }
        ensures left { result.stock.left ≡ bytes.items }
        ensures most { result.stock.most ≡ most }
        ensures calls { result.calls ≡ uncalled fails.items }
    {
        MemSource {
            stock: Stock::new(bytes, most),
            calls: FailingCalls::new(fails),
        }
    }
}

impl Source for MemSource {
    ghost left = { λ s. Some s.stock.left };

    ghost faults = { λ s. s.calls.faults };

    fn take(&mut self, into: &mut [u8]) -> Result<usize, Failed>
        requires { 0 < length into.old }
        ensures count { TakesAtMost result into.old }
        ensures bytes { TakesFirst (Some self.old.stock.left) (Some self.new.stock.left) into.new result }
        ensures some { TakesSome (Some self.old.stock.left) result }
        ensures rest { KeepsRest into.old into.new result }
        ensures cause { HasCause self.old.calls.faults self.new.calls.faults result }
        ensures fails { is_err result ≡ is_due self.old.calls }
        ensures calls { self.new.calls ≡ after_call (is_err result) self.old.calls }
        ensures portion { IfOk result (λ n. n ≡ portion self.old.stock (length into.old)) }
        ensures most { self.new.stock.most ≡ self.old.stock.most }
    {
        self.calls.call()?;
        Ok(self.stock.give(into))
    }
}

/// A sink that keeps in memory what it is given. Some of its calls fail, by their numbers.
#[derive(Drop)]
pub struct MemSink {
    bytes: Vec<u8>,
    most: usize,
    calls: FailingCalls,
    wanting: u64,
}

impl Model for MemSink {
    ghost use Rattle.std.specs.Prelude.{◌≤◌};
    ghost use Rattle.io_gate.specs.Memory.{Drain, coded_drain};

    ghost Value = { Drain };

    ghost coded = { coded_drain };

    ghost view = { λ s. record { held = s.bytes.items; most = s.most; calls = s.calls; wanting = s.wanting } };

    ghost invariant = { λ s. 1 ≤ s.most };
}

impl MemSink {
    /// A sink that holds nothing. It accepts at most `most` bytes a call, and the calls whose
    /// numbers, counted from 0, stand in `fails` fail.
    pub fn new(alloc: Global, most: usize, fails: Vec<u64>) -> MemSink
        requires { 1 ≤ most }
        ensures held { result.held ≡ [] }
        ensures most { result.most ≡ most }
        ensures calls { result.calls ≡ uncalled fails.items }
        ensures wanting { result.wanting ≡ 0 }
    {
        MemSink {
            bytes: Vec::new(alloc),
            most,
            calls: FailingCalls::new(fails),
            wanting: 0,
        }
    }

    /// All bytes so far.
    pub fn kept(&self) -> &[u8]
        ensures { result.now ≡ self.now.held }
    {
        &self.bytes
    }

    /// How often memory was wanting, up to 2^64 - 1.
    pub fn wanting(&self) -> u64
        ensures { result ≡ self.now.wanting }
    {
        self.wanting
    }
}

impl Sink for MemSink {
    ghost held = { λ s. Some s.held };

    ghost faults = { λ s. s.calls.faults };

    fn put(&mut self, piece: &[u8]) -> Result<usize, Failed>
        requires { 0 < length piece.now }
        ensures some { PutsSome result piece.now }
        ensures bytes { PutsPrefix (Some self.old.held) (Some self.new.held) piece.now result }
        ensures cause { HasCause self.old.calls.faults self.new.calls.faults result }
        ensures portion { IfOk result (λ n. n ≡ min self.old.most (length piece.now)) }
        ensures due { is_due self.old.calls ≡ true → IsErr result × (self.new.wanting ≡ self.old.wanting) }
        ensures wanting { is_due self.old.calls ≡ false
            → self.new.wanting ≡ counts_if (is_err result) self.old.wanting }
        ensures calls { self.new.calls ≡ after_call (is_err result) self.old.calls }
        ensures most { self.new.most ≡ self.old.most }
    {
        self.calls.call()?;
        let count = self.most.min(piece.len());
        if self.bytes.extend_from_slice(&piece[..count]).is_err() {
            self.wanting = self.wanting.saturating_add(1);
            self.calls.count_fault();
            return Err(Failed);
        }
        Ok(count)
    }
}
