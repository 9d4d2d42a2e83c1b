//! A source over bytes that are lent, at a place that can be told and set.
ghost use Rattle.std.specs.Prelude.{◌≡◌, ◌<◌, ◌≤◌, ◌+◌, Some, Ok, drop, length, min};
ghost use Rattle.io_gate.specs.Streams.{HasCause, TakesAtMost, TakesFirst, TakesSome, KeepsRest};

use crate::streams::{Failed, Source};
use std::marker::Model;

/// A source that gives out lent bytes from a place on, as many as a call has room for. It never fails.
#[derive(Drop)]
pub struct SliceSource<'a> {
    bytes: &'a [u8],
    at: usize,
}

impl<'a> Model for SliceSource<'a> {
    ghost use Rattle.std.specs.Prelude.{◌≤◌, length};
    ghost use Rattle.io_gate.specs.Lent.{Lent, coded_lent};

    ghost Value = { Lent };

    ghost coded = { coded_lent };

    ghost view = { λ s. record { bytes = s.bytes.now; place = s.at } };

    ghost invariant = { λ s. s.at ≤ length s.bytes.now };
}

impl<'a> SliceSource<'a> {
    /// A source of these bytes, from the first on.
    pub fn new(bytes: &'a [u8]) -> SliceSource<'a>
        ensures { result ≡ record { bytes = bytes.now; place = 0 } }
    {
        SliceSource { bytes, at: 0 }
    }

    /// How many bytes were given out: the place of the next one.
    pub fn place(&self) -> usize
        ensures value { result ≡ self.now.place }
        ensures within { result ≤ length self.now.bytes }
    {
        self.at
    }

    /// Goes on from a place, which may lie behind or before the present one.
    pub fn set_place(&mut self, at: usize)
        requires { at ≤ length self.old.bytes }
        ensures { self.new ≡ record { bytes = self.old.bytes; place = at } }
    {
        self.at = at;
    }

    /// The bytes still to come.
    pub fn rest(&self) -> &'a [u8]
        ensures { result.now ≡ drop self.now.place self.now.bytes }
    {
        &self.bytes[self.at..]
    }
}

impl<'a> Source for SliceSource<'a> {
    ghost left = { λ s. Some (drop s.place s.bytes) };

    ghost faults = { λ _. 0 };

    fn take(&mut self, into: &mut [u8]) -> Result<usize, Failed>
        requires { 0 < length into.old }
        ensures count { TakesAtMost result into.old }
        ensures bytes { TakesFirst (Some (drop self.old.place self.old.bytes))
            (Some (drop self.new.place self.new.bytes)) into.new result }
        ensures some { TakesSome (Some (drop self.old.place self.old.bytes)) result }
        ensures rest { KeepsRest into.old into.new result }
        ensures cause { HasCause 0 0 result }
        ensures portion { result ≡ Ok (min (length (drop self.old.place self.old.bytes)) (length into.old)) }
        ensures whole { self.new.bytes ≡ self.old.bytes }
    {
        let rest = &self.bytes[self.at..];
        let count = rest.len().min(into.len());
        into[..count].copy_from_slice(&rest[..count]);
        self.at += count;
        Ok(count)
    }
}
