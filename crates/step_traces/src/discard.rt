//! A sink that keeps nothing.
ghost use Rattle.std.specs.Prelude.{◌≡◌, ◌<◌, None, Ok, length};
ghost use Rattle.io_gate.specs.Streams.{HasCause, PutsPrefix, PutsSome};

use io_gate::{Failed, Sink};

/// A sink that takes all bytes and keeps none. It never fails.
#[derive(Clone, Copy, Debug, PartialEq, Eq)]
pub struct Discard;

impl Sink for Discard {
    ghost held = { λ _. None };

    ghost faults = { λ _. 0 };

    fn put(&mut self, piece: &[u8]) -> Result<usize, Failed>
        requires { 0 < length piece.now }
        ensures some { PutsSome result piece.now }
        ensures bytes { PutsPrefix None None piece.now result }
        ensures cause { HasCause 0 0 result }
        ensures all { result ≡ Ok (length piece.now) }
    {
        Ok(piece.len())
    }
}
