//! A source read to its end.
ghost use Rattle.std.specs.Prelude.{◌≡◌, ◌≤◌, Err, IfOk, vec_len};
ghost use Rattle.io_gate.specs.ReadAll.{ReadsAll};
ghost use Rattle.io_gate.specs.Streams.{Causes};

use crate::streams::Source;
use std::alloc::Global;

/// How many bytes are taken at once at most.
const PIECE: usize = 4096;

/// Why a source wasn't read to its end.
#[derive(Clone, Copy, Debug, Drop, PartialEq, Eq)]
pub enum ReadEnd {
    /// The source failed.
    Failed,
    /// More bytes came than the limit.
    TooLong,
    /// No memory for the bytes that came.
    OutOfMemory,
}

/// All bytes that a source has left, at most `limit` of them: TooLong comes exactly where `limit` + 1 bytes came, and
/// no more than these are taken. Failed comes only where the source's count of faults rose.
pub fn read_all<I: Source>(alloc: Global, input: &mut I, limit: usize) -> Result<Vec<u8>, ReadEnd>
    ensures limit { IfOk result (λ bytes. vec_len bytes ≤ limit) }
    ensures content { ReadsAll (I.left input.old) (I.left input.new) limit result }
    ensures cause { Causes (result ≡ Err ReadEnd.Failed) (I.faults input.old) (I.faults input.new) }
{
    let mut bytes = Vec::new(alloc);
    let mut piece = [0; PIECE];
    'pieces: loop {
        let room = limit - bytes.len();
        let most = room.min(PIECE - 1) + 1;
        let Ok(count) = input.take(&mut piece[..most]) else {
            return Err(ReadEnd::Failed);
        };
        if count == 0 {
            return Ok(bytes);
        }
        if count > room {
            return Err(ReadEnd::TooLong);
        }
        if bytes.extend_from_slice(&piece[..count]).is_err() {
            return Err(ReadEnd::OutOfMemory);
        }
    }
}
