//! What a line asks for: what of which steps is told.
ghost use Rattle.std.specs.Prelude.{◌≡◌, map, string_bytes, IfOk, Ok};
ghost use Rattle.tool_traces.specs.Endings.{asked_by, IsAskedBy, IsWindowBy};
ghost use Rattle.tool_traces.specs.Traced.{IsAsked, IsWindowOf};

use elf_symbols::symbols;
use std::alloc::{AllocError, Global};
use trace_options::{Given, Shown, TraceFault, Window, shown_of, window_of};

/// What of which steps is told.
#[derive(Clone, Copy, Debug, PartialEq, Eq)]
pub struct Asked {
    pub shown: Shown,
    pub window: Window,
}

/// The steps that the options ask for, by the symbols of a file. Err is want of memory.
fn window_by(
    alloc: Global,
    bytes: &[u8],
    words: &[String],
    given: &Given,
) -> Result<Result<Window, TraceFault>, AllocError>
    ensures window { IfOk result (λ found. IfOk found (IsWindowOf bytes.now (map string_bytes words.now) given.now)) }
    ensures by { IfOk result (IsWindowBy bytes.now (map string_bytes words.now) given.now) }
{
    let found = symbols(alloc, bytes)?;
    Ok(window_of(&found, words, given))
}

/// Both together, or the first refusal.
fn both(
    shown: Result<Shown, TraceFault>,
    window: Result<Window, TraceFault>,
) -> Result<Asked, TraceFault>
    ensures shown { IfOk result (λ asked. Ok asked.shown ≡ shown) }
    ensures window { IfOk result (λ asked. Ok asked.window ≡ window) }
    ensures both { result ≡ asked_by shown window }
{
    match shown {
        Err(fault) => Err(fault),
        Ok(shown) => match window {
            Err(fault) => Err(fault),
            Ok(window) => Ok(Asked { shown, window }),
        },
    }
}

/// What the options ask for, by the symbols of a file, or a refusal. Err is want of memory.
pub fn asked_of(
    alloc: Global,
    bytes: &[u8],
    words: &[String],
    given: &Given,
) -> Result<Result<Asked, TraceFault>, AllocError>
    ensures asked { IfOk result (λ asked. IfOk asked (IsAsked bytes.now (map string_bytes words.now) given.now)) }
    ensures by { IfOk result (IsAskedBy bytes.now (map string_bytes words.now) given.now) }
{
    let shown = shown_of(alloc, words, given.show)?;
    let window = window_by(alloc, bytes, words, given)?;
    Ok(both(shown, window))
}
