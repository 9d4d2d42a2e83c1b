//! What of a step is told.
ghost use Rattle.std.specs.Prelude.{◌≡◌, map, string_bytes, IfOk};
ghost use Rattle.std.specs.List.{slice_split};
ghost use Rattle.trace_options.specs.Showing.{everything, is_comma, known, nothing, shown_at, with_name, with_names};

use crate::options::{TraceFault, TraceWhy, fault};
use crate::word::word;
use line_words::text_at;
use std::alloc::{AllocError, Global};

/// Which registers are told where a step changed them, and whether its accesses are.
#[derive(Clone, Copy, Debug, PartialEq, Eq)]
pub struct Shown {
    /// `x0` to `x30`.
    pub x: bool,
    pub sp: bool,
    pub nzcv: bool,
    pub tpidr: bool,
    /// The vector length.
    pub vl: bool,
    /// `z0` to `z31`.
    pub z: bool,
    /// `p0` to `p15`.
    pub p: bool,
    pub ffr: bool,
    /// The elements that it loaded and stored.
    pub memory: bool,
}

/// All of it.
fn everything() -> Shown
    ensures { result ≡ everything }
{
    Shown {
        x: true,
        sp: true,
        nzcv: true,
        tpidr: true,
        vl: true,
        z: true,
        p: true,
        ffr: true,
        memory: true,
    }
}

/// None of it.
fn nothing() -> Shown
    ensures { result ≡ nothing }
{
    Shown {
        x: false,
        sp: false,
        nzcv: false,
        tpidr: false,
        vl: false,
        z: false,
        p: false,
        ffr: false,
        memory: false,
    }
}

/// With what a name says. None where it says nothing.
fn with_name(shown: Shown, name: &str) -> Option<Shown>
    ensures { result ≡ with_name shown name.now }
{
    match name {
        "x" => Some(Shown { x: true, ..shown }),
        "sp" => Some(Shown { sp: true, ..shown }),
        "nzcv" => Some(Shown {
            nzcv: true,
            ..shown
        }),
        "tpidr" => Some(Shown {
            tpidr: true,
            ..shown
        }),
        "vl" => Some(Shown { vl: true, ..shown }),
        "z" => Some(Shown { z: true, ..shown }),
        "p" => Some(Shown { p: true, ..shown }),
        "ffr" => Some(Shown { ffr: true, ..shown }),
        "memory" => Some(Shown {
            memory: true,
            ..shown
        }),
        _ => None,
    }
}

/// What stands between commas. Err is want of memory.
fn names(alloc: Global, list: &str) -> Result<Vec<&str>, AllocError>
    ensures { IfOk result (λ names. map (λ name. name.now) names.items ≡ slice_split is_comma list.now) }
{
    list.split(',').collect(alloc)
}

/// What names say together. None where one says nothing.
fn shown_by(names: &[&str]) -> Option<Shown>
    ensures { result ≡ with_names nothing (map (λ name. name.now) names.now) }
{
    let mut shown = nothing();
    for place in 0..names.len() {
        shown = with_name(shown, text_at(names, place))?;
    }
    Some(shown)
}

/// What is shown, or the refusal of the word at a place.
fn known(shown: Option<Shown>, place: usize) -> Result<Shown, TraceFault>
    ensures { result ≡ known place shown }
{
    match shown {
        None => Err(fault(TraceWhy::UnknownGroup, place)),
        Some(shown) => Ok(shown),
    }
}

/// What is told of a step, by the place of a list of names with commas between them: all where there is none. Err is
/// want of memory.
pub fn shown_of(
    alloc: Global,
    words: &[String],
    place: Option<usize>,
) -> Result<Result<Shown, TraceFault>, AllocError>
    ensures { IfOk result (λ shown. shown ≡ shown_at (map string_bytes words.now) place) }
{
    match place {
        None => Ok(Ok(everything())),
        Some(place) => {
            let names = names(alloc, word(words, place))?;
            Ok(known(shown_by(&names), place))
        }
    }
}
