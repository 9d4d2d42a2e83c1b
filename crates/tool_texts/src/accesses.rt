//! The lines of accesses that were refused: what is next to them.
ghost use Rattle.std.specs.Prelude.{◌≡◌, string_bytes, OnOk};
ghost use Rattle.tool_texts.specs.Explanations.{
  access_line,
  call_line,
  then_behind,
  then_beside,
  then_buffer,
  then_bytes,
  then_called,
  then_fetch,
  then_from,
  then_null,
  then_target,
};

use crate::pieces::{Place, push_count, push_hex, push_place, push_short, push_steps};
use crate::stops::{Stop, push_where};
use std::alloc::AllocError;

/// What is next to an address. Numbers are bytes.
#[derive(Clone, Copy)]
pub enum Beside {
    /// It is in the first page.
    Null,
    /// It is in pages that are mapped without the right.
    Unallowed,
    /// It is no multiple of the size of the access, which has to be at one.
    Unaligned,
    /// So far behind the last byte of a guarded buffer, which has so many bytes.
    BehindBuffer(u64, u64),
    /// So far below the first byte of a guarded buffer, which has so many bytes.
    BelowBuffer(u64, u64),
    /// So far below the stack's lowest byte.
    BelowStack(u64),
    /// So far behind the stack's highest byte.
    BehindStack(u64),
    /// So far below the lowest byte of a segment of the program.
    BelowSegment(u64),
    /// So far behind the last byte of a segment of the program.
    BehindSegment(u64),
    /// So far behind the last byte of the symbol that is nearest below it.
    BehindSymbol(u64),
    /// So far behind the last byte of the memory that the break gave.
    BehindBreak(u64),
    /// So far below the first page of a mapping.
    BelowMapping(u64),
    /// So far behind the last page of a mapping.
    BehindMapping(u64),
    /// Nothing is near.
    Nowhere,
}

/// Appends a number of bytes and what they lie from.
fn push_bytes(text: &mut String, count: u64, from: &str) -> Result<(), AllocError>
    ensures { OnOk result (string_bytes text.new ≡ then_bytes (string_bytes text.old) count from.now) }
{
    push_count(text, count, "byte")?;
    text.push_str(" ")?;
    text.push_str(from)
}

/// Appends how an address lies to a guarded buffer of so many bytes.
fn push_buffer(text: &mut String, count: u64, from: &str, size: u64) -> Result<(), AllocError>
    ensures { OnOk result (string_bytes text.new ≡ then_buffer (string_bytes text.old) count from.now size) }
{
    push_bytes(text, count, from)?;
    text.push_str(" a guarded buffer of ")?;
    push_count(text, size, "byte")
}

/// Appends how far behind a symbol an address lies.
fn push_behind(text: &mut String, count: u64, near: &Place) -> Result<(), AllocError>
    ensures { OnOk result (string_bytes text.new ≡ then_behind (string_bytes text.old) count near.now) }
{
    push_bytes(text, count, "behind the end of ")?;
    push_short(text, near)
}

/// Appends what is next to an address. The symbol that is nearest below it is that of `near`.
fn push_beside(text: &mut String, beside: Beside, near: &Place) -> Result<(), AllocError>
    ensures { OnOk result (string_bytes text.new ≡ then_beside (string_bytes text.old) near.now beside) }
{
    match beside {
        Beside::Null => text.push_str("in page 0 (a null pointer)"),
        Beside::Unallowed => text.push_str("in memory without that right"),
        Beside::Unaligned => text.push_str("which is no multiple of the size of the access"),
        Beside::BehindBuffer(count, size) => push_buffer(text, count, "behind the end of", size),
        Beside::BelowBuffer(count, size) => push_buffer(text, count, "below", size),
        Beside::BehindSymbol(count) => push_behind(text, count, near),
        Beside::BelowStack(count) => push_bytes(text, count, "below the stack"),
        Beside::BehindStack(count) => push_bytes(text, count, "behind the stack"),
        Beside::BelowSegment(count) => push_bytes(text, count, "below a segment"),
        Beside::BehindSegment(count) => push_bytes(text, count, "behind a segment"),
        Beside::BehindBreak(count) => push_bytes(text, count, "behind the break"),
        Beside::BelowMapping(count) => push_bytes(text, count, "below a mapping"),
        Beside::BehindMapping(count) => push_bytes(text, count, "behind a mapping"),
        Beside::Nowhere => text.push_str("far from all that is mapped"),
    }
}

/// Appends the line of an access that was refused: `access` is `read from` or `write to`.
pub fn push_access(
    text: &mut String,
    stop: &Stop,
    access: &str,
    address: &Place,
    beside: Beside,
    near: &Place,
) -> Result<(), AllocError>
    ensures { OnOk result (string_bytes text.new
        ≡ access_line (string_bytes text.old) stop.now access.now address.now beside near.now) }
{
    text.push_str("svemu: ")?;
    text.push_str(access)?;
    text.push_str(" ")?;
    push_place(text, address)?;
    text.push_str(", ")?;
    push_beside(text, beside, near)?;
    text.push_str(",")?;
    push_where(text, stop)
}

/// Appends what can't be fetched.
fn push_target(text: &mut String, stop: &Stop) -> Result<(), AllocError>
    ensures { OnOk result (string_bytes text.new ≡ then_target (string_bytes text.old) stop.now) }
{
    text.push_str("svemu: fetch from ")?;
    push_place(text, &stop.place)?;
    text.push_str(", ")
}

/// Appends what can't be fetched, what is next to its address, and that it was called.
fn push_called(
    text: &mut String,
    stop: &Stop,
    beside: Beside,
    near: &Place,
) -> Result<(), AllocError>
    ensures { OnOk result
        (string_bytes text.new ≡ then_called (string_bytes text.old) stop.now beside near.now) }
{
    push_target(text, stop)?;
    push_beside(text, beside, near)?;
    text.push_str(": a call or a jump")
}

/// Appends that a null pointer was called.
fn push_null(text: &mut String, address: u64) -> Result<(), AllocError>
    ensures { OnOk result (string_bytes text.new ≡ then_null (string_bytes text.old) address) }
{
    text.push_str("svemu: fetch from ")?;
    push_hex(text, address)?;
    text.push_str(": a call of a null pointer")
}

/// Appends from where an address was called, by X30, and the number of steps.
fn push_from(text: &mut String, stop: &Stop) -> Result<(), AllocError>
    ensures { OnOk result (string_bytes text.new ≡ then_from (string_bytes text.old) stop.now) }
{
    text.push_str(" from ")?;
    push_short(text, &stop.caller)?;
    text.push_str(" (x30)")?;
    push_steps(text, stop.steps)
}

/// Appends what can't be fetched, told by what is next to its address.
fn push_fetch(
    text: &mut String,
    stop: &Stop,
    beside: Beside,
    near: &Place,
) -> Result<(), AllocError>
    ensures { OnOk result (string_bytes text.new ≡ then_fetch (string_bytes text.old) stop.now beside near.now) }
{
    match beside {
        Beside::Null => push_null(text, stop.place.address()),
        _ => push_called(text, stop, beside, near),
    }
}

/// Appends the line of a run that can't fetch an instruction, told by what is next to its address, and by the place in
/// X30.
pub fn push_call(
    text: &mut String,
    stop: &Stop,
    beside: Beside,
    near: &Place,
) -> Result<(), AllocError>
    ensures { OnOk result
        (string_bytes text.new ≡ call_line (string_bytes text.old) stop.now beside near.now) }
{
    push_fetch(text, stop, beside, near)?;
    push_from(text, stop)
}
