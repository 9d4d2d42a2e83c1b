//! Breaks and watches.
ghost use Rattle.std.specs.Prelude.{◌≡◌, ◌++◌, flat_map, string_bytes, OnOk};
ghost use Rattle.debug_shows.specs.Breaks.{
  break_name,
  compare_text,
  comparison_text,
  condition_text,
  counts_text,
  enabled_text,
  kind_text,
  listed_text,
  met_text,
  operand_text,
  passes_text,
  point_text,
  points_text,
  what_text,
};

use crate::places::push_place;
use debug_places::{Compare, Condition, Operand};
use debug_points::{Point, Points, What};
use debug_texts::{push_decimal, push_lane_name, push_name};
use debug_words::WatchKind;
use elf_symbols::Symbol;
use std::alloc::AllocError;

/// What a watch is called.
fn kind_text(kind: WatchKind) -> &'static str
    ensures { result.now ≡ kind_text kind }
{
    match kind {
        WatchKind::Writes => "watch ",
        WatchKind::Reads => "rwatch ",
        WatchKind::Both => "awatch ",
    }
}

/// How two numbers compare.
fn compare_text(compare: Compare) -> &'static str
    ensures { result.now ≡ compare_text compare }
{
    match compare {
        Compare::Equal => " == ",
        Compare::Unequal => " != ",
        Compare::Below => " < ",
        Compare::AtMost => " <= ",
        Compare::Above => " > ",
        Compare::AtLeast => " >= ",
    }
}

/// Appends what a condition compares.
fn push_operand(text: &mut String, operand: &Operand) -> Result<(), AllocError>
    ensures { OnOk result (string_bytes text.new ≡ string_bytes text.old ++ operand_text operand.now) }
{
    match operand {
        Operand::Number(n) => push_decimal(text, *n),
        Operand::Value(register) => push_name(text, register),
        Operand::LaneOf(lane) => push_lane_name(text, lane),
    }
}

/// Appends a comparison.
fn push_comparison(text: &mut String, condition: &Condition) -> Result<(), AllocError>
    ensures { OnOk result (string_bytes text.new ≡ string_bytes text.old ++ comparison_text condition.now) }
{
    text.push_str(" if ")?;
    push_operand(text, &condition.left)?;
    text.push_str(compare_text(condition.compare))?;
    push_operand(text, &condition.right)
}

/// Appends a condition, where there is one.
fn push_condition(text: &mut String, condition: &Option<Condition>) -> Result<(), AllocError>
    ensures { OnOk result (string_bytes text.new ≡ string_bytes text.old ++ condition_text condition.now) }
{
    match condition {
        None => Ok(()),
        Some(condition) => push_comparison(text, condition),
    }
}

/// What a break is called.
fn break_name(once: bool) -> &'static str
    ensures { result.now ≡ break_name once }
{
    if once { "tbreak " } else { "break " }
}

/// Appends what a break or watch is.
fn push_what(
    text: &mut String,
    symbols: &[Symbol<'_>],
    once: bool,
    what: &What,
) -> Result<(), AllocError>
    ensures { OnOk result (string_bytes text.new ≡ string_bytes text.old ++ what_text symbols.now once what.now) }
{
    match what {
        What::Break(address, condition) => {
            text.push_str(break_name(once))?;
            push_place(text, symbols, *address)?;
            push_condition(text, condition)
        }
        What::Watch(kind, address, count) => {
            text.push_str(kind_text(*kind))?;
            push_place(text, symbols, *address)?;
            text.push_str(" ")?;
            push_decimal(text, *count)
        }
    }
}

/// Appends a break's or watch's number and what it is.
fn push_point(text: &mut String, symbols: &[Symbol<'_>], point: &Point) -> Result<(), AllocError>
    ensures { OnOk result (string_bytes text.new ≡ string_bytes text.old ++ point_text symbols.now point.now) }
{
    push_decimal(text, point.number)?;
    text.push_str(": ")?;
    push_what(text, symbols, point.once, &point.what)
}

/// Appends a line that says which break or watch was met.
pub fn push_met(text: &mut String, symbols: &[Symbol<'_>], point: &Point) -> Result<(), AllocError>
    ensures { OnOk result (string_bytes text.new ≡ string_bytes text.old ++ met_text symbols.now point.now) }
{
    push_point(text, symbols, point)?;
    text.push_str("\n")
}

/// Appends how many stops are passed.
fn push_passes(text: &mut String, ignored: u64) -> Result<(), AllocError>
    ensures { OnOk result (string_bytes text.new ≡ string_bytes text.old ++ passes_text ignored) }
{
    if ignored == 0 {
        return Ok(());
    }
    text.push_str(", passes ")?;
    push_decimal(text, ignored)
}

/// What ends the line of a break or watch.
fn enabled_text(enabled: bool) -> &'static str
    ensures { result.now ≡ enabled_text enabled }
{
    if enabled { "\n" } else { ", disabled\n" }
}

/// Appends how often a break or watch was met, and what it passes.
fn push_counts(text: &mut String, point: &Point) -> Result<(), AllocError>
    ensures { OnOk result (string_bytes text.new ≡ string_bytes text.old ++ counts_text point.now) }
{
    text.push_str(", met ")?;
    push_decimal(text, point.hits)?;
    push_passes(text, point.ignored)?;
    text.push_str(enabled_text(point.enabled))
}

/// Appends the line of a break or watch in a list of all.
fn push_listed(text: &mut String, symbols: &[Symbol<'_>], point: &Point) -> Result<(), AllocError>
    ensures { OnOk result (string_bytes text.new ≡ string_bytes text.old ++ listed_text symbols.now point.now) }
{
    push_point(text, symbols, point)?;
    push_counts(text, point)
}

/// Appends the lines of breaks and watches.
fn push_all(text: &mut String, symbols: &[Symbol<'_>], points: &[Point]) -> Result<(), AllocError>
    ensures { OnOk result
        (string_bytes text.new ≡ string_bytes text.old ++ flat_map (listed_text symbols.now) points.now) }
{
    'points: for point in points {
        push_listed(text, symbols, point)?;
    }
    Ok(())
}

/// Appends the breaks and watches.
pub fn push_points(
    text: &mut String,
    symbols: &[Symbol<'_>],
    points: &Points,
) -> Result<(), AllocError>
    ensures { OnOk result
        (string_bytes text.new ≡ string_bytes text.old ++ points_text symbols.now points.now.items) }
{
    if points.items().len() == 0 {
        return text.push_str("no breaks and no watches\n");
    }
    push_all(text, symbols, points.items())
}
