//! What is put of the program's source.
ghost use Rattle.std.specs.Prelude.{◌≡◌};

use crate::shows::put;
use debug_moves::{Broken, Session};
use debug_places::Place;
use debug_shows::push_place;
use debug_values::address_of;
use emu_machine::Machine;
use io_gate::Sink;
use source_lines::{SourcePlace, address_behind, place_at, push_line_name, push_listing};
use std::alloc::{AllocError, Global};

/// The address of a place, or that where the machine stands.
fn address_or_here(machine: &Machine, place: Option<Place>) -> u64 {
    match place {
        None => machine.core().pc(),
        Some(place) => address_of(machine, place),
    }
}

/// Appends the line of an address, and up to where its code goes on.
fn push_line_of(text: &mut String, session: &Session, address: u64) -> Result<(), AllocError> {
    push_place(text, session.symbols, address)?;
    match place_at(session.rows, address) {
        None => text.push_str(" is of no line that is known\n"),
        Some(place) => {
            text.push_str(" is of ")?;
            push_line_name(text, place)?;
            text.push_str(", whose code goes on up to ")?;
            push_place(text, session.symbols, address_behind(session.rows, address))?;
            text.push_str("\n")
        }
    }
}

/// Puts the line of a place, or of where the machine stands.
pub fn put_line<O: Sink>(
    alloc: Global,
    session: &Session,
    place: Option<Place>,
    machine: &Machine,
    output: &mut O,
) -> Result<(), Broken> {
    let mut text = String::new(alloc);
    push_line_of(&mut text, session, address_or_here(machine, place))?;
    put(text.as_str(), output)
}

/// The first of the ten lines around one.
fn around(place: SourcePlace<'_>) -> SourcePlace<'_> {
    SourcePlace {
        file: place.file,
        line: place.line.saturating_sub(5).max(1),
    }
}

/// The line from which on lines are listed: around a place; or behind those that were listed last, or around where the
/// machine stands. None where no line is known there.
fn first_listed<'table>(
    session: &Session<'_, '_, '_, 'table, '_, '_, '_>,
    place: Option<Place>,
    machine: &Machine,
) -> Option<SourcePlace<'table>> {
    if place.is_none() && session.listed.is_some() {
        return session.listed;
    }
    match place_at(session.rows, address_or_here(machine, place)) {
        None => None,
        Some(place) => Some(around(place)),
    }
}

/// The number of the line where the machine stands, if it is of a file, and else 0.
fn line_here(session: &Session, file: &str, machine: &Machine) -> u64 {
    match place_at(session.rows, machine.core().pc()) {
        Some(place) if place.file == file => place.line,
        _ => 0,
    }
}

/// Puts that there are no lines of a file from one on.
fn put_no_lines<O: Sink>(
    alloc: Global,
    place: SourcePlace<'_>,
    output: &mut O,
) -> Result<(), Broken> {
    let mut text = String::new(alloc);
    text.push_str("nothing is there from ")?;
    push_line_name(&mut text, place)?;
    text.push_str(" on\n")?;
    put(text.as_str(), output)
}

/// Puts the ten lines of a file from one on, and has the next listing go on behind them.
fn put_lines<'table, O: Sink>(
    alloc: Global,
    session: &mut Session<'_, '_, '_, 'table, '_, '_, '_>,
    first: SourcePlace<'table>,
    machine: &Machine,
    output: &mut O,
) -> Result<(), Broken>
    ensures { session.new.input.now ≡ session.old.input.now }
{
    let mut text = String::new(alloc);
    let here = line_here(session, first.file, machine);
    push_listing(&mut text, session.sources, first.file, first.line, here)?;
    if text.is_empty() {
        return put_no_lines(alloc, first, output);
    }
    session.listed = Some(SourcePlace {
        file: first.file,
        line: first.line.saturating_add(10),
    });
    put(text.as_str(), output)
}

/// Puts lines of the source around a place, or those behind the ones that were listed last, or those around where the
/// machine stands.
pub fn put_listing<O: Sink>(
    alloc: Global,
    session: &mut Session,
    place: Option<Place>,
    machine: &Machine,
    output: &mut O,
) -> Result<(), Broken>
    ensures { session.new.input.now ≡ session.old.input.now }
{
    match first_listed(session, place, machine) {
        None => put("no line of the source is known there\n", output),
        Some(first) => put_lines(alloc, session, first, machine, output),
    }
}
