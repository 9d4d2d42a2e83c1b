//! What a session puts of its machine as it is, and of its breaks and watches.

use crate::listings::put_line;
use crate::searches::put_found;
use dbg_core::{Command as Shown, put_ending, show};
use debug_moves::{Broken, Session};
use debug_names::{Thing, Verb, register_of};
use debug_places::{Format, Notation, Place};
use debug_shows::{
    push_backtrace, push_disassembly, push_help, push_memory, push_place, push_points, push_thing,
    push_where,
};
use debug_texts::{push_decimal, push_number};
use debug_values::address_of;
use debug_words::Command;
use emu_machine::Machine;
use io_gate::{Sink, put_all};
use source_lines::push_source;
use std::alloc::{AllocError, Global};

/// Puts a text.
pub fn put<O: Sink>(text: &str, output: &mut O) -> Result<(), Broken> {
    put_all(output, text.as_bytes())?;
    Ok(())
}

/// Puts where the machine stands.
pub fn put_where<O: Sink>(
    alloc: Global,
    session: &Session,
    machine: &Machine,
    output: &mut O,
) -> Result<(), Broken> {
    if machine.ended() {
        put_ending(machine, output)?;
    }
    let mut text = String::new(alloc);
    push_where(&mut text, session.symbols, machine)?;
    push_source(
        &mut text,
        session.rows,
        session.sources,
        machine.core().pc(),
    )?;
    put(text.as_str(), output)
}

/// Appends a register that a word names. Err is want of memory.
fn push_register(text: &mut String, word: &str, machine: &Machine) -> Result<(), AllocError> {
    match register_of(word) {
        None => Ok(()),
        Some(register) => push_thing(text, None, machine, &Thing::Scalar(register)),
    }
}

/// Puts so many registers, which the words behind `info registers` name, or where there are none all scalar ones.
fn put_registers<O: Sink>(
    alloc: Global,
    words: &[&str],
    count: usize,
    machine: &Machine,
    output: &mut O,
) -> Result<(), Broken> {
    if count == 0 {
        show(machine, &Shown::Regs, output)?;
        return Ok(());
    }
    let mut text = String::new(alloc);
    'registers: for k in 2..words.len() {
        if k < count.saturating_add(2) {
            push_register(&mut text, words[k], machine)?;
        }
    }
    put(text.as_str(), output)
}

/// Puts what a name names of the registers.
fn put_thing<O: Sink>(
    alloc: Global,
    notation: Option<Notation>,
    thing: Thing,
    machine: &Machine,
    output: &mut O,
) -> Result<(), Broken> {
    let mut text = String::new(alloc);
    push_thing(&mut text, notation, machine, &thing)?;
    put(text.as_str(), output)
}

/// Puts the address of a place.
fn put_place<O: Sink>(
    alloc: Global,
    session: &Session,
    notation: Option<Notation>,
    place: Place,
    machine: &Machine,
    output: &mut O,
) -> Result<(), Broken> {
    let address = address_of(machine, place);
    let mut text = String::new(alloc);
    match notation {
        Some(notation) => push_number(&mut text, notation, 64, address)?,
        None => push_place(&mut text, session.symbols, address)?,
    }
    text.push_str("\n")?;
    put(text.as_str(), output)
}

/// Puts memory.
fn put_memory<O: Sink>(
    alloc: Global,
    session: &Session,
    format: Format,
    place: Place,
    machine: &Machine,
    output: &mut O,
) -> Result<(), Broken> {
    let mut text = String::new(alloc);
    push_memory(
        &mut text,
        session.symbols,
        format,
        address_of(machine, place),
        machine,
    )?;
    put(text.as_str(), output)
}

/// Puts the instructions of a function.
fn put_disassembly<O: Sink>(
    alloc: Global,
    session: &Session,
    place: Option<Place>,
    machine: &Machine,
    output: &mut O,
) -> Result<(), Broken> {
    let address = match place {
        None => machine.core().pc(),
        Some(place) => address_of(machine, place),
    };
    let mut text = String::new(alloc);
    push_disassembly(&mut text, session.symbols, address, machine)?;
    put(text.as_str(), output)
}

/// Puts the calls that led here.
fn put_backtrace<O: Sink>(
    alloc: Global,
    session: &Session,
    machine: &Machine,
    output: &mut O,
) -> Result<(), Broken> {
    let mut text = String::new(alloc);
    push_backtrace(&mut text, session.symbols, machine)?;
    put(text.as_str(), output)
}

/// Puts the breaks and watches.
fn put_points<O: Sink>(alloc: Global, session: &Session, output: &mut O) -> Result<(), Broken> {
    let mut text = String::new(alloc);
    push_points(&mut text, session.symbols, &session.points)?;
    put(text.as_str(), output)
}

/// Puts how many steps are counted.
fn put_when<O: Sink>(alloc: Global, machine: &Machine, output: &mut O) -> Result<(), Broken> {
    let mut text = String::new(alloc);
    text.push_str("step ")?;
    push_decimal(&mut text, machine.steps())?;
    text.push_str("\n")?;
    put(text.as_str(), output)
}

/// Puts the form of a command, or of all.
fn put_help<O: Sink>(alloc: Global, verb: Option<Verb>, output: &mut O) -> Result<(), Broken> {
    let mut text = String::new(alloc);
    push_help(&mut text, verb)?;
    put(text.as_str(), output)
}

/// Obeys a command that shows something of the machine as it is.
pub fn show_by<O: Sink>(
    alloc: Global,
    session: &Session,
    words: &[&str],
    command: Command,
    machine: &Machine,
    output: &mut O,
) -> Result<(), Broken> {
    match command {
        Command::InfoPoints => put_points(alloc, session, output),
        Command::InfoRegisters(count) => put_registers(alloc, words, count, machine, output),
        Command::InfoLine(place) => put_line(alloc, session, place, machine, output),
        Command::InfoSymbol(place) => put_place(alloc, session, None, place, machine, output),
        Command::Print(format, thing) => put_thing(alloc, format.notation, thing, machine, output),
        Command::PrintPlace(format, place) => put_place(
            alloc,
            session,
            format.notation,
            place,
            machine,
            output,
        ),
        Command::Examine(format, place) => put_memory(
            alloc, session, format, place, machine, output,
        ),
        Command::Disassemble(place) => put_disassembly(alloc, session, place, machine, output),
        Command::Backtrace => put_backtrace(alloc, session, machine, output),
        Command::Where => put_where(alloc, session, machine, output),
        Command::When => put_when(alloc, machine, output),
        Command::Help(verb) => put_help(alloc, verb, output),
        _ => Ok(()),
    }
}

/// Obeys a search.
pub fn find_by<O: Sink>(
    alloc: Global,
    session: &Session,
    words: &[&str],
    command: Command,
    machine: &Machine,
    output: &mut O,
) -> Result<(), Broken> {
    match command {
        Command::Find(format, place, extent, count) => {
            let first = address_of(machine, place);
            put_found(
                alloc, session, words, format, first, extent, count, machine, output,
            )
        }
        _ => Ok(()),
    }
}
