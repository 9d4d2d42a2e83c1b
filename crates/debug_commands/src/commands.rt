//! A command obeyed.
ghost use Rattle.std.specs.Prelude.{◌≡◌, IfOk, OnOk};
ghost use Rattle.dbg_back.specs.Walks.{CanWalk};
ghost use Rattle.debug_moves.specs.Sessions.{MeetsStop};
ghost use Rattle.debug_walk.specs.Walks.{StaysOn};

use crate::reports::{before_step, put_stop};
use debug_moves::{Broken, Reached, Session, go, go_to_last_write, is_by_lines};
use debug_names::{Thing, vector_of};
use debug_places::Place;
use debug_points::{Aim, What};
use debug_reports::{find_by, put, put_listing, show_by};
use debug_shows::push_place;
use debug_texts::{push_decimal, push_hex, push_lanes};
use debug_values::address_of;
use debug_walk::Trail;
use debug_words::{Change, Command, Move};
use emu_bits::Esize;
use emu_machine::Machine;
use io_gate::Sink;
use std::alloc::{AllocError, Global};

/// How many steps a command may look through as it goes back before a person is told.
const UNTOLD_STEPS: u64 = 10_000_000;

/// Adds a break or watch, and puts it.
fn add<O: Sink>(
    alloc: Global,
    session: &mut Session,
    what: What,
    once: bool,
    address: u64,
    output: &mut O,
) -> Result<(), Broken>
    ensures { session.new.input.now ≡ session.old.input.now }
{
    if session.points.items().len() >= 64 {
        return put("there are 64 breaks and watches: delete one\n", output);
    }
    if session.points.is_full() {
        return put("no number is left for a break or watch\n", output);
    }
    let number = session.points.add(what, once)?;
    let mut text = String::new(alloc);
    text.push_str("number ")?;
    push_decimal(&mut text, number)?;
    text.push_str(" at ")?;
    push_place(&mut text, session.symbols, address)?;
    text.push_str("\n")?;
    put(text.as_str(), output)
}

/// Changes a break or watch, or all.
fn change<O: Sink>(
    session: &mut Session,
    way: Change,
    number: Option<u64>,
    output: &mut O,
) -> Result<(), Broken>
    ensures { session.new.input.now ≡ session.old.input.now }
{
    match number {
        Some(number) if !session.points.has(number) => put(
            "no break or watch has that number\n",
            output,
        ),
        number => {
            session.points.change(way, number);
            Ok(())
        }
    }
}

/// Lets a break or watch pass so many stops.
fn ignore<O: Sink>(
    session: &mut Session,
    number: u64,
    count: u64,
    output: &mut O,
) -> Result<(), Broken>
    ensures { session.new.input.now ≡ session.old.input.now }
{
    if !session.points.has(number) {
        return put("no break or watch has that number\n", output);
    }
    session.points.ignore(number, count);
    Ok(())
}

/// Appends a register, if there is one: a scalar one by its own arm, which the proof of `push` wants. Err is want of
/// memory.
fn push_column(things: &mut Vec<Thing>, found: &Option<Thing>) -> Result<(), AllocError> {
    match found {
        Some(Thing::Scalar(register)) => things.push(Thing::Scalar(*register))?,
        Some(thing) => things.push(*thing)?,
        None => {}
    }
    Ok(())
}

/// The registers that the words behind the first name. Err is want of memory.
fn columns(alloc: Global, words: &[&str], count: usize) -> Result<Vec<Thing>, AllocError> {
    let mut things = Vec::new(alloc);
    'words: for k in 0..count {
        if k + 1 < words.len() {
            let found = vector_of(words[k + 1]);
            push_column(&mut things, &found)?;
        }
    }
    Ok(things)
}

/// Puts lanes beside each other.
fn put_lanes<O: Sink>(
    alloc: Global,
    session: &Session,
    words: &[&str],
    count: usize,
    size: Option<Esize>,
    machine: &mut Machine,
    trail: &mut Trail,
    output: &mut O,
) -> Result<(), Broken>
    requires walks { CanWalk session.now.input.now machine.old trail.old }
    ensures stays { OnOk result (StaysOn session.now.input.now machine.old machine.new trail.old trail.new) }
    ensures same { OnOk result (machine.new.parts ≡ machine.old.parts) }
{
    let things = columns(alloc, words, count)?;
    let before = before_step(alloc, session, machine, trail)?;
    let mut text = String::new(alloc);
    let now = machine.vec();
    let old = match &before {
        None => now,
        Some(before) => before.vec(),
    };
    push_lanes(&mut text, old, now, size, &things)?;
    put(text.as_str(), output)
}

/// Goes back to the last write to so many bytes from an address on, and puts where that is.
fn last_write<O: Sink, E: Sink>(
    alloc: Global,
    session: &Session,
    address: u64,
    count: u64,
    machine: &mut Machine,
    trail: &mut Trail,
    output: &mut O,
    errors: &mut E,
) -> Result<(), Broken>
    requires walks { CanWalk session.now.input.now machine.old trail.old }
    ensures stays { OnOk result (StaysOn session.now.input.now machine.old machine.new trail.old trail.new) }
{
    let found = go_to_last_write(
        alloc, session, address, count, machine, trail, output, errors,
    )?;
    if found {
        let reached = Reached::Written(address, count);
        return put_stop(alloc, session, reached, machine, trail, output);
    }
    let mut text = String::new(alloc);
    text.push_str("no step before this one wrote to ")?;
    push_hex(&mut text, address)?;
    text.push_str("\n")?;
    put(text.as_str(), output)
}

/// Obeys a command that moves the machine: to what it reached.
fn reach<O: Sink, E: Sink>(
    session: &mut Session,
    command: Command,
    machine: &mut Machine,
    trail: &mut Trail,
    output: &mut O,
    errors: &mut E,
) -> Result<Reached, Broken>
    requires walks { CanWalk session.old.input.now machine.old trail.old }
    ensures stays { OnOk result (StaysOn session.old.input.now machine.old machine.new trail.old trail.new) }
    ensures input { session.new.input.now ≡ session.old.input.now }
    ensures met { IfOk result (MeetsStop machine.new) }
{
    match command {
        Command::Run => {
            session.go(machine, trail, 0, output, errors)?;
            session.seek(Aim::Stops, machine, trail, output, errors)
        }
        Command::Go(way, count) => go(session, way, count, machine, trail, output, errors),
        Command::Finish => {
            let aim = session.behind_return(machine);
            session.seek(aim, machine, trail, output, errors)
        }
        Command::Until(place) => {
            let aim = Aim::At(address_of(machine, place));
            session.seek(aim, machine, trail, output, errors)
        }
        Command::FinishBack => {
            let aim = session.before_call(machine);
            Ok(session.seek_back(aim, machine, trail))
        }
        Command::Goto(steps) => {
            session.go(machine, trail, steps, output, errors)?;
            Ok(Reached::Aim)
        }
        _ => Ok(Reached::Aim),
    }
}

/// Obeys a command that moves the machine, and puts where it stands then.
fn move_by<O: Sink, E: Sink>(
    alloc: Global,
    session: &mut Session,
    command: Command,
    machine: &mut Machine,
    trail: &mut Trail,
    output: &mut O,
    errors: &mut E,
) -> Result<(), Broken>
    requires walks { CanWalk session.old.input.now machine.old trail.old }
    ensures stays { OnOk result (StaysOn session.old.input.now machine.old machine.new trail.old trail.new) }
    ensures input { session.new.input.now ≡ session.old.input.now }
{
    let reached = reach(session, command, machine, trail, output, errors)?;
    put_stop(alloc, session, reached, machine, trail, output)
}

/// Obeys a command that adds or changes breaks and watches.
fn point_by<O: Sink>(
    alloc: Global,
    session: &mut Session,
    command: Command,
    machine: &Machine,
    output: &mut O,
) -> Result<(), Broken>
    ensures { session.new.input.now ≡ session.old.input.now }
{
    match command {
        Command::Break(place, condition, once) => {
            let address = address_of(machine, place);
            add(
                alloc,
                session,
                What::Break(address, condition),
                once,
                address,
                output,
            )
        }
        Command::Watch(kind, place, count) => {
            let address = address_of(machine, place);
            add(
                alloc,
                session,
                What::Watch(kind, address, count),
                false,
                address,
                output,
            )
        }
        Command::Change(way, number) => change(session, way, number, output),
        Command::Ignore(number, count) => ignore(session, number, count, output),
        _ => Ok(()),
    }
}

/// Obeys a command that may move the machine, or shows what its last step changed.
fn walk_by<O: Sink, E: Sink>(
    alloc: Global,
    session: &mut Session,
    words: &[&str],
    command: Command,
    machine: &mut Machine,
    trail: &mut Trail,
    output: &mut O,
    errors: &mut E,
) -> Result<(), Broken>
    requires walks { CanWalk session.old.input.now machine.old trail.old }
    ensures stays { OnOk result (StaysOn session.old.input.now machine.old machine.new trail.old trail.new) }
    ensures input { session.new.input.now ≡ session.old.input.now }
{
    match command {
        Command::Lanes(count, size) => put_lanes(
            alloc, session, words, count, size, machine, trail, output,
        ),
        Command::LastWrite(place, count) => {
            let address = address_of(machine, place);
            last_write(
                alloc, session, address, count, machine, trail, output, errors,
            )
        }
        moved => move_by(alloc, session, moved, machine, trail, output, errors),
    }
}

/// How many steps a command looks through at most as it goes back; 0 where it doesn't. A slice of them each time that
/// it goes, and for the last write all.
fn steps_back(session: &Session, command: &Command, machine: &Machine) -> u64 {
    let behind = machine.steps();
    match command {
        Command::LastWrite(_, _) => behind,
        Command::FinishBack => session.slice.min(behind),
        Command::Go(way, count) if matches!(*way, Move::ContinueBack | Move::NextBack) => session
            .slice
            .saturating_mul(*count)
            .min(behind),
        _ => 0,
    }
}

/// Puts how many steps a command looks through at most as it goes back, where they are many and a person waits.
fn tell_back<O: Sink>(
    alloc: Global,
    session: &Session,
    command: &Command,
    machine: &Machine,
    output: &mut O,
) -> Result<(), Broken> {
    let steps = steps_back(session, command, machine);
    if !session.prompted || steps <= UNTOLD_STEPS {
        return Ok(());
    }
    let mut text = String::new(alloc);
    text.push_str("looks through up to ")?;
    push_decimal(&mut text, steps)?;
    text.push_str(" steps ..\n")?;
    put(text.as_str(), output)
}

/// Whether a command goes on by lines of the source, of which none is known.
fn lacks_lines(session: &Session, command: &Command) -> bool {
    match command {
        Command::Go(way, _) => session.rows.is_empty() && is_by_lines(*way),
        _ => false,
    }
}

/// Obeys a command that may move the machine, or shows what its last step changed, unless it goes by lines that aren't
/// known. At a terminal a long way back is told of before. Listings begin anew behind it.
fn walk_or_refuse<O: Sink, E: Sink>(
    alloc: Global,
    session: &mut Session,
    words: &[&str],
    command: Command,
    machine: &mut Machine,
    trail: &mut Trail,
    output: &mut O,
    errors: &mut E,
) -> Result<(), Broken>
    requires walks { CanWalk session.old.input.now machine.old trail.old }
    ensures stays { OnOk result (StaysOn session.old.input.now machine.old machine.new trail.old trail.new) }
    ensures input { session.new.input.now ≡ session.old.input.now }
{
    if lacks_lines(session, &command) {
        return put(
            "no lines of the source are known: svemu-debug gives them, or --lines FILE\n",
            output,
        );
    }
    tell_back(alloc, session, &command, machine, output)?;
    session.listed = None;
    walk_by(
        alloc, session, words, command, machine, trail, output, errors,
    )
}

/// What a command does beside the machine.
#[derive(Clone, Copy)]
enum Kind {
    Ends,
    Sets(u64),
    Points,
    Lists(Option<Place>),
    Finds,
    Shows,
    Walks,
}

/// What kind a command is of.
fn kind_of(command: &Command) -> Kind {
    match command {
        Command::Quit => Kind::Ends,
        Command::Slice(steps) => Kind::Sets(*steps),
        Command::Break(_, _, _) | Command::Watch(_, _, _) => Kind::Points,
        Command::Change(_, _) | Command::Ignore(_, _) => Kind::Points,
        Command::List(place) => Kind::Lists(*place),
        Command::Find(_, _, _, _) => Kind::Finds,
        Command::Lanes(_, _) | Command::LastWrite(_, _) => Kind::Walks,
        Command::Run | Command::Go(_, _) | Command::Finish | Command::Until(_) => Kind::Walks,
        Command::FinishBack | Command::Goto(_) => Kind::Walks,
        _ => Kind::Shows,
    }
}

/// Obeys a command. False where it ends the session.
pub fn obey<O: Sink, E: Sink>(
    alloc: Global,
    session: &mut Session,
    words: &[&str],
    command: Command,
    machine: &mut Machine,
    trail: &mut Trail,
    output: &mut O,
    errors: &mut E,
) -> Result<bool, Broken>
    requires walks { CanWalk session.old.input.now machine.old trail.old }
    ensures stays { OnOk result (StaysOn session.old.input.now machine.old machine.new trail.old trail.new) }
    ensures input { session.new.input.now ≡ session.old.input.now }
{
    match kind_of(&command) {
        Kind::Ends => Ok(false),
        Kind::Sets(steps) => {
            session.slice = steps;
            Ok(true)
        }
        Kind::Points => {
            point_by(alloc, session, command, machine, output)?;
            Ok(true)
        }
        Kind::Lists(place) => {
            put_listing(alloc, session, place, machine, output)?;
            Ok(true)
        }
        Kind::Finds => {
            find_by(alloc, session, words, command, machine, output)?;
            Ok(true)
        }
        Kind::Shows => {
            show_by(alloc, session, words, command, machine, output)?;
            Ok(true)
        }
        Kind::Walks => {
            walk_or_refuse(
                alloc, session, words, command, machine, trail, output, errors,
            )?;
            Ok(true)
        }
    }
}
