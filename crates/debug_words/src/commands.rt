//! The commands of the debugger.

use debug_names::{Thing, Verb};
use debug_places::{Condition, Format, Place};
use emu_bits::Esize;

/// Which accesses a watch stops at.
#[derive(Clone, Copy)]
pub enum WatchKind {
    Writes,
    Reads,
    Both,
}

/// How a command goes on or back, so often.
#[derive(Clone, Copy)]
pub enum Move {
    /// To the next stop.
    Continue,
    /// A step.
    Step,
    /// A step, with the whole of a call that it makes.
    Next,
    /// Steps up to another line of the source.
    StepLine,
    /// The same, with the whole of each call that they make.
    NextLine,
    StepBack,
    NextBack,
    ContinueBack,
}

/// What is done to a break or watch, or to all.
#[derive(Clone, Copy)]
pub enum Change {
    Delete,
    Disable,
    Enable,
}

/// How far a search reaches.
#[derive(Clone, Copy)]
pub enum Extent {
    /// Over so many bytes, 1 to 67,108,864.
    Length(u64),
    /// Up to a place, with the byte there.
    Upto(Place),
}

/// A command.
#[derive(Clone, Copy)]
pub enum Command {
    /// Adds a break at a place, which stops where its condition holds, and only once where that is told.
    Break(Place, Option<Condition>, bool),
    /// Adds a watch of so many bytes, 1 to 4,096, from a place on.
    Watch(WatchKind, Place, u64),
    /// Changes the break or watch of a number, or all.
    Change(Change, Option<u64>),
    /// The break or watch of the first number passes so many stops.
    Ignore(u64, u64),
    /// Shows the breaks and watches.
    InfoPoints,
    /// Shows so many scalar registers, which the words behind `info registers` name; where there are none, all and the
    /// vector length.
    InfoRegisters(usize),
    /// Shows the symbol of a place.
    InfoSymbol(Place),
    /// Shows the line of the source of a place, or of where the machine stands.
    InfoLine(Option<Place>),
    /// Goes to the start, and on from there.
    Run,
    /// Goes on or back so often.
    Go(Move, u64),
    /// Goes on until the present function returns.
    Finish,
    /// Goes on to a place.
    Until(Place),
    /// Goes back to the call of the present function.
    FinishBack,
    /// Goes to where so many steps are counted.
    Goto(u64),
    /// Goes back to the step that wrote to so many bytes from a place on last.
    LastWrite(Place, u64),
    Print(Format, Thing),
    PrintPlace(Format, Place),
    /// Shows memory.
    Examine(Format, Place),
    /// Shows where the values, of which there are so many, stand in memory one behind the other, from a place on.
    Find(Format, Place, Extent, usize),
    /// Shows the instructions at a place, or where the machine stands.
    Disassemble(Option<Place>),
    Backtrace,
    /// Shows where the machine stands.
    Where,
    /// Shows how many steps are counted.
    When,
    /// Shows the lanes of so many registers, which the words behind the first name, beside each other.
    Lanes(usize, Option<Esize>),
    /// Shows the lines of the source around a place, or around where the machine stands.
    List(Option<Place>),
    /// Obeys the lines of the file that the word behind the name names.
    Source,
    /// Sets how many steps a command goes at most.
    Slice(u64),
    /// Shows the form of a command, or of all.
    Help(Option<Verb>),
    Quit,
}
