//! Lines.
use crate::directive::Directive;
use asm_tokens::{Name, Target};

/// A part of the program.
#[derive(Clone, Copy, Debug, PartialEq, Eq)]
pub enum Section {
    Code,
    Data,
}

/// What a line holds behind its label. Instructions are of the type `I`.
#[derive(Debug, Drop)]
pub enum Body<I> {
    Nothing,
    /// An instruction.
    Plain(I),
    /// An instruction whose target is still to be put in.
    Aimed(I, Target),
    Directive(Directive),
}

/// A line of a listing.
#[derive(Debug, Drop)]
pub struct Line<I> {
    pub label: Option<Name>,
    pub body: Body<I>,
}
