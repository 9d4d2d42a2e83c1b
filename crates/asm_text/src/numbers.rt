//! Arguments of lists, and what is stored of them.
use asm_tokens::{Target, Token};

/// An argument: a number, or a label by its place in the text.
#[derive(Clone, Copy)]
pub enum Argument {
    Number(i128),
    Label(Token),
}

/// What is stored of the arguments so far, and whether each of them fits.
#[derive(Drop)]
pub struct Numbers {
    pub items: Vec<Target>,
    pub fit: bool,
}
