//! Directives.
use asm_tokens::{Name, Values};

/// The name of a directive.
#[derive(Clone, Copy, Debug, PartialEq, Eq)]
pub enum DirectiveName {
    Code,
    Data,
    Byte,
    Half,
    Word,
    Quad,
    Ascii,
    Zero,
    Align,
    Bss,
    Entry,
}

/// A directive with its arguments.
#[derive(Debug, Drop)]
pub enum Directive {
    /// What follows is code.
    Code,
    /// What follows is data.
    Data,
    /// Numbers of so many bytes each, or addresses of labels.
    Numbers(u32, Values),
    /// The bytes of a text.
    Ascii(Name),
    /// So many zeros.
    Zero(u64),
    /// Zeros up to a multiple of so many bytes.
    Align(u32),
    /// So many bytes of memory after the data.
    Bss(u64),
    /// The label where the program begins.
    Entry(Name),
}
