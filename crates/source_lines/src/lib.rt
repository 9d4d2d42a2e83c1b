//! A table of the lines of a program's source: which line of which file the code at an address is of. It is read from a
//! text, as docs/DEBUGGING.md has it.
#![tactic(auto)]

mod lookup;
mod reader;
mod rows;
mod texts;
mod words;

pub use lookup::{address_at, address_behind, address_of_line, place_at};
pub use reader::{TableError, read_table};
pub use rows::{Row, SourcePlace, TableFault, TableWhy};
pub use texts::{
    NumberedLine, SourceFile, numbered_lines, push_line_name, push_listing, push_source,
};
