//! Compares single words and pages with what other programs say of them, and writes the lines that differ. It is proved
//! for safety alone, as the program that reads the lines is.
//!
//! In the section `pages` each line is a command over mapped pages (`pages.rt`), and what it answers is written. In the
//! section `words` a line is of a word.
//!
//! A line of four columns, with a tab between them, is a case: one step as another emulator answered it, or as it was
//! worked by hand. Its columns are the word, a vector length, the state before the step and what differs after it, as
//! items `name=value` with a space between them. Numbers are hexadecimal:
//!
//! - `x0` to `x30`, `sp`, `pc`, `tpidr`, `nzcv` with four binary digits, and `z0` to `z31`, `p0` to `p15` and `ffr`
//!   with all their digits, the most significant first; registers that aren't given are 0 before;
//! - before the step `monitor=ADDRESS:BYTES`, `page=ADDRESS:RIGHTS`, a mapped page, and `mem=ADDRESS:DIGITS`, bytes of
//!   it;
//! - after the step `mem=ADDRESS:DIGITS`, bytes that differ, and `trap=KIND:ADDRESS`. Where no `pc` and no trap is
//!   given it goes on behind the word. The monitor is compared where it is given, which may be `none`, and so is
//!   `accesses=COUNT`, the number of the elements that were loaded or stored. A first-faulting or non-faulting load is
//!   done twice, at once where that is possible and element by element.
//!
//! A line of three columns is a word, the name of the form of its row, or `-` where it is in no row, and the text that
//! a disassembler has for it, which is there for the reader alone.
#![tactic(auto)]

mod answers;
mod cases;
mod commands;
mod digits;
mod marks;
mod memory;
mod named_words;
mod names;
mod pages;
mod programs;
mod state;

use crate::cases::agrees;
use crate::named_words::line_agrees;
pub use crate::pages::Both;
use std::io;

/// How many lines there are of a kind, and how many of them differ.
#[derive(Clone, Copy)]
struct Count {
    lines: u64,
    differ: u64,
}

impl Count {
    /// No lines.
    fn new() -> Count {
        Count {
            lines: 0,
            differ: 0,
        }
    }

    /// Counts a line.
    fn add(&mut self, differs: bool) {
        self.lines = self.lines.saturating_add(1);
        self.differ = self.differ.saturating_add(u64::from(differs));
    }
}

/// How many lines of words there were so far, of both kinds, and how many of them differ.
#[derive(Clone, Copy)]
pub struct Words {
    cases: Count,
    words: Count,
}

impl Words {
    /// No lines.
    pub fn new() -> Words {
        Words {
            cases: Count::new(),
            words: Count::new(),
        }
    }

    /// Compares the line of a word.
    pub fn play(&mut self, rt: HostRuntime, line: &str) -> io::Result<()> {
        let differs = if line.split('\t').count() == 4 {
            let differs = !agrees(rt.alloc(), line);
            self.cases.add(differs);
            differs
        } else {
            let differs = !line_agrees(line);
            self.words.add(differs);
            differs
        };
        if differs {
            println!(rt; "differs: {line}")?;
        }
        Ok(())
    }

    /// Writes how many lines there were, and how many differ.
    pub fn count(&self, rt: HostRuntime) -> io::Result<()> {
        println!(rt; "{} cases, {} differ", self.cases.lines, self.cases.differ)?;
        println!(rt; "{} words, {} differ", self.words.lines, self.words.differ)
    }
}
