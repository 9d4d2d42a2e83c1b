//! Makes calls of the system and of functions of numbers, reads executables and schedules, and writes the lines of
//! cases that differ. It is proved for safety alone, as the program that reads the lines is.
//!
//! The lines of a section are each a case, but an empty one, and one that begins with `#`. The sections are:
//!
//! - `calls`: with ` = ` in it, what a function makes of numbers (`numbers.rt`); without, calls of one program after
//!   the other, and what they answer;
//! - `schedules`: texts of schedules, and what is read of them (`schedules.rt`);
//! - `images`: executables, and what is read of them (`images.rt`), where a line that begins with `from` is no case.
//!
//! The items of a line of calls are `NAME=VALUE`, with a space between them. A number is decimal, or hexadecimal behind
//! `0x`; behind a `-` it is taken from 2^64. Of text, `.` is the byte 0.
//!
//! What there is before the first call:
//!
//! - `vl=BITS`, the starting vector length, else 128, and `pages=COUNT`, the greatest number of mapped pages, else
//!   16,384;
//! - `input=TEXT`; `portion=COUNT`, how many bytes a stream moves at most by one take or put, else 4,096;
//!   `fail=NUMBER`, which take or put of each stream fails, counted from 0;
//! - `data=ADDRESS:TEXT`, bytes of the page of data at 0x401000, which may be read and written, and is there where a
//!   line has such an item; `entry=ADDRESS:BASE,LENGTH`, two numbers of 8 bytes each there. The page at 0x400000 may be
//!   read and executed, the 256 pages of the stack, which end at 0x7ffffffff000, read and written. All other bytes are
//!   0, and the break is behind the last page below the stack.
//!
//! What happens, in order: `call=NUMBER,X0,X1,..:ANSWER`; x0 to x5 that aren't given are 0. ANSWER is what x0 is behind
//! it, or how the program ended: `exit/CODE`, `read-fault`, `write-fault`, `errors-fault`. All registers are told apart
//! before each call, all predicates and FFR are true, and the monitor is set. Behind one that returns, x0 is the
//! answer, the monitor is empty, of each Z register the low 16 bytes are left and of predicates and FFR nothing, and
//! the others are as before; behind one that doesn't, all are. The vector length stays from call to call, and a prctl
//! alone may change it.
//!
//! What is there at this place of the line: `length=BITS`, the present vector length; `memory=ADDRESS:TEXT`; `output=`
//! and `errors=TEXT`, all that was put so far; `page=ADDRESS:RIGHTS`, letters of `rwx`, `-` for none of them, or `none`
//! where the page isn't mapped; `mapped=COUNT`, how many pages are.
#![tactic(auto)]

mod bits;
mod file;
mod images;
mod items;
mod numbers;
mod play;
mod registers;
mod scalars;
mod schedules;

use std::alloc::Global;
use std::io;

/// What the lines of a section are.
#[derive(Clone, Copy)]
enum Kind {
    Call,
    Image,
    Schedule,
    Unknown,
}

/// The kind of a section's name.
fn kind_of(name: &str) -> Kind {
    match name {
        "calls" => Kind::Call,
        "images" => Kind::Image,
        "schedules" => Kind::Schedule,
        _ => Kind::Unknown,
    }
}

/// What the lines are, the items that each case of images begins with, and how many cases there were, and of how many
/// an item differs.
#[derive(Drop)]
pub struct Reader {
    alloc: Global,
    kind: Kind,
    start: String,
    cases: u64,
    differ: u64,
}

/// The first item of a case of calls that isn't as the line has it, or the whole line.
fn call_difference(alloc: Global, line: &str) -> Option<&str> {
    match line.split_once(" = ") {
        None => play::difference(alloc, line),
        Some((asked, answer)) if numbers::agrees(asked, answer) => None,
        Some(_) => Some(line),
    }
}

impl Reader {
    /// No section yet.
    pub fn new(alloc: Global) -> Reader {
        Reader {
            alloc,
            kind: Kind::Unknown,
            start: String::new(alloc),
            cases: 0,
            differ: 0,
        }
    }

    /// The first item of a case that isn't as the line has it, or the whole line.
    fn difference<'a>(&'a self, line: &'a str) -> Option<&'a str> {
        match self.kind {
            Kind::Call => call_difference(self.alloc, line),
            Kind::Image => images::difference(self.alloc, self.start.as_str(), line),
            Kind::Schedule if schedules::agrees(self.alloc, line) => None,
            _ => Some(line),
        }
    }

    /// Looks at a case, and writes it where it differs; whether it does.
    fn compare(&self, rt: HostRuntime, line: &str) -> io::Result<bool> {
        match self.difference(line) {
            Some(item) => {
                println!(rt; "differs at {item}: {line}")?;
                Ok(true)
            }
            None => Ok(false),
        }
    }

    /// Begins the section of a name; false where there is none of this name.
    pub fn begin(&mut self, name: &str) -> bool {
        self.kind = kind_of(name);
        !matches!(self.kind, Kind::Unknown)
    }

    /// Takes a line of the section.
    pub fn play(&mut self, rt: HostRuntime, line: &str) -> io::Result<()> {
        if let Some(items) = line.strip_prefix("from") {
            self.start.clear();
            self.start.push_str(items)?;
        } else if !line.is_empty() && !line.starts_with('#') {
            self.cases = self.cases.saturating_add(1);
            let differs = self.compare(rt, line)?;
            self.differ = self.differ.saturating_add(u64::from(differs));
        }
        Ok(())
    }

    /// Writes how many cases there were, and how many differ.
    pub fn count(&self, rt: HostRuntime) -> io::Result<()> {
        println!(rt; "{} cases of calls, {} differ", self.cases, self.differ)
    }
}
