//! What came of a command line, as lines.
use crate::done::Done;
use case_streams::{first_line, show, show_digest};
use std::io;

/// Writes how a command ended, and what it wrote.
pub fn show_done(rt: HostRuntime, done: &Done) -> io::Result<()> {
    println!(rt; "{:?}, status {}", done.ending, done.ending.status())?;
    show(rt, "output", done.output())?;
    show(rt, "errors", done.errors())
}

/// Writes a line of how a command ended.
pub fn show_brief(rt: HostRuntime, done: &Done) -> io::Result<()> {
    print!(rt; "{:?}, status {}", done.ending, done.ending.status())?;
    show_digest(rt, "output", done.output())?;
    show_digest(rt, "errors", done.errors())?;
    println!(rt; ": {}", first_line(done.errors()))
}
