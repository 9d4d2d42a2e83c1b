//! Marks of the pages that the program runs with, and the commands that led to what each of them keeps, by which the
//! plain program goes back: it obeys them anew.
use crate::answers::Answer;
use crate::commands::{Command, Words};
use crate::programs::by_plain_list;
use std::alloc::{AllocError, Global};

/// The number of marks.
const MARKS: usize = 16;

/// A command about a mark.
#[derive(Clone, Copy)]
pub enum Change {
    Mark(u32),
    Drop(u32),
    Restore(u32),
}

/// The command about a mark that a line is.
pub fn change_of(words: &Words) -> Option<Change> {
    let k = words.numbers[0].min(u64::from(u32::MAX)) as u32;
    match words.name {
        "mark" => Some(Change::Mark(k)),
        "drop" => Some(Change::Drop(k)),
        "restore" => Some(Change::Restore(k)),
        _ => None,
    }
}

/// Makes a mark the pages as they are, unless it is set already, or frames may be wanting.
fn mark(pages: &mut guest_pages::Pages, k: u32) -> Answer {
    if k as usize >= pages.marks() {
        return Answer::OutOfRange;
    }
    if pages.is_marked(k) {
        return Answer::OutOfRange;
    }
    if u64::from(pages.limit()) + u64::from(pages.mapped()) > u64::from(pages.spare()) {
        return Answer::Full;
    }
    pages.mark(k);
    Answer::Done
}

/// Makes a mark none.
fn drop_mark(pages: &mut guest_pages::Pages, k: u32) -> Answer {
    if k as usize >= pages.marks() {
        return Answer::OutOfRange;
    }
    pages.drop_mark(k);
    Answer::Done
}

/// Makes the pages those of a mark, where at most two are set.
fn restore(pages: &mut guest_pages::Pages, k: u32) -> Answer {
    if k as usize >= pages.marks() {
        return Answer::OutOfRange;
    }
    if !pages.is_marked(k) {
        return Answer::Missing;
    }
    if pages.marked() > 2 {
        return Answer::Full;
    }
    pages.restore(k);
    Answer::Done
}

/// What a command about a mark answers over the pages that the program runs with.
pub fn changed(pages: &mut guest_pages::Pages, change: Change) -> Answer {
    match change {
        Change::Mark(k) => mark(pages, k),
        Change::Drop(k) => drop_mark(pages, k),
        Change::Restore(k) => restore(pages, k),
    }
}

/// The commands that led from no pages to those that are mapped, and to those of each mark.
#[derive(Drop)]
pub struct Past {
    alloc: Global,
    limit: u32,
    commands: Vec<Command>,
    marks: Vec<Vec<Command>>,
}

impl Past {
    /// No commands, over pages with a limit.
    pub fn new(alloc: Global, limit: u32) -> Result<Past, AllocError> {
        let mut marks = Vec::new(alloc);
        for _turn in 0..MARKS {
            marks.push(Vec::new(alloc))?;
        }
        Ok(Past {
            alloc,
            limit,
            commands: Vec::new(alloc),
            marks,
        })
    }

    /// Appends a command.
    pub fn add(&mut self, command: Command) -> Result<(), AllocError> {
        self.commands.push(command)?;
        Ok(())
    }

    /// Keeps the commands so far as those of a mark.
    fn keep(&mut self, k: u32) -> Result<(), AllocError> {
        let commands = self.commands.clone()?;
        if let Some(mark) = self.marks.get_mut(k as usize) {
            *mark = commands;
        }
        Ok(())
    }

    /// Goes back to the commands of a mark, which the plain program obeys anew.
    fn go_back(&mut self, plain: &mut plain_pages::Pages, k: u32) -> Result<(), AllocError> {
        let commands = match self.marks.get(k as usize) {
            Some(commands) => commands.clone()?,
            None => Vec::new(self.alloc),
        };
        *plain = plain_pages::Pages::new(self.alloc, self.limit)?;
        for command in &commands {
            let _ = by_plain_list(plain, *command);
        }
        self.commands = commands;
        Ok(())
    }

    /// Does the same over the plain program as a command about a mark that was done.
    pub fn follow(
        &mut self,
        plain: &mut plain_pages::Pages,
        change: Change,
    ) -> Result<(), AllocError> {
        match change {
            Change::Mark(k) => self.keep(k),
            Change::Drop(_) => Ok(()),
            Change::Restore(k) => self.go_back(plain, k),
        }
    }
}
