//! Commands over two programs of mapped pages, `guest_pages` and the plain `plain_pages`: what each command answers, or
//! that the two differ. Commands about memory are obeyed by `guest_mem` over the first.
//!
//! At most 40 pages may be mapped. Each line is a command with its numbers, decimal or hexadecimal behind `0x`:
//!
//! - `map FIRST COUNT RIGHTS`, `unmap FIRST COUNT` and `protect FIRST COUNT RIGHTS`, with 4 for r, 2 for w and 1 for x;
//! - `write PAGE AT COUNT BYTE` and `store PAGE AT COUNT BYTE`, which replace COUNT bytes from place AT on by BYTE and
//!   those that follow it, modulo 256;
//! - `lend PAGE AT BYTE` and `part PAGE AT COUNT BYTE`, which replace a byte of a mapped page, and bytes as `write`
//!   does, through bytes that are lent;
//! - `find PAGE`; `seek PAGE`, which is `find` of the plain program; `free COUNT BELOW`; and `mapped`;
//! - `load ADDRESS COUNT KIND` and `put ADDRESS COUNT VALUE`, a number of so many bytes, where KIND is `read`, `write`
//!   or `fetch`; `peek ADDRESS`; `slice ADDRESS MOST KIND`, the bytes to the end of a page, and `fill ADDRESS MOST
//!   BYTE`, which replaces those that may be written;
//! - `new LIMIT`: from here on no pages are mapped, and at most so many may be; `marked LIMIT`: the same, with sixteen
//!   marks;
//! - `mark K`, `drop K` and `restore K`. The plain program has no marks: it goes back by obeying anew the commands that
//!   led to a mark.
//!
//! Of a page that is found, its rights are written and the sum of its bytes, each times its place counted from 1,
//! modulo 2^32.
ghost use Rattle.std.specs.Prelude.{◌≤◌};
ghost use Rattle.emu_model.specs.Access.{most_mapped_pages};

use crate::answers::Answer;
use crate::commands::{Command, Words, command_of, words_of};
use crate::marks::{Change, Past, change_of, changed};
use crate::memory::reply_of;
use crate::programs::{by_list, by_plain_list};
use emu_model::MOST_MAPPED_PAGES;
use guest_mem::Mem;
use std::alloc::{AllocError, Global};
use std::io;

/// The greatest number of mapped pages.
const LIMIT: u32 = 40;

/// Both programs, and how many commands they obeyed and how many they answered differently.
#[derive(Drop)]
pub struct Both {
    memory: Mem,
    plain: plain_pages::Pages,
    past: Past,
    commands: u64,
    differ: u64,
}

impl Both {
    /// No pages, of which at most 40 may be mapped.
    pub fn first(alloc: Global) -> Result<Both, AllocError> {
        Both::new(alloc, guest_pages::Pages::new(alloc, LIMIT)?, LIMIT)
    }

    /// No pages, which these are too, and of which at most so many may be mapped.
    fn new(alloc: Global, pages: guest_pages::Pages, limit: u32) -> Result<Both, AllocError> {
        Ok(Both {
            memory: Mem::new(pages),
            plain: plain_pages::Pages::new(alloc, limit)?,
            past: Past::new(alloc, limit)?,
            commands: 0,
            differ: 0,
        })
    }

    /// No pages from here on, of which at most so many may be mapped, with marks or with none.
    fn begin(&mut self, alloc: Global, limit: u32, is_marked: bool) -> Result<(), AllocError>
        requires { limit ≤ most_mapped_pages }
    {
        let pages = if is_marked {
            guest_pages::Pages::with_marks(alloc, limit)?
        } else {
            guest_pages::Pages::new(alloc, limit)?
        };
        let mut next = Both::new(alloc, pages, limit)?;
        next.commands = self.commands;
        next.differ = self.differ;
        *self = next;
        Ok(())
    }

    /// Changes a mark, and writes what that answers.
    fn change(&mut self, rt: HostRuntime, line: &str, change: Change) -> io::Result<()> {
        self.commands = self.commands.saturating_add(1);
        let answer = changed(self.memory.pages_mut(), change);
        if answer == Answer::Done {
            self.past.follow(&mut self.plain, change)?;
        }
        println!(rt; "{line}: {answer:?}")
    }

    /// Obeys a command by both programs, and writes what they answer.
    fn obey(&mut self, rt: HostRuntime, line: &str, command: Command) -> io::Result<()> {
        self.commands = self.commands.saturating_add(1);
        let answer = by_list(self.memory.pages_mut(), command);
        let other = by_plain_list(&mut self.plain, command);
        self.past.add(command)?;
        if answer == other {
            return println!(rt; "{line}: {answer:?}");
        }
        self.differ = self.differ.saturating_add(1);
        println!(rt; "{line}: {answer:?}, and by the plain program {other:?}")
    }

    /// Obeys the command of a line, and writes what it answers.
    fn answer(&mut self, rt: HostRuntime, line: &str, words: &Words) -> io::Result<()> {
        if let Some(reply) = reply_of(&mut self.memory, words) {
            self.commands = self.commands.saturating_add(1);
            return println!(rt; "{line}: {reply:?}");
        }
        if let Some(change) = change_of(words) {
            return self.change(rt, line, change);
        }
        if let Some(command) = command_of(words) {
            return self.obey(rt, line, command);
        }
        println!(rt; "{line}: no command")
    }

    /// Obeys a line.
    pub fn play(&mut self, rt: HostRuntime, line: &str) -> io::Result<()> {
        let words = words_of(line);
        if words.name == "new" || words.name == "marked" {
            let limit = limit_of(words.numbers[0]);
            self.begin(rt.alloc(), limit, words.name == "marked")?;
            return println!(rt; "{line}: Done");
        }
        self.answer(rt, line, &words)
    }

    /// Writes how many commands there were, and of how many the answers differ.
    pub fn count(&self, rt: HostRuntime) -> io::Result<()> {
        println!(rt; "{} commands, {} differ", self.commands, self.differ)
    }
}

/// The greatest number of mapped pages that a number says, modulo the greatest that may be chosen.
fn limit_of(number: u64) -> u32
    ensures { result ≤ most_mapped_pages }
{
    (number % MOST_MAPPED_PAGES) as u32
}
