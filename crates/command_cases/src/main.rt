//! The cases: does the command lines of its input over files and streams in memory, and writes how each ends and what it
//! writes; and compares what its other lines say of calls, words and pages.
//!
//! A line `= SECTION` of standard input says what the lines behind it are, up to the next such line: those of `calls`,
//! `schedules` and `images` are told in `call_cases`, those of `words` and `pages` in `outside_cases`. Before the first
//! such line, each is one of these; an empty one and one that begins with `#` are copied:
//!
//! - `file NAME`: the lines behind it, up to one that is `.`, are the file's, each with its newline.
//! - `bytes NAME BYTE ..`: a file of these bytes, in hexadecimal.
//! - `fill NAME COUNT BYTE`: a file of so many bytes of one value.
//! - `lines NAME TEXT`: a file of the lines of the text, which have `;` between them.
//! - `load NAME`: a file of the folder that this program runs in.
//! - `copy NAME OTHER`: a file with the bytes of another.
//! - `put NAME OFFSET SIZE NUMBER ..`: in a file, numbers in hexadecimal from an offset on, one behind the other, each
//!   of so many bytes, the lowest first; what is behind the end is left out.
//! - `given TEXT`: the next command reads this text.
//! - `supply COUNT BYTE`: the next command reads so many bytes of one value, behind what it was given.
//! - `images NUMBER ..`: of the next command, these calls for a file fail, counted from 0.
//! - `input MOST NUMBER ..`, and so `output` and `errors`: of the next command, the stream moves so many bytes by one
//!   call at most, 4,096 where it isn't said, and these calls fail.
//! - `line WORD ..`: a command line, with one space between two words. What it writes to the output is kept as a file
//!   where `> NAME` stands at the end. A word `@COUNT` is so many letters x, and `~` in a word is the byte 0.
//! - `brief WORD ..`: a command line of which one line is written.
//! - `each OBJECT WORD ..`: a command line as it is, and then again for each call that it made of `images`, `input`,
//!   `output` or `errors`, with this call failing.
//!
//! Of a command, its ending and its status are written, then what it put on the output and on the errors: how many
//! bytes, and their lines where they are text, but those whose last word is four zeros or more, as most registers are;
//! of other bytes each row of 16 that aren't all zero, behind its offset.
//!
//! Of `brief`, its ending and its status, then of the output and of the errors how many bytes there are and the number
//! of 64 bits that FNV-1a makes of them, and at last the first line of the errors.
//!
//! Of `each`, how the command ends as it is; then how it ends by a fault of the object, how many calls there were, and
//! of how many the ending is another, or the streams don't stand, byte by byte, as they stood when the command made
//! this call without a failure. Then come, of each stream, how many bytes had been moved at the first of the calls and
//! at the last, and how many there are.
#![tactic(auto)]

mod done;
mod each;
mod shown;

use crate::done::do_line;
use crate::each::do_each;
use crate::shown::{show_brief, show_done};
use call_cases::Reader;
use case_streams::Scene;
use io_gate::{FileImages, Images};
use outside_cases::{Both, Words};
use std::io;

/// Files are read up to so many bytes.
const FILE_LIMIT: usize = 67_108_864;

/// Keeps a file of this folder.
fn load(rt: HostRuntime, scene: &mut Scene, name: &str) -> io::Result<()> {
    let mut files = FileImages::new(&rt);
    match files.read_whole(rt.alloc(), name, FILE_LIMIT) {
        Ok(bytes) => Ok(scene.keep(rt.alloc(), name, &bytes)?),
        Err(_) => println!(rt; "it can't be read"),
    }
}

/// Does a command line, and writes what came of it.
fn play(rt: HostRuntime, scene: &mut Scene, line: &str) -> io::Result<()> {
    let (line, kept) = match line.split_once(" > ") {
        Some((line, name)) => (line, Some(name)),
        None => (line, None),
    };
    let whole = do_line(rt.alloc(), scene, line, None)?;
    scene.forget();
    show_done(rt, &whole)?;
    match kept {
        Some(name) => Ok(scene.keep(rt.alloc(), name, whole.output())?),
        None => Ok(()),
    }
}

/// Does a command line, and writes a line of what came of it.
fn play_brief(rt: HostRuntime, scene: &mut Scene, line: &str) -> io::Result<()> {
    let whole = do_line(rt.alloc(), scene, line, None)?;
    scene.forget();
    show_brief(rt, &whole)
}

/// Obeys a line that isn't one of an open file's.
fn obey(rt: HostRuntime, scene: &mut Scene, text: &str) -> io::Result<()> {
    println!(rt; "{text}")?;
    if let Some(words) = text.strip_prefix("line ") {
        play(rt, scene, words)
    } else if let Some(words) = text.strip_prefix("brief ") {
        play_brief(rt, scene, words)
    } else if let Some(name) = text.strip_prefix("load ") {
        load(rt, scene, name)
    } else if let Some(text) = text.strip_prefix("each ") {
        do_each(rt, scene, text)?;
        scene.forget();
        Ok(())
    } else if !text.is_empty() && !text.starts_with('#') && !scene.set(rt.alloc(), text)? {
        println!(rt; "this is no line of cases")
    } else {
        Ok(())
    }
}

/// Whose lines the lines of input are.
#[derive(Clone, Copy)]
enum Section {
    Commands,
    Calls,
    Words,
    Pages,
}

/// The section that the lines are of, and what each section has come to.
#[derive(Drop)]
struct Cases {
    section: Section,
    scene: Scene,
    calls: Reader,
    words: Words,
    pages: Both,
}

impl Cases {
    /// Begins a section.
    fn begin(&mut self, rt: HostRuntime, name: &str) -> io::Result<()> {
        println!(rt; "= {name}")?;
        self.section = match name {
            "words" => Section::Words,
            "pages" => Section::Pages,
            _ => Section::Calls,
        };
        if matches!(self.section, Section::Calls) && !self.calls.begin(name) {
            println!(rt; "this is no section")?;
        }
        Ok(())
    }

    /// Takes a line of input.
    fn play(&mut self, rt: HostRuntime, line: &str) -> io::Result<()> {
        if self.scene.is_open() {
            return Ok(self.scene.write_line(line)?);
        }
        if let Some(name) = line.strip_prefix("= ") {
            return self.begin(rt, name);
        }
        match self.section {
            Section::Commands => obey(rt, &mut self.scene, line),
            Section::Calls => self.calls.play(rt, line),
            Section::Words => self.words.play(rt, line),
            Section::Pages => self.pages.play(rt, line),
        }
    }

    /// Takes all lines of input.
    fn play_all(&mut self, rt: HostRuntime) -> io::Result<()> {
        for line in rt.lines(rt.alloc()) {
            let line = line?;
            self.play(rt, line.as_str())?;
        }
        Ok(())
    }

    /// Writes how many cases of each section but the first there were, those of pages first, and how many differ.
    fn count(&self, rt: HostRuntime) -> io::Result<()> {
        self.pages.count(rt)?;
        self.calls.count(rt)?;
        self.words.count(rt)
    }
}

fn main(rt: HostRuntime) -> io::Result<()> {
    let pages = Both::first(rt.alloc())?;
    let mut cases = Cases {
        section: Section::Commands,
        scene: Scene::new(rt.alloc()),
        calls: Reader::new(rt.alloc()),
        words: Words::new(),
        pages,
    };
    cases.play_all(rt)?;
    cases.count(rt)
}
