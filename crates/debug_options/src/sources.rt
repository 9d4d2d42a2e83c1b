//! The files of a program's source, as far as they are there.
ghost use Rattle.std.specs.Prelude.{◌≡◌, IfErr};

use command_lines::Ending;
use io_gate::{Images, ImagesError};
use source_lines::{Row, SourceFile, numbered_lines};
use std::alloc::{AllocError, Global};

/// The most files of a source that are read, and the most bytes of one.
const MOST_FILES: usize = 4096;

const MOST_BYTES: usize = 16_777_216;

/// A file of the source: its name in the table, and its text.
#[derive(Drop)]
pub struct ReadFile<'a> {
    name: &'a str,
    text: String,
}

/// Whether a name is among some.
fn has_name(names: &[&str], name: &str) -> bool {
    let mut found = false;
    for known in names {
        if *known == name {
            found = true;
        }
    }
    found
}

/// Whether a name is the last of some.
fn is_last(names: &[&str], name: &str) -> bool {
    match names.last() {
        None => false,
        Some(last) => *last == name,
    }
}

/// Appends a name that isn't there yet, where there are fewer than the most. Err is want of memory.
fn push_name<'a>(names: &mut Vec<&'a str>, name: &'a str) -> Result<(), AllocError> {
    if is_last(names, name) || names.len() >= MOST_FILES || has_name(names, name) {
        return Ok(());
    }
    names.push(name)?;
    Ok(())
}

/// The names of the files that rows are of. Err is want of memory.
fn names_of<'a>(alloc: Global, rows: &[Row<'a>]) -> Result<Vec<&'a str>, AllocError> {
    let mut names = Vec::new(alloc);
    for row in rows {
        if let Some(place) = row.place {
            push_name(&mut names, place.file)?;
        }
    }
    Ok(names)
}

/// The text of a file, if it is there and has no more bytes than the most. Err is want of memory.
fn text_of<F: Images>(
    alloc: Global,
    name: &str,
    files: &mut F,
) -> Result<Option<String>, AllocError> {
    match files.read_whole(alloc, name, MOST_BYTES) {
        Ok(bytes) => Ok(Some(String::from_utf8_lossy(alloc, &bytes)?)),
        Err(ImagesError::OutOfMemory) => Err(AllocError),
        Err(_) => Ok(None),
    }
}

/// Reads the files that rows are of, as far as they are there. Err is want of memory.
fn read_files<'a, F: Images>(
    alloc: Global,
    rows: &[Row<'a>],
    files: &mut F,
) -> Result<Vec<ReadFile<'a>>, AllocError> {
    let names = names_of(alloc, rows)?;
    let mut read = Vec::new(alloc);
    for name in &names {
        if let Some(text) = text_of(alloc, *name, files)? {
            read.push(ReadFile { name: *name, text })?;
        }
    }
    Ok(read)
}

/// Reads the files that rows are of, as far as they are there.
pub fn read_sources<'a, F: Images>(
    alloc: Global,
    rows: &[Row<'a>],
    files: &mut F,
) -> Result<Vec<ReadFile<'a>>, Ending>
    ensures { IfErr result (λ ending. ending ≡ Ending.OutOfMemory) }
{
    match read_files(alloc, rows, files) {
        Ok(read) => Ok(read),
        Err(_) => Err(Ending::OutOfMemory),
    }
}

/// The lines of files that were read. Err is want of memory.
fn lines_of<'a>(
    alloc: Global,
    read: &'a [ReadFile<'a>],
) -> Result<Vec<SourceFile<'a>>, AllocError> {
    let mut sources = Vec::new(alloc);
    for file in read {
        sources.push(SourceFile {
            name: file.name,
            lines: numbered_lines(alloc, file.text.as_str())?,
        })?;
    }
    Ok(sources)
}

/// The lines of files that were read.
pub fn seen_sources<'a>(
    alloc: Global,
    read: &'a [ReadFile<'a>],
) -> Result<Vec<SourceFile<'a>>, Ending>
    ensures { IfErr result (λ ending. ending ≡ Ending.OutOfMemory) }
{
    match lines_of(alloc, read) {
        Ok(sources) => Ok(sources),
        Err(_) => Err(Ending::OutOfMemory),
    }
}
