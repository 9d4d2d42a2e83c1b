//! The files and the streams that commands are done over.
ghost use Rattle.std.specs.Prelude.{◌≤◌, IfOk};

use crate::bytes::{bytes_of, filled, lines_of, put_numbers};
use crate::watched::Object;
use io_gate::{MemImages, MemSink, MemSource};
use std::alloc::{AllocError, Global};

/// How many bytes a stream moves by one call at most, where it isn't said.
const MOST: usize = 4096;

/// Files by name, and how the streams of the next command behave.
#[derive(Drop)]
pub struct Scene {
    files: Vec<(String, Vec<u8>)>,
    /// Whether the lines that come are those of the last file.
    is_open: bool,
    given: Vec<u8>,
    images: String,
    input: String,
    output: String,
    errors: String,
}

/// A call that is to fail: its object, and its number among those of the object, counted from 0.
#[derive(Clone, Copy)]
pub struct Fault {
    pub object: Object,
    pub call: u64,
}

/// The streams of a command.
#[derive(Drop)]
pub struct Streams {
    pub input: MemSource,
    pub output: MemSink,
    pub errors: MemSink,
}

/// The numbers among the words of a text.
fn numbers(alloc: Global, text: &str) -> Result<Vec<u64>, AllocError> {
    let mut found = Vec::new(alloc);
    for word in text.split(' ') {
        if let Ok(number) = word.parse::<u64>() {
            found.push(number)?;
        }
    }
    Ok(found)
}

/// The number of the call that is to fail, where it is one of this object.
fn call_of(fault: Option<Fault>, object: Object) -> Option<u64> {
    match fault {
        Some(fault) if fault.object == object => Some(fault.call),
        _ => None,
    }
}

/// The numbers among the words of a text, and one more.
fn numbers_and(alloc: Global, text: &str, more: Option<u64>) -> Result<Vec<u64>, AllocError> {
    let mut found = numbers(alloc, text)?;
    if let Some(number) = more {
        found.push(number)?;
    }
    Ok(found)
}

/// The most bytes of a call and the calls that fail, `MOST NUMBER ..`, and one more of these.
fn way(alloc: Global, text: &str, more: Option<u64>) -> Result<(usize, Vec<u64>), AllocError>
    ensures { IfOk result (λ r. 1 ≤ r.0) }
{
    let (most, fails) = text.split_once(' ').unwrap_or((text, ""));
    let most = match most.parse::<usize>() {
        Ok(most) if most > 0 => most,
        _ => MOST,
    };
    Ok((most, numbers_and(alloc, fails, more)?))
}

/// A sink that does as a text says, with one call more that fails.
fn sink_of(alloc: Global, text: &str, more: Option<u64>) -> Result<MemSink, AllocError> {
    let (most, fails) = way(alloc, text, more)?;
    Ok(MemSink::new(alloc, most, fails))
}

/// A file once more.
fn copy_of(alloc: Global, name: &String, bytes: &[u8]) -> Result<(String, Vec<u8>), AllocError> {
    Ok((
        String::from_str(alloc, name.as_str())?,
        Vec::from_slice(alloc, bytes)?,
    ))
}

impl Scene {
    /// No files, and streams that don't fail.
    pub fn new(alloc: Global) -> Scene {
        Scene {
            files: Vec::new(alloc),
            is_open: false,
            given: Vec::new(alloc),
            images: String::new(alloc),
            input: String::new(alloc),
            output: String::new(alloc),
            errors: String::new(alloc),
        }
    }

    /// Whether the lines that come are those of a file.
    pub fn is_open(&self) -> bool {
        self.is_open
    }

    /// Writes a line to the file that is open; `.` ends it.
    pub fn write_line(&mut self, line: &str) -> Result<(), AllocError> {
        if line == "." {
            self.is_open = false;
        } else if let Some((_, bytes)) = self.files.last_mut() {
            bytes.extend_from_slice(line.as_bytes())?;
            bytes.push(b'\n')?;
        }
        Ok(())
    }

    /// Keeps a file in place of those of its name.
    fn hold(&mut self, alloc: Global, name: &str, bytes: Vec<u8>) -> Result<(), AllocError> {
        self.files.retain(|file| file.0.as_str() != name);
        self.files.push((String::from_str(alloc, name)?, bytes))?;
        Ok(())
    }

    /// Keeps a copy of bytes as a file.
    pub fn keep(&mut self, alloc: Global, name: &str, bytes: &[u8]) -> Result<(), AllocError> {
        self.hold(alloc, name, Vec::from_slice(alloc, bytes)?)
    }

    /// The bytes of a file; none of one that isn't there.
    fn copied(&self, alloc: Global, name: &str) -> Result<Vec<u8>, AllocError> {
        for file in &self.files {
            if file.0.as_str() == name {
                return Vec::from_slice(alloc, &file.1);
            }
        }
        Ok(Vec::new(alloc))
    }

    /// Writes numbers to a file: `NAME OFFSET SIZE NUMBER ..`.
    fn put(&mut self, text: &str) {
        let (name, text) = text.split_once(' ').unwrap_or((text, ""));
        for file in self.files.iter_mut() {
            if file.0.as_str() == name {
                put_numbers(&mut file.1, text);
            }
        }
    }

    /// Makes the file of a line of its bytes; false where it is no such line.
    fn make(
        &mut self,
        alloc: Global,
        kind: &str,
        name: &str,
        text: &str,
    ) -> Result<bool, AllocError> {
        let bytes = match kind {
            "bytes" => bytes_of(alloc, text),
            "fill" => filled(alloc, text),
            "lines" => lines_of(alloc, text),
            "copy" => self.copied(alloc, text),
            _ => return Ok(false),
        };
        self.hold(alloc, name, bytes?)?;
        Ok(true)
    }

    /// The text that says how a stream or the files of the next command behave. None where it is none of theirs.
    fn way_of(&mut self, name: &str) -> Option<&mut String> {
        match name {
            "images" => Some(&mut self.images),
            "input" => Some(&mut self.input),
            "output" => Some(&mut self.output),
            "errors" => Some(&mut self.errors),
            _ => None,
        }
    }

    /// Takes a line of the files or the streams that isn't one of a file's bytes; false where it is none.
    fn turn(&mut self, alloc: Global, first: &str, more: &str) -> Result<bool, AllocError> {
        match first {
            "file" => {
                self.is_open = true;
                self.hold(alloc, more, Vec::new(alloc))?;
            }
            "put" => self.put(more),
            "given" => self.given.extend_from_slice(more.as_bytes())?,
            "supply" => self.supply(alloc, more)?,
            _ => return self.behave(first, more),
        }
        Ok(true)
    }

    /// Gives the next command so many bytes more to read.
    fn supply(&mut self, alloc: Global, text: &str) -> Result<(), AllocError> {
        let bytes = filled(alloc, text)?;
        self.given.extend_from_slice(&bytes)
    }

    /// Says how a stream or the files of the next command behave; false where they are none.
    fn behave(&mut self, name: &str, text: &str) -> Result<bool, AllocError> {
        match self.way_of(name) {
            Some(way) => {
                way.push_str(text)?;
                Ok(true)
            }
            None => Ok(false),
        }
    }

    /// Takes a line that makes a file or says how streams behave; false where it is none.
    pub fn set(&mut self, alloc: Global, line: &str) -> Result<bool, AllocError> {
        let (first, more) = line.split_once(' ').unwrap_or((line, ""));
        let (name, last) = more.split_once(' ').unwrap_or((more, ""));
        if self.make(alloc, first, name, last)? {
            return Ok(true);
        }
        self.turn(alloc, first, more)
    }

    /// Copies of the files that a command line names.
    fn named_in(&self, alloc: Global, line: &str) -> Result<Vec<(String, Vec<u8>)>, AllocError> {
        let mut named = Vec::new(alloc);
        for (name, bytes) in &self.files {
            if line.split(' ').any(|word| word == name.as_str()) {
                named.push(copy_of(alloc, name, bytes)?)?;
            }
        }
        Ok(named)
    }

    /// What the next command may read.
    pub fn given(&self) -> &[u8] {
        &self.given
    }

    /// The files that a command line names, with one call more that fails.
    pub fn files_of(
        &self,
        alloc: Global,
        line: &str,
        fault: Option<Fault>,
    ) -> Result<MemImages, AllocError> {
        let more = call_of(fault, Object::Images);
        let fails = numbers_and(alloc, self.images.as_str(), more)?;
        Ok(MemImages::new(self.named_in(alloc, line)?, fails))
    }

    /// What a command may read.
    fn source(&self, alloc: Global, fault: Option<Fault>) -> Result<MemSource, AllocError> {
        let more = call_of(fault, Object::Input);
        let (most, fails) = way(alloc, self.input.as_str(), more)?;
        let given = Vec::from_slice(alloc, &self.given)?;
        Ok(MemSource::new(given, most, fails))
    }

    /// The streams of a command, with one call more that fails.
    pub fn streams(&self, alloc: Global, fault: Option<Fault>) -> Result<Streams, AllocError> {
        let to_output = call_of(fault, Object::Output);
        let to_errors = call_of(fault, Object::Errors);
        Ok(Streams {
            input: self.source(alloc, fault)?,
            output: sink_of(alloc, self.output.as_str(), to_output)?,
            errors: sink_of(alloc, self.errors.as_str(), to_errors)?,
        })
    }

    /// From here on no stream fails.
    pub fn forget(&mut self) {
        self.given.clear();
        self.images.clear();
        self.input.clear();
        self.output.clear();
        self.errors.clear();
    }
}
