//! Streams and files that keep what had been moved when they were called.
use io_gate::{Failed, Images, ImagesError, Sink, Source};
use std::alloc::Global;
use std::cell::Cell;

/// What a command calls.
#[derive(Clone, Copy, Debug, PartialEq, Eq)]
pub enum Object {
    /// The files.
    Images,
    /// The input.
    Input,
    /// The output.
    Output,
    /// The errors.
    Errors,
}

/// The object of a name.
pub fn object_of(name: &str) -> Option<Object> {
    match name {
        "images" => Some(Object::Images),
        "input" => Some(Object::Input),
        "output" => Some(Object::Output),
        "errors" => Some(Object::Errors),
        _ => None,
    }
}

/// How many bytes were taken from the input, and put on the output and on the errors.
#[derive(Clone, Copy, Debug, PartialEq, Eq)]
pub struct Moved {
    pub input: usize,
    pub output: usize,
    pub errors: usize,
}

/// What a command has moved so far.
#[derive(Drop)]
pub struct Tally {
    moved: Cell<Moved>,
}

impl Tally {
    /// Nothing was moved.
    pub fn new() -> Tally {
        Tally {
            moved: Cell::new(Moved {
                input: 0,
                output: 0,
                errors: 0,
            }),
        }
    }

    /// Counts the bytes that a call of the object moved; one that failed moved none.
    fn count(&self, object: Object, moved: Result<usize, Failed>) {
        let bytes = moved.unwrap_or(0);
        let mut moved = self.moved.get();
        match object {
            Object::Images => {}
            Object::Input => moved.input = moved.input.saturating_add(bytes),
            Object::Output => moved.output = moved.output.saturating_add(bytes),
            Object::Errors => moved.errors = moved.errors.saturating_add(bytes),
        }
        self.moved.set(moved);
    }
}

/// An object, and what its command had moved at each of its calls.
#[derive(Drop)]
pub struct Watched<'a, T> {
    of: T,
    object: Object,
    tally: &'a Tally,
    calls: Vec<Moved>,
}

impl<'a, T> Watched<'a, T> {
    /// An object that wasn't called.
    pub fn new(alloc: Global, of: T, object: Object, tally: &'a Tally) -> Watched<'a, T> {
        Watched {
            of,
            object,
            tally,
            calls: Vec::new(alloc),
        }
    }

    /// The object, and what its command had moved at each call.
    pub fn end(self) -> (T, Vec<Moved>) {
        (self.of, self.calls)
    }
}

/// What a command had moved at each call of its objects.
#[derive(Drop)]
pub struct Calls {
    pub images: Vec<Moved>,
    pub input: Vec<Moved>,
    pub output: Vec<Moved>,
    pub errors: Vec<Moved>,
}

impl Calls {
    /// The calls of an object, in their order.
    pub fn of(&self, object: Object) -> &[Moved] {
        match object {
            Object::Images => &self.images,
            Object::Input => &self.input,
            Object::Output => &self.output,
            Object::Errors => &self.errors,
        }
    }
}

// A call that there is no memory to keep shows as a call that isn't among those that were made.

impl<'a, F: Images> Images for Watched<'a, F> {
    ghost named = { λ s. F.named s.of };

    ghost faults = { λ s. F.faults s.of };

    fn read_whole(
        &mut self,
        alloc: Global,
        name: &str,
        limit: usize,
    ) -> Result<Vec<u8>, ImagesError> {
        let _ = self.calls.push(self.tally.moved.get());
        self.of.read_whole(alloc, name, limit)
    }
}

impl<'a, I: Source> Source for Watched<'a, I> {
    ghost left = { λ s. I.left s.of };

    ghost faults = { λ s. I.faults s.of };

    fn take(&mut self, into: &mut [u8]) -> Result<usize, Failed> {
        let _ = self.calls.push(self.tally.moved.get());
        let result = self.of.take(into);
        self.tally.count(self.object, result);
        result
    }
}

impl<'a, O: Sink> Sink for Watched<'a, O> {
    ghost held = { λ s. O.held s.of };

    ghost faults = { λ s. O.faults s.of };

    fn put(&mut self, piece: &[u8]) -> Result<usize, Failed> {
        let _ = self.calls.push(self.tally.moved.get());
        let result = self.of.put(piece);
        self.tally.count(self.object, result);
        result
    }
}
