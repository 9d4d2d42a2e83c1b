//! What a command line comes to over files and streams in memory.
use case_streams::{Calls, Fault, Object, Scene, Streams, Tally, Watched, words_of};
use command_lines::Ending;
use commands::command;
use io_gate::{MemImages, MemSink, read_all};
use std::alloc::{AllocError, Global};

/// How a command ended, and what it left.
#[derive(Drop)]
pub struct Done {
    pub ending: Ending,
    output: MemSink,
    errors: MemSink,
    /// What it left of the input, where that can be read.
    pub left: Option<Vec<u8>>,
    pub calls: Calls,
}

impl Done {
    /// What the command wrote to the output.
    pub fn output(&self) -> &[u8] {
        self.output.kept()
    }

    /// What it wrote to the errors.
    pub fn errors(&self) -> &[u8] {
        self.errors.kept()
    }
}

/// Does a command line over these files and streams.
fn done_over(alloc: Global, words: &[String], files: MemImages, streams: Streams) -> Done {
    let tally = Tally::new();
    let mut files = Watched::new(alloc, files, Object::Images, &tally);
    let mut input = Watched::new(alloc, streams.input, Object::Input, &tally);
    let mut output = Watched::new(alloc, streams.output, Object::Output, &tally);
    let mut errors = Watched::new(alloc, streams.errors, Object::Errors, &tally);
    let ending = command(
        alloc,
        words,
        &mut files,
        &mut input,
        &mut output,
        &mut errors,
    );
    let (_files, images_calls) = files.end();
    let (mut rest, input_calls) = input.end();
    let (output, output_calls) = output.end();
    let (errors, errors_calls) = errors.end();
    Done {
        ending,
        output,
        errors,
        left: read_all(alloc, &mut rest, usize::MAX).ok(),
        calls: Calls {
            images: images_calls,
            input: input_calls,
            output: output_calls,
            errors: errors_calls,
        },
    }
}

/// Does a command line over the files and the streams of a scene, with one call more that fails.
pub fn do_line(
    alloc: Global,
    scene: &Scene,
    line: &str,
    fault: Option<Fault>,
) -> Result<Done, AllocError> {
    let words = words_of(alloc, line)?;
    let files = scene.files_of(alloc, line, fault)?;
    let streams = scene.streams(alloc, fault)?;
    Ok(done_over(alloc, &words, files, streams))
}
