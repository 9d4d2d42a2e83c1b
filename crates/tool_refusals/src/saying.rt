//! What is said of what is refused or failed.
ghost use Rattle.io_gate.specs.Streams.{Rose};
ghost use Rattle.tool_refusals.specs.Endings.{IsSaid};

use command_lines::Ending;
use emu_system::ElfFault;
use io_gate::{Sink, put_all};
use std::alloc::{AllocError, Global};
use tool_texts::{image_hint, push_file_line};

/// The little-endian number of two bytes at an offset, and 0 where the file is shorter.
fn halfword(bytes: &[u8], offset: usize) -> u16 {
    if bytes.len() < 2 || bytes.len() - 2 < offset {
        return 0;
    }
    bytes[offset] as u16 + 256 * bytes[offset + 1] as u16
}

/// The line of a thing, and what is said of it. Err is want of memory.
fn line_of(alloc: Global, name: &str, said: &str) -> Result<String, AllocError> {
    let mut text = String::new(alloc);
    push_file_line(&mut text, name, said)?;
    Ok(text)
}

/// The ending behind what is said of a thing on the errors: a fault of the errors where they failed. Nothing is put
/// where memory is wanting for the line.
pub fn say<E: Sink>(alloc: Global, name: &str, said: &str, ending: Ending, errors: &mut E) -> Ending
    ensures { IsSaid ending result (Rose (E.faults errors.old) (E.faults errors.new)) }
{
    match line_of(alloc, name, said) {
        Err(_) => ending,
        Ok(text) => match put_all(errors, text.as_bytes()) {
            Ok(()) => ending,
            Err(_) => Ending::ErrorsFault,
        },
    }
}

/// The same of the word at a place, from 0, or of the whole line where there is no such word.
pub fn say_word<E: Sink>(
    alloc: Global,
    words: &[String],
    place: usize,
    said: &str,
    ending: Ending,
    errors: &mut E,
) -> Ending
    ensures { IsSaid ending result (Rose (E.faults errors.old) (E.faults errors.new)) }
{
    if place < words.len() {
        say(alloc, words[place].as_str(), said, ending, errors)
    } else {
        say(alloc, "the command line", said, ending, errors)
    }
}

/// Refuses a file of a name as an image, by its bytes and why it is none.
pub fn refuse_image<E: Sink>(
    alloc: Global,
    name: &str,
    bytes: &[u8],
    fault: ElfFault,
    errors: &mut E,
) -> Ending
    ensures { IsSaid (Ending.ImageRefused fault) result (Rose (E.faults errors.old) (E.faults errors.new)) }
{
    let said = image_hint(fault, halfword(bytes, 16), halfword(bytes, 18), false);
    say(alloc, name, said, Ending::ImageRefused(fault), errors)
}
