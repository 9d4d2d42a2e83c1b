//! What is said of what is refused or failed: which line stands for which refusal no contract says.
use command_lines::{WordsFault, WordsWhy};
use emu_system::ElfFault;
use guest_schedule::ScheduleFault;
use std::alloc::{AllocError, Global};
use tool_lines::{RunLine, ToolFault, ToolOption, ToolWhy};
use tool_texts::{image_hint, push_file_line, push_value_line};

/// The bytes of a program header in an ELF file.
const HEADER_SIZE: usize = 56;

/// The little-endian number of two bytes at an offset, and 0 where the file is shorter.
fn halfword(bytes: &[u8], offset: usize) -> u16 {
    if bytes.len() < 2 || bytes.len() - 2 < offset {
        return 0;
    }
    bytes[offset] as u16 + 256 * bytes[offset + 1] as u16
}

/// Whether one of a file's program headers, which stand from an offset on, is PT_INTERP.
fn has_interpreter_from(bytes: &[u8], offset: usize, count: usize) -> bool {
    let mut found = false;
    for k in 0..count.min(64) {
        let at = HEADER_SIZE * k;
        if offset < bytes.len() && at < bytes.len() - offset {
            found = found || halfword(bytes, offset + at) == 3;
        }
    }
    found
}

/// Whether a file names an interpreter, in the program headers that stand in its first 64 KiB.
fn has_interpreter(bytes: &[u8]) -> bool {
    has_interpreter_from(
        bytes,
        halfword(bytes, 32) as usize,
        halfword(bytes, 56) as usize,
    )
}

/// What is said of a file that was refused as an image. Err is want of memory.
pub fn image_text(
    alloc: Global,
    name: &str,
    bytes: &[u8],
    fault: ElfFault,
) -> Result<String, AllocError> {
    let mut text = String::new(alloc);
    let hint = image_hint(
        fault,
        halfword(bytes, 16),
        halfword(bytes, 18),
        has_interpreter(bytes),
    );
    push_file_line(&mut text, name, hint)?;
    Ok(text)
}

/// What is said of a file. Err is want of memory.
pub fn file_text(alloc: Global, name: &str, said: &str) -> Result<String, AllocError> {
    let mut text = String::new(alloc);
    push_file_line(&mut text, name, said)?;
    Ok(text)
}

/// What is said of a file that was refused as a schedule. Err is want of memory.
pub fn schedule_text(
    alloc: Global,
    name: &str,
    fault: ScheduleFault,
) -> Result<String, AllocError> {
    let said = format!(in alloc; "is no schedule: {fault}")?;
    file_text(alloc, name, said.as_str())
}

/// The option or the variable that says a value, by the option's word.
fn name_of_value(option: &str, line: &RunLine) -> &'static str {
    match option {
        "--vl" if line.length.is_some() => ToolOption::Vl.text(),
        "--vl" => "SVEMU_VL",
        "--budget" if line.budget.is_some() => ToolOption::Budget.text(),
        "--budget" => "SVEMU_BUDGET",
        _ if line.pages.is_some() => ToolOption::Pages.text(),
        _ => "SVEMU_PAGES",
    }
}

/// What the value of an option may be, by the option's word.
fn range_of_value(option: &str) -> &'static str {
    match option {
        "--vl" => "a multiple of 128 from 128 to 2048",
        "--budget" => "a number from 0 to 18446744073709551615",
        _ => "a number from 1 to 1048576",
    }
}

/// What is said of words that are refused for no value of theirs.
fn said_of_words(why: WordsWhy) -> &'static str {
    match why {
        WordsWhy::TooManyWords => "has more than 290 words",
        WordsWhy::WordsTooLong => "has more than 32,768 bytes",
        WordsWhy::ZeroByte => "has a word with a byte 0",
        _ => "is refused",
    }
}

/// What is said of a line whose words, in `svemu`'s form, are refused. Err is want of memory.
pub fn words_text(
    alloc: Global,
    words: &[String],
    line: &RunLine,
    fault: &WordsFault,
) -> Result<String, AllocError> {
    let place = fault.place as usize;
    let is_value = match fault.why {
        WordsWhy::BadNumber | WordsWhy::BadLength | WordsWhy::OutOfRange => true,
        _ => false,
    };
    let mut text = String::new(alloc);
    if is_value && 1 <= place && place < words.len() {
        let option = words[place - 1].as_str();
        push_value_line(
            &mut text,
            name_of_value(option, line),
            words[place].as_str(),
            range_of_value(option),
        )?;
    } else {
        push_file_line(&mut text, "the command line", said_of_words(fault.why))?;
    }
    Ok(text)
}

/// What is said of a word of a line that is refused, or of what is missing.
fn said_of_line(why: ToolWhy) -> &'static str {
    match why {
        ToolWhy::NoCommand => "has no command: see svemu-tool --help",
        ToolWhy::UnknownCommand => "is no command: see svemu-tool --help",
        ToolWhy::UnknownOption => "is no option of run: see svemu-tool --help",
        ToolWhy::MissingValue => "is an option without a value",
        ToolWhy::NoProgram => "names no program",
    }
}

/// What is said of a line of `svemu-tool` that is refused. Err is want of memory.
pub fn line_text(alloc: Global, words: &[String], fault: &ToolFault) -> Result<String, AllocError> {
    if fault.place < words.len() {
        file_text(alloc, words[fault.place].as_str(), said_of_line(fault.why))
    } else {
        file_text(alloc, "the command line", said_of_line(fault.why))
    }
}
