//! The words of `debug`: those of a run of `svemu`, and its own options.
ghost use Rattle.std.specs.Prelude.{◌<◌, length};

use std::alloc::{AllocError, Global};
use tool_refusals::push_word;

/// The places of the values of the options that a run hasn't.
#[derive(Clone, Copy)]
pub struct Given {
    /// That of `--input`: the program's input.
    pub input: Option<usize>,
    /// That of `--script`: the commands.
    pub script: Option<usize>,
    /// That of `--lines`: the lines of the program's source.
    pub lines: Option<usize>,
}

/// Whether a word is an option that a run hasn't.
pub fn is_own(word: &str) -> bool {
    word == "--input" || word == "--script" || word == "--lines"
}

impl Given {
    /// Without any option.
    fn nothing() -> Given {
        Given {
            input: None,
            script: None,
            lines: None,
        }
    }

    /// The place of an option's value, if it is given.
    fn place_of(&self, option: &str) -> Option<usize> {
        match option {
            "--input" => self.input,
            "--script" => self.script,
            "--lines" => self.lines,
            _ => None,
        }
    }

    /// With the value of an option at a place.
    fn with(self, option: &str, place: usize) -> Given {
        match option {
            "--input" => Given {
                input: Some(place),
                ..self
            },
            "--script" => Given {
                script: Some(place),
                ..self
            },
            "--lines" => Given {
                lines: Some(place),
                ..self
            },
            _ => self,
        }
    }
}

/// Whether an option of a run is given before `--`.
fn has_option(words: &[String], name: &str) -> bool {
    let mut found = false;
    let mut plain = false;
    for word in words {
        if word.as_str() == "--" {
            plain = true;
        }
        if !plain && word.as_str() == name {
            found = true;
        }
    }
    found
}

/// Whether a word is an option that a run hasn't, for the first time, and another word stands behind it.
fn gives(given: &Given, words: &[String], place: usize) -> bool
    requires { place < length words.now }
{
    let word = words[place].as_str();
    is_own(word) && given.place_of(word).is_none() && words.len() - place > 1
}

/// The words after the name of `svemu` that run what words of `debug` do, where a vector length of 512 bits and
/// 10,000,000,000 steps stand for what isn't told; and the debugger's own options. Of these one that is given twice, or
/// has no value, is left among the words, which no run has then. Err is want of memory.
pub fn run_words(alloc: Global, words: &[String]) -> Result<(Vec<String>, Given), AllocError> {
    let mut list = Vec::new(alloc);
    let mut given = Given::nothing();
    push_word(alloc, &mut list, "run")?;
    push_defaults(alloc, &mut list, words)?;
    let mut plain = false;
    let mut value = false;
    for place in 1..words.len() {
        let word = words[place].as_str();
        if value {
            value = false;
        } else if !plain && gives(&given, words, place) {
            given = given.with(word, place + 1);
            value = true;
        } else {
            plain = plain || word == "--";
            push_word(alloc, &mut list, word)?;
        }
    }
    Ok((list, given))
}

/// Appends the options that aren't told. Err is want of memory.
fn push_defaults(
    alloc: Global,
    list: &mut Vec<String>,
    words: &[String],
) -> Result<(), AllocError> {
    if !has_option(words, "--vl") {
        push_word(alloc, list, "--vl")?;
        push_word(alloc, list, "512")?;
    }
    if !has_option(words, "--budget") {
        push_word(alloc, list, "--budget")?;
        push_word(alloc, list, "10000000000")?;
    }
    Ok(())
}
