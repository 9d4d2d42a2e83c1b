//! What is said of a line that is no command, and the forms of commands.

use debug_names::{Verb, all_verbs, nearest, verb_of};
use debug_places::{Refusal, Why};
use debug_texts::push_hex;
use std::alloc::AllocError;

/// What is said of a refused word.
fn said_of(why: &Why) -> &'static str {
    match why {
        Why::UnknownCommand => "is no command",
        Why::BadFormat => "has no format that the command takes",
        Why::MissingWord => "a word is missing",
        Why::ExtraWord => "is a word too many",
        Why::BadNumber => "is no number of at most 2^64 - 1",
        Why::OutOfRange => "is out of range",
        Why::UnknownPlace => "is no symbol, register or address",
        Why::TwoSymbols(_, _) => "is the name of two symbols, at ",
        Why::UnknownRegister => "is no register that can stand there",
        Why::UnknownWord => "can't stand there",
        Why::BadCondition => "begins no condition",
    }
}

/// Appends the two addresses of a name.
fn push_addresses(text: &mut String, why: &Why) -> Result<(), AllocError> {
    if let Why::TwoSymbols(first, other) = why {
        push_hex(text, *first)?;
        text.push_str(" and ")?;
        push_hex(text, *other)?;
        text.push_str(": write *ADDRESS")?;
    }
    Ok(())
}

/// What stands before a slash, or the whole word where none stands in it.
fn before_slash(word: &str) -> &str {
    match word.split_once('/') {
        Some((name, _)) => name,
        None => word,
    }
}

/// The command that a refused line's first word names, or the one whose name is nearest to it.
fn verb_near(words: &[&str]) -> Verb {
    if words.is_empty() {
        return Verb::Help;
    }
    match verb_of(before_slash(words[0])) {
        Some(verb) => verb,
        None => nearest(words[0]),
    }
}

/// Appends why a line is no command: the word, what is said of it, and the form of the nearest command.
pub fn push_refusal(
    text: &mut String,
    words: &[&str],
    refusal: &Refusal,
) -> Result<(), AllocError> {
    if refusal.place < words.len() {
        text.push_str("'")?;
        text.push_str(words[refusal.place])?;
        text.push_str("' ")?;
    }
    text.push_str(said_of(&refusal.why))?;
    push_addresses(text, &refusal.why)?;
    text.push_str(": ")?;
    text.push_str(verb_near(words).form())?;
    text.push_str("\n")
}

/// Appends the form of a command, or of all.
pub fn push_help(text: &mut String, verb: Option<Verb>) -> Result<(), AllocError> {
    match verb {
        Some(verb) => {
            text.push_str(verb.form())?;
            text.push_str("\n")
        }
        None => {
            'verbs: for verb in all_verbs() {
                text.push_str(verb.form())?;
                text.push_str("\n")?;
            }
            Ok(())
        }
    }
}
