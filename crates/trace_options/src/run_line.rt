//! The words of the line of `svemu` that runs what is traced.
ghost use Rattle.std.specs.Prelude.{◌≡◌, ◌&&◌, ◌||◌, not, [], ◌∷◌, ◌++◌, if◌then◌else◌, map, string_bytes, IfOk, OnOk};
ghost use Rattle.trace_options.specs.RunWords.{ends_options, gives_option, run_words};

use crate::options::option_of;
use crate::word::word;
use std::alloc::{AllocError, Global};

/// Whether a word gives an option that the run hasn't.
fn gives_option(word: &str) -> bool
    ensures { result ≡ gives_option word.now }
{
    word != "--" && option_of(word).is_some()
}

/// Appends a copy of a word. Err is want of memory.
fn push_word(alloc: Global, list: &mut Vec<String>, text: &str) -> Result<(), AllocError>
    ensures { OnOk result (map string_bytes list.new.items ≡ map string_bytes list.old.items ++ text.now ∷ []) }
{
    list.push(String::from_str(alloc, text)?)?;
    Ok(())
}

/// Whether a word gives such an option where it stands: before `--`, and not as the value of one.
fn is_option(plain: bool, value: bool, word: &str) -> bool
    ensures { result ≡ ((not plain && not value) && gives_option word.now) }
{
    !plain && !value && gives_option(word)
}

/// Whether no option stands behind a word.
fn is_plain(plain: bool, value: bool, word: &str) -> bool
    ensures { result ≡ (plain || (not value && ends_options word.now)) }
{
    plain || (!value && word == "--")
}

/// Whether a word is one of the run: it stands behind `--`, or is neither an option nor its value.
fn is_kept(plain: bool, value: bool, option: bool) -> bool
    ensures { result ≡ (plain || not (value || option)) }
{
    plain || !(value || option)
}

/// Appends a copy of a word, where it is kept. Err is want of memory.
fn push_kept(
    alloc: Global,
    list: &mut Vec<String>,
    kept: bool,
    text: &str,
) -> Result<(), AllocError>
    ensures { OnOk result (map string_bytes list.new.items
        ≡ map string_bytes list.old.items ++ (if kept then text.now ∷ [] else [])) }
{
    if kept {
        push_word(alloc, list, text)
    } else {
        Ok(())
    }
}

/// The words after the name of `svemu` that run what words of `trace` do. Err is want of memory.
pub fn run_words(alloc: Global, words: &[String]) -> Result<Vec<String>, AllocError>
    ensures { IfOk result (λ list. map string_bytes list.items ≡ run_words (map string_bytes words.now)) }
{
    let mut list = Vec::new(alloc);
    push_word(alloc, &mut list, "run")?;
    let mut plain = false;
    let mut value = false;
    for place in 1..words.len() {
        let word = word(words, place);
        let option = is_option(plain, value, word);
        push_kept(alloc, &mut list, is_kept(plain, value, option), word)?;
        plain = is_plain(plain, value, word);
        value = option;
    }
    Ok(list)
}
