//! The words of the line of `svemu` that runs what `count` counts.
ghost use Rattle.std.specs.Prelude.{
  ◌≡◌,
  ◌<◌,
  ◌≤◌,
  ◌+◌,
  ◌++◌,
  [],
  drop,
  get_or,
  map,
  length,
  string_bytes,
  take,
  IfOk,
  IfSome,
  OnOk,
};
ghost use Rattle.tool_lines.specs.CountedWords.{all_from, counted_words, is_all};

use crate::words::{push_word, word};
use std::alloc::{AllocError, Global};

/// Whether `--vl` stands at a place, and `all` behind it.
fn is_all(words: &[String], place: usize) -> bool
    requires { place + 1 < length words.now }
    ensures { result ≡ is_all (get_or (map string_bytes words.now) place [])
        (get_or (map string_bytes words.now) (place + 1) []) }
{
    word(words, place) == "--vl" && word(words, place + 1) == "all"
}

/// The place of `--vl` in front of the word `all`, behind the command's name and before `--`.
fn all_place(words: &[String]) -> Option<usize>
    requires { 1 ≤ length words.now }
    ensures place { result ≡ all_from 1 (drop 1 (map string_bytes words.now)) }
    ensures within { IfSome result (λ place. (1 ≤ place) × (place + 2 ≤ length words.now)) }
{
    'places: for place in 1..words.len() - 1 {
        if word(words, place) == "--" {
            return None;
        }
        if is_all(words, place) {
            return Some(place);
        }
    }
    None
}

/// Appends copies of the words from one place to another. Err is want of memory.
fn push_words(
    alloc: Global,
    list: &mut Vec<String>,
    words: &[String],
    from: usize,
    to: usize,
) -> Result<(), AllocError>
    requires order { from ≤ to }
    requires within { to ≤ length words.now }
    ensures { OnOk result (map string_bytes list.new.items
        ≡ map string_bytes list.old.items ++ drop from (take to (map string_bytes words.now))) }
{
    for place in from..to {
        push_word(alloc, list, word(words, place))?;
    }
    Ok(())
}

/// The words after the name of `svemu` that run what words of `svemu-tool` count: `run` with the same words behind it,
/// or where the length is `all`, `sweep` without it. Err is want of memory.
pub fn counted_words(alloc: Global, words: &[String]) -> Result<Vec<String>, AllocError>
    requires { 1 ≤ length words.now }
    ensures { IfOk result (λ list. map string_bytes list.items ≡ counted_words (map string_bytes words.now)) }
{
    let mut list = Vec::new(alloc);
    match all_place(words) {
        None => {
            push_word(alloc, &mut list, "run")?;
            push_words(alloc, &mut list, words, 1, words.len())?;
        }
        Some(place) => {
            push_word(alloc, &mut list, "sweep")?;
            push_words(alloc, &mut list, words, 1, place)?;
            push_words(alloc, &mut list, words, place + 2, words.len())?;
        }
    }
    Ok(list)
}
