//! The words of the line of `svemu` that does what a run of `svemu-tool` does.
ghost use Rattle.std.specs.Prelude.{
  ◌≡◌,
  ◌<◌,
  ◌≤◌,
  [],
  ◌∷◌,
  ◌++◌,
  codes,
  drop,
  map,
  get_or,
  length,
  string_bytes,
  IfOk,
  OnOk,
};
ghost use Rattle.tool_lines.specs.ToolLine.{HasRunPlaces, IsPlace};
ghost use Rattle.tool_lines.specs.SameWords.{
  argument_words,
  command_words,
  file_word,
  pages_words,
  same_words,
  value_word,
};

use crate::line::{RunLine, is_option};
use std::alloc::{AllocError, Global};

/// The text of the word at a place, counted from 0.
pub(crate) fn word(words: &[String], place: usize) -> &str
    requires { place < length words.now }
    ensures { result.now ≡ get_or (map string_bytes words.now) place [] }
{
    words[place].as_str()
}

/// The values of the variables SVEMU_VL, SVEMU_BUDGET and SVEMU_PAGES; empty where one isn't set.
#[derive(Drop)]
pub struct Variables {
    pub length: String,
    pub budget: String,
    pub pages: String,
}

/// Appends a copy of a word. Err is want of memory.
pub(crate) fn push_word(alloc: Global, list: &mut Vec<String>, text: &str) -> Result<(), AllocError>
    ensures { OnOk result (map string_bytes list.new.items ≡ map string_bytes list.old.items ++ text.now ∷ []) }
{
    list.push(String::from_str(alloc, text)?)?;
    Ok(())
}

/// Appends the name of a file, in a form that is no option. Err is want of memory.
fn push_file(alloc: Global, list: &mut Vec<String>, name: &str) -> Result<(), AllocError>
    ensures { OnOk result
        (map string_bytes list.new.items ≡ map string_bytes list.old.items ++ file_word name.now ∷ []) }
{
    if is_option(name) {
        list.push(format!(in alloc; "./{name}")?)?;
        Ok(())
    } else {
        push_word(alloc, list, name)
    }
}

/// Appends an option and its value. Err is want of memory.
fn push_option(
    alloc: Global,
    list: &mut Vec<String>,
    option: &str,
    value: &str,
) -> Result<(), AllocError>
    ensures { OnOk result (map string_bytes list.new.items
        ≡ (map string_bytes list.old.items ++ option.now ∷ []) ++ value.now ∷ []) }
{
    push_word(alloc, list, option)?;
    push_word(alloc, list, value)
}

/// The word that says a value: the one at a place, else what a variable has, else what stands for none.
fn value_word<'a>(
    words: &'a [String],
    place: Option<usize>,
    variable: &'a str,
    or: &'a str,
) -> &'a str
    requires { IsPlace (length words.now) place }
    ensures { result.now ≡ value_word (map string_bytes words.now) place variable.now or.now }
{
    match place {
        Some(place) => word(words, place),
        None if variable.is_empty() => or,
        None => variable,
    }
}

/// Appends the command and its files. Err is want of memory.
fn push_command(
    alloc: Global,
    list: &mut Vec<String>,
    words: &[String],
    line: &RunLine,
) -> Result<(), AllocError>
    requires { HasRunPlaces (length words.now) line.now }
    ensures { OnOk result (map string_bytes list.new.items
        ≡ map string_bytes list.old.items ++ command_words (map string_bytes words.now) line.now) }
{
    let program = word(words, line.program);
    match line.threads {
        None => {
            push_word(alloc, list, "run")?;
            push_file(alloc, list, program)
        }
        Some(place) => {
            push_word(alloc, list, "threads")?;
            push_file(alloc, list, program)?;
            push_file(alloc, list, word(words, place))
        }
    }
}

/// Appends the limit of pages, where one is given. Err is want of memory.
fn push_pages(
    alloc: Global,
    list: &mut Vec<String>,
    words: &[String],
    line: &RunLine,
    variables: &Variables,
) -> Result<(), AllocError>
    requires { HasRunPlaces (length words.now) line.now }
    ensures { OnOk result (map string_bytes list.new.items ≡ map string_bytes list.old.items
        ++ pages_words (map string_bytes words.now) line.now.pages (string_bytes variables.now.pages)) }
{
    let pages = value_word(words, line.pages, variables.pages.as_str(), "");
    if line.pages.is_none() && variables.pages.is_empty() {
        return Ok(());
    }
    push_option(alloc, list, "--pages", pages)
}

/// Appends the arguments of the program, behind `--`. Err is want of memory.
fn push_arguments(
    alloc: Global,
    list: &mut Vec<String>,
    words: &[String],
    from: usize,
) -> Result<(), AllocError>
    requires { from ≤ length words.now }
    ensures { OnOk result (map string_bytes list.new.items
        ≡ map string_bytes list.old.items ++ argument_words (drop from (map string_bytes words.now))) }
{
    if from >= words.len() {
        return Ok(());
    }
    push_word(alloc, list, "--")?;
    for place in from..words.len() {
        push_word(alloc, list, word(words, place))?;
    }
    Ok(())
}

/// The words after the name of `svemu` that say what a run of `svemu-tool` says. Err is want of memory.
pub fn same_words(
    alloc: Global,
    words: &[String],
    line: &RunLine,
    variables: &Variables,
) -> Result<Vec<String>, AllocError>
    requires { HasRunPlaces (length words.now) line.now }
    ensures { IfOk result (λ list. map string_bytes list.items ≡ same_words (map string_bytes words.now) line.now
        (string_bytes variables.now.length) (string_bytes variables.now.budget) (string_bytes variables.now.pages)) }
{
    let mut list = Vec::new(alloc);
    push_command(alloc, &mut list, words, line)?;
    let length = value_word(words, line.length, variables.length.as_str(), "512");
    push_option(alloc, &mut list, "--vl", length)?;
    let budget = value_word(words, line.budget, variables.budget.as_str(), "10000000000");
    push_option(alloc, &mut list, "--budget", budget)?;
    push_pages(alloc, &mut list, words, line, variables)?;
    push_arguments(alloc, &mut list, words, line.program + 1)?;
    Ok(list)
}
