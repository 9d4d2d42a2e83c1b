//! Copies of words, and the arguments of a program as the words of a line give them.
ghost use Rattle.std.specs.Prelude.{◌≡◌, ◌<◌, ◌≤◌, [], ◌∷◌, ◌++◌, length, map, string_bytes, IfOk, OnOk};
ghost use Rattle.command_lines.specs.Outcome.{program_arguments};

use command_lines::word;
use std::alloc::{AllocError, Global};

/// Appends a copy of a word. Err is want of memory.
pub fn push_word(alloc: Global, list: &mut Vec<String>, text: &str) -> Result<(), AllocError>
    ensures { OnOk result (map string_bytes list.new.items ≡ map string_bytes list.old.items ++ text.now ∷ []) }
{
    list.push(String::from_str(alloc, text)?)?;
    Ok(())
}

/// The arguments of a program: the word that names its file, and the words from `args` on. Err is want of memory.
pub fn arguments(
    alloc: Global,
    words: &[String],
    file: usize,
    args: usize,
) -> Result<Vec<String>, AllocError>
    requires file { file < length words.now }
    requires args { args ≤ length words.now }
    ensures { IfOk result
        (λ list. map string_bytes list.items ≡ program_arguments (map string_bytes words.now) file args) }
{
    let mut list = Vec::new(alloc);
    push_word(alloc, &mut list, word(words, file))?;
    for place in args..words.len() {
        push_word(alloc, &mut list, word(words, place))?;
    }
    Ok(list)
}
