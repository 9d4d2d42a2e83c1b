//! The text of a word.
ghost use Rattle.std.specs.Prelude.{◌≡◌, [], get_or, map, string_bytes};

/// The text of the word at a place, counted from 0; none where there is no such word.
pub(crate) fn word(words: &[String], place: usize) -> &str
    ensures { result.now ≡ get_or (map string_bytes words.now) place [] }
{
    if place < words.len() {
        words[place].as_str()
    } else {
        ""
    }
}
