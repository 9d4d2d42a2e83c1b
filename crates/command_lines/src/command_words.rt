//! The words of the command line.
ghost use Rattle.std.specs.Prelude.{◌≡◌, ◌<◌, [], map, get_or, length, string_bytes};

/// The text of the word at a place, counted from 0.
pub fn word(words: &[String], place: usize) -> &str
    requires { place < length words.now }
    ensures { result.now ≡ get_or (map string_bytes words.now) place [] }
{
    words[place].as_str()
}
