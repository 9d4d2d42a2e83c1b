//! The lines of a table.
ghost use Rattle.std.specs.Prelude.{◌≡◌, [], get_or};
ghost use Rattle.text_code.specs.Tables.{lines_of, patterns_of};

use crate::patterns::Pattern;

/// The patterns of the line of this number; none behind the last.
pub fn line_of(lines: &[&'static [Pattern]], number: u8) -> &'static [Pattern]
    ensures { patterns_of result.now ≡ get_or (lines_of lines.now) number [] }
{
    let at = usize::from(number);
    if at < lines.len() { lines[at] } else { &[] }
}
