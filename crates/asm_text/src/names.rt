//! Names of directives and of labels.
ghost use Rattle.std.specs.Prelude.{◌≡◌};
ghost use Rattle.std.specs.List.{list_all};
ghost use Rattle.listing_model.specs.Directives as directives;

use listing_model::DirectiveName;

/// The directive of a name, which has any case.
pub fn directive_named(name: &str) -> Option<DirectiveName>
    ensures { result ≡ directives.directive_named name.now }
{
    if name.eq_ignore_ascii_case(".code") {
        Some(DirectiveName::Code)
    } else if name.eq_ignore_ascii_case(".data") {
        Some(DirectiveName::Data)
    } else if name.eq_ignore_ascii_case(".byte") {
        Some(DirectiveName::Byte)
    } else if name.eq_ignore_ascii_case(".half") {
        Some(DirectiveName::Half)
    } else if name.eq_ignore_ascii_case(".word") {
        Some(DirectiveName::Word)
    } else if name.eq_ignore_ascii_case(".quad") {
        Some(DirectiveName::Quad)
    } else if name.eq_ignore_ascii_case(".ascii") {
        Some(DirectiveName::Ascii)
    } else if name.eq_ignore_ascii_case(".zero") {
        Some(DirectiveName::Zero)
    } else if name.eq_ignore_ascii_case(".align") {
        Some(DirectiveName::Align)
    } else if name.eq_ignore_ascii_case(".bss") {
        Some(DirectiveName::Bss)
    } else if name.eq_ignore_ascii_case(".entry") {
        Some(DirectiveName::Entry)
    } else {
        None
    }
}

/// Whether a label may begin with a byte.
fn begins_label(c: u8) -> bool
    ensures { result ≡ directives.begins_label c }
{
    c.is_ascii_alphabetic() || c == b'_'
}

/// Whether bytes may stand in a label behind its first.
fn are_label_bytes(bytes: &[u8]) -> bool
    ensures { result ≡ list_all directives.is_label_byte bytes.now }
{
    bytes
        .iter()
        .all(|c| c.is_ascii_alphanumeric() || *c == b'_')
}

/// Whether a token may name a label: a letter or `_`, then letters, digits and `_`.
pub fn is_label(token: &str) -> bool
    ensures { result ≡ directives.is_label token.now }
{
    match token.as_bytes() {
        [first, rest @ ..] => begins_label(*first) && are_label_bytes(rest),
        [] => false,
    }
}
