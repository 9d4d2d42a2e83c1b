//! Words of a condition, cut where no space stands around its comparison.
ghost use Rattle.std.specs.Prelude.{◌≡◌, ◌++◌, ◌∷◌, ◌||◌, [], false, codes, map, IfOk, OnOk};
ghost use Rattle.debug_words.specs.Pieces.{behind_sign, cut_word, cut_words, is_if, piece, pieces, pieces_by};
ghost use Rattle.debug_names.specs.Registers.{cut, seen_parts};

use std::alloc::{AllocError, Global};

/// A word cut at its first `<`.
fn cut_at_less(word: &str) -> Option<(&str, &str)>
    ensures { seen_parts result ≡ cut 60 word.now }
{
    word.split_once('<')
}

/// A word cut at its first `>`.
fn cut_at_greater(word: &str) -> Option<(&str, &str)>
    ensures { seen_parts result ≡ cut 62 word.now }
{
    word.split_once('>')
}

/// A word cut at its first `!`.
fn cut_at_not(word: &str) -> Option<(&str, &str)>
    ensures { seen_parts result ≡ cut 33 word.now }
{
    word.split_once('!')
}

/// A word cut at its first `=`.
fn cut_at_equals(word: &str) -> Option<(&str, &str)>
    ensures { seen_parts result ≡ cut 61 word.now }
{
    word.split_once('=')
}

/// Appends a word. Err is want of memory.
fn push_word<'a>(found: &mut Vec<&'a str>, word: &'a str) -> Result<(), AllocError>
    ensures { OnOk result (map (λ word. word.now) found.new.items
        ≡ map (λ word. word.now) found.old.items ++ word.now ∷ []) }
{
    found.push(word)?;
    Ok(())
}

/// Appends a part of a word, unless nothing stands there. Err is want of memory.
fn push_piece<'a>(found: &mut Vec<&'a str>, part: &'a str) -> Result<(), AllocError>
    ensures { OnOk result (map (λ word. word.now) found.new.items
        ≡ map (λ word. word.now) found.old.items ++ piece part.now) }
{
    if part.is_empty() {
        return Ok(());
    }
    found.push(part)?;
    Ok(())
}

/// Appends a sign, or the sign and the `=` behind it, and what stands behind that. Err is want of memory.
fn push_behind<'a>(
    found: &mut Vec<&'a str>,
    sign: &'a str,
    both: &'a str,
    rest: &'a str,
) -> Result<(), AllocError>
    ensures { OnOk result (map (λ word. word.now) found.new.items
        ≡ map (λ word. word.now) found.old.items ++ behind_sign sign.now both.now rest.now) }
{
    match rest.strip_prefix("=") {
        Some(right) => {
            push_word(found, both)?;
            push_piece(found, right)?;
            Ok(())
        }
        None => {
            push_word(found, sign)?;
            push_piece(found, rest)?;
            Ok(())
        }
    }
}

/// Appends what stands before a sign, the sign and what stands behind it. Err is want of memory.
fn push_parts<'a>(
    found: &mut Vec<&'a str>,
    left: &'a str,
    sign: &'a str,
    both: &'a str,
    rest: &'a str,
) -> Result<(), AllocError>
    ensures { OnOk result (map (λ word. word.now) found.new.items
        ≡ map (λ word. word.now) found.old.items ++ (piece left.now ++ behind_sign sign.now both.now rest.now)) }
{
    push_piece(found, left)?;
    push_behind(found, sign, both, rest)?;
    Ok(())
}

/// Appends the pieces of a word that has no `<` and no `>`. Err is want of memory.
fn push_equal<'a>(found: &mut Vec<&'a str>, word: &'a str) -> Result<(), AllocError>
    ensures { OnOk result (map (λ word. word.now) found.new.items
        ≡ map (λ word. word.now) found.old.items ++ pieces_by (codes "!") (codes "!=")
        (pieces_by (codes "=") (codes "==") (word.now ∷ []) (cut 61 word.now)) (cut 33 word.now)) }
{
    match cut_at_not(word) {
        Some((left, rest)) => push_parts(found, left, "!", "!=", rest),
        None => match cut_at_equals(word) {
            Some((left, rest)) => push_parts(found, left, "=", "==", rest),
            None => push_word(found, word),
        },
    }
}

/// Appends the pieces of a word. Err is want of memory.
fn push_pieces<'a>(found: &mut Vec<&'a str>, word: &'a str) -> Result<(), AllocError>
    ensures { OnOk result (map (λ word. word.now) found.new.items
        ≡ map (λ word. word.now) found.old.items ++ pieces word.now) }
{
    match cut_at_less(word) {
        Some((left, rest)) => push_parts(found, left, "<", "<=", rest),
        None => match cut_at_greater(word) {
            Some((left, rest)) => push_parts(found, left, ">", ">=", rest),
            None => push_equal(found, word),
        },
    }
}

/// Appends a word as it is, or its pieces. Err is want of memory.
fn push_cut<'a>(found: &mut Vec<&'a str>, behind: bool, word: &'a str) -> Result<(), AllocError>
    ensures { OnOk result (map (λ word. word.now) found.new.items
        ≡ map (λ word. word.now) found.old.items ++ cut_word behind word.now) }
{
    if behind {
        push_pieces(found, word)
    } else {
        push_word(found, word)
    }
}

/// Whether what follows a word stands behind `if`.
fn is_behind(behind: bool, word: &str) -> bool
    ensures { result ≡ (behind || is_if word.now) }
{
    behind || word == "if"
}

/// The words of a line, each of them behind the first `if` cut before and behind its comparison. Err is want of memory.
#[tactic(auto, unfolding(crate::specs::Pieces::cut_words))]
pub fn cut_words<'a>(alloc: Global, words: &[&'a str]) -> Result<Vec<&'a str>, AllocError>
    ensures { IfOk result (λ found. map (λ word. word.now) found.items
        ≡ cut_words false (map (λ word. word.now) words.now)) }
{
    let mut found = Vec::new(alloc);
    let mut behind = false;
    'words: for word in words {
        push_cut(&mut found, behind, *word)?;
        behind = is_behind(behind, *word);
    }
    Ok(found)
}
