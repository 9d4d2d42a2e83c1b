//! Tokens of numbers.
ghost use Rattle.std.specs.Prelude.{◌≡◌, ◌+◌, ◌<◌, ◌≤◌, false, [], ◌∷◌, ◌++◌, length};
ghost use Rattle.std.specs.Fmt.{decimal, digits, digit_glyph};
ghost use Rattle.text_model.specs.Text.{hexadecimal};

use arrayvec::ArrayString;

/// A token of an instruction's text.
pub type Piece = ArrayString<20>;

/// Appends an ASCII character.
pub fn push_ascii(piece: &mut Piece, c: u8)
    requires ascii { c < 128 }
    requires room { length piece.old.bytes + 1 ≤ 20 }
    ensures bytes { piece.new.bytes ≡ piece.old.bytes ++ c ∷ [] }
    ensures len { length piece.new.bytes ≡ length piece.old.bytes + 1 }
{
    piece.push(char::from(c));
}

/// The character of a digit, in lower case.
fn digit(d: u8) -> u8
    requires { d < 16 }
    ensures glyph { result ≡ digit_glyph false d }
    ensures ascii { result < 128 }
{
    if d < 10 { b'0' + d } else { b'a' + (d - 10) }
}

/// Appends the digits of a number in a base, those before the last first.
#[tactic(auto, using(crate::proofs::Digits::digits_last, crate::proofs::Digits::digits_next, crate::proofs::Digits::length_last, crate::proofs::Digits::length_next, std::proofs::lemmas::Grind::common_steps))]
fn push_digits(piece: &mut Piece, base: u64, n: u64)
    requires two { 2 ≤ base }
    requires sixteen { base ≤ 16 }
    requires room { length piece.old.bytes + length (digits base false n) ≤ 20 }
    ensures { piece.new.bytes ≡ piece.old.bytes ++ digits base false n }
{
    if n < base {
        push_ascii(piece, digit(n as u8));
    } else {
        push_digits(piece, base, n / base);
        push_ascii(piece, digit((n % base) as u8));
    }
}

/// A number in decimal.
#[tactic(auto, using(crate::proofs::Digits::decimal_length))]
pub fn decimal(n: u64) -> Piece
    ensures text { result.bytes ≡ decimal n }
    ensures len { length result.bytes ≤ 20 }
{
    let mut piece = Piece::new();
    push_digits(&mut piece, 10, n);
    piece
}

/// `0x`, and a number in hexadecimal.
#[tactic(auto, using(crate::proofs::Digits::hexadecimal_length))]
pub fn hexadecimal(n: u64) -> Piece
    ensures text { result.bytes ≡ hexadecimal n }
    ensures len { length result.bytes ≤ 18 }
{
    let mut piece = Piece::new();
    push_ascii(&mut piece, b'0');
    push_ascii(&mut piece, b'x');
    push_digits(&mut piece, 16, n);
    piece
}
