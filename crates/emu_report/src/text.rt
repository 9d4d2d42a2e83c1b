//! A text that is put together in memory and put to a sink at once.
ghost use Rattle.std.specs.Prelude.{◌≡◌, ◌<◌, ◌≤◌, ◌+◌, ◌*◌, [], ◌++◌, length};
ghost use Rattle.std.specs.Fmt.{decimal};
ghost use Rattle.io_gate.specs.Streams.{HasCause};
ghost use Rattle.io_gate.specs.Pieces.{PutsAll};
ghost use Rattle.emu_run.specs.Text.{hex, hex_digit};
ghost use Rattle.emu_report.specs.WordDigits.{word_digits};

use arrayvec::ArrayVec;
use io_gate::{Failed, Sink, put_all};
use std::marker::Model;

/// The most bytes of a text.
const ROOM: usize = 2048;

/// A text of at most 2048 bytes. Contracts see its bytes.
#[derive(Drop)]
pub struct Text {
    bytes: ArrayVec<u8, ROOM>,
}

impl Model for Text {
    ghost use Rattle.std.specs.Prelude.{List, ℕ};

    ghost Value = { List ℕ };

    ghost view = { λ t. t.bytes.items };
}

impl Text {
    /// The empty text.
    pub fn new() -> Text
        ensures { result ≡ [] }
    {
        Text {
            bytes: ArrayVec::new(),
        }
    }

    /// Appends some bytes.
    pub fn push(&mut self, piece: &[u8])
        requires { length self.old + length piece.now ≤ 2048 }
        ensures text { self.new ≡ self.old ++ piece.now }
        ensures len { length self.new ≡ length self.old + length piece.now }
    {
        self.bytes.try_extend_from_slice(piece).unwrap();
    }

    /// Appends a number in decimal.
    #[tactic(auto, using(crate::proofs::Decimals::decimal_short, crate::proofs::Decimals::decimal_appended))]
    pub fn push_decimal(&mut self, n: u64)
        requires { length self.old + 20 ≤ 2048 }
        ensures text { self.new ≡ self.old ++ decimal n }
        ensures len { length self.new ≤ length self.old + 20 }
    {
        self.push_digits(n);
    }

    /// Appends the decimal digits of a number, those before the last first.
    fn push_digits(&mut self, n: u64)
        requires { length self.old + length (decimal n) ≤ 2048 }
        ensures { self.new ≡ self.old ++ decimal n }
    {
        if n >= 10 {
            self.push_digits(n / 10);
        }
        self.bytes.push(b'0' + (n % 10) as u8);
    }

    /// Appends so many hexadecimal digits of a number, the most significant first.
    pub fn push_hex(&mut self, v: u64, digits: u32)
        requires few { digits ≤ 16 }
        requires room { length self.old + digits ≤ 2048 }
        ensures text { self.new ≡ self.old ++ hex digits v }
        ensures len { length self.new ≡ length self.old + digits }
    {
        'digits: for k in 0..digits {
            let digit = (v >> (4 * (digits - 1 - k))) % 16;
            self.bytes.push(hex_digit(digit as u8));
        }
    }

    /// Appends so many hexadecimal digits of a number that is given by words, the lowest first: its lowest digits, the
    /// most significant of them first.
    pub fn push_words(&mut self, words: &[u64], digits: u32)
        requires within { digits ≤ 16 * length words.now }
        requires room { length self.old + digits ≤ 2048 }
        ensures text { self.new ≡ self.old ++ word_digits digits words.now }
        ensures len { length self.new ≡ length self.old + digits }
    {
        'digits: for k in 0..digits {
            let place = digits - 1 - k;
            let word = words[place as usize / 16];
            let digit = (word >> (4 * (place % 16))) % 16;
            self.bytes.push(hex_digit(digit as u8));
        }
    }

    /// Puts all of it.
    pub fn put<S: Sink>(&self, sink: &mut S) -> Result<(), Failed>
        ensures bytes { PutsAll (S.held sink.old) (S.held sink.new) self.now result }
        ensures cause { HasCause (S.faults sink.old) (S.faults sink.new) result }
    {
        put_all(sink, &self.bytes)
    }
}

/// The character of a hexadecimal digit, in lower case.
fn hex_digit(digit: u8) -> u8
    requires { digit < 16 }
    ensures { result ≡ hex_digit digit }
{
    if digit < 10 {
        b'0' + digit
    } else {
        b'a' + (digit - 10)
    }
}
