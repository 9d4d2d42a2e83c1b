//! How memory and registers are written.
ghost use Rattle.std.specs.Prelude.{◌≡◌, ◌≤◌, IfSome};
ghost use Rattle.debug_places.specs.Formats.{
  format_of,
  is_figure,
  notation_of,
  plain_format,
  unit_of,
  with_figure,
  with_letter,
  with_letters,
  with_notation,
  with_unit,
};

/// The greatest count.
const MOST_COUNT: u32 = 4096;

/// How a value is written.
#[derive(Clone, Copy)]
pub enum Notation {
    Hexadecimal,
    /// Decimal, as a number with a sign.
    Signed,
    Unsigned,
    Binary,
    Character,
    /// Bytes up to a zero byte.
    Text,
    Instruction,
}

/// What stands behind a slash: a count, 0 where none is told, a notation and how many bytes a value has.
#[derive(Clone, Copy)]
pub struct Format {
    pub count: u32,
    pub notation: Option<Notation>,
    pub unit: Option<u32>,
}

/// Nothing is asked for.
pub fn plain_format() -> Format
    ensures { result ≡ plain_format }
{
    Format {
        count: 0,
        notation: None,
        unit: None,
    }
}

/// Whether a byte is a figure.
fn is_figure(b: u8) -> bool
    ensures { result ≡ is_figure b }
{
    48 <= b && b <= 57
}

/// The notation of a letter.
fn notation_of(b: u8) -> Option<Notation>
    ensures { result ≡ notation_of b }
{
    if b == 120 {
        Some(Notation::Hexadecimal)
    } else if b == 100 {
        Some(Notation::Signed)
    } else if b == 117 {
        Some(Notation::Unsigned)
    } else if b == 116 {
        Some(Notation::Binary)
    } else if b == 99 {
        Some(Notation::Character)
    } else if b == 115 {
        Some(Notation::Text)
    } else if b == 105 {
        Some(Notation::Instruction)
    } else {
        None
    }
}

/// The number of bytes of a letter.
fn unit_of(b: u8) -> Option<u32>
    ensures value { result ≡ unit_of b }
    ensures small { IfSome result (λ n. n ≤ 8) }
{
    if b == 98 {
        Some(1)
    } else if b == 104 {
        Some(2)
    } else if b == 119 {
        Some(4)
    } else if b == 103 {
        Some(8)
    } else {
        None
    }
}

impl Format {
    /// With one figure more of the count. None where it is too great.
    fn with_figure(self, figure: u8) -> Option<Format>
        ensures { result ≡ with_figure self figure }
    {
        let count = u64::from(self.count) * 10 + u64::from(figure);
        if count <= u64::from(MOST_COUNT) {
            Some(Format {
                count: count as u32,
                ..self
            })
        } else {
            None
        }
    }

    /// With a number of bytes.
    fn with_unit(self, unit: Option<u32>) -> Option<Format>
        ensures { result ≡ with_unit self unit }
    {
        match unit {
            None => None,
            Some(unit) => Some(Format {
                unit: Some(unit),
                ..self
            }),
        }
    }

    /// With one letter more. None where it is none.
    fn with_letter(self, b: u8) -> Option<Format>
        ensures { result ≡ with_letter self b }
    {
        if is_figure(b) {
            return self.with_figure(b - 48);
        }
        match notation_of(b) {
            None => self.with_unit(unit_of(b)),
            Some(notation) => Some(Format {
                notation: Some(notation),
                ..self
            }),
        }
    }
}

/// The format of some letters. None where one is no letter of a format, or the count is greater than 4,096.
pub fn format_of(letters: &str) -> Option<Format>
    ensures { result ≡ format_of letters.now }
{
    let mut format = Some(plain_format());
    'letters: for b in letters.as_bytes() {
        format = match format {
            None => None,
            Some(format) => format.with_letter(*b),
        };
    }
    format
}
