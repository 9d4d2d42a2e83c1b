//! The options of `trace` that `svemu run` hasn't.
ghost use Rattle.std.specs.Prelude.{◌≡◌, drop, map, string_bytes};
ghost use Rattle.trace_options.specs.Options.{
  at_end,
  nothing_given,
  option_of,
  place_of,
  read_option,
  read_word,
  read_words,
  trace_options,
  with_place,
};

use crate::word::word;

/// Why an option is refused.
#[derive(Clone, Copy, Debug, PartialEq, Eq)]
pub enum TraceWhy {
    /// It is given twice.
    Repeated,
    /// It has no value.
    MissingValue,
    /// Its value is no number from 0, or from 1, to 2^64 - 1.
    BadNumber,
    /// Its value is no symbol of the program, and no address.
    UnknownPlace,
    /// Its value is no symbol of the program.
    UnknownSymbol,
    /// A name in its value is none of a group of registers, and not `memory`.
    UnknownGroup,
    /// `--call` is given without `--from`.
    CallAlone,
}

/// A refused option: why, and the place of the word, from 0.
#[derive(Clone, Copy, Debug, PartialEq, Eq)]
pub struct TraceFault {
    pub why: TraceWhy,
    pub place: usize,
}

/// An option of `trace` that `run` hasn't. Each has the next word as its value.
#[derive(Clone, Copy, Debug, PartialEq, Eq)]
pub enum TraceOption {
    From,
    Call,
    After,
    Steps,
    Until,
    Show,
    In,
}

/// The places of the options' values among the words after the program's name, from 0, as far as they were read.
#[derive(Clone, Copy, Debug, PartialEq, Eq)]
pub struct Given {
    pub from: Option<usize>,
    pub call: Option<usize>,
    pub after: Option<usize>,
    pub steps: Option<usize>,
    pub until: Option<usize>,
    pub show: Option<usize>,
    /// That of `--in`.
    pub range: Option<usize>,
    /// The option whose value is the next word.
    pub awaited: Option<TraceOption>,
    /// `--` was given, behind which no option stands.
    pub plain: bool,
}

/// The option that a word gives. None exactly where there is none.
pub(crate) fn option_of(word: &str) -> Option<TraceOption>
    ensures { result ≡ option_of word.now }
{
    match word {
        "--from" => Some(TraceOption::From),
        "--call" => Some(TraceOption::Call),
        "--after" => Some(TraceOption::After),
        "--steps" => Some(TraceOption::Steps),
        "--until" => Some(TraceOption::Until),
        "--show" => Some(TraceOption::Show),
        "--in" => Some(TraceOption::In),
        _ => None,
    }
}

/// A refusal at a place.
pub(crate) fn fault(why: TraceWhy, place: usize) -> TraceFault
    ensures { result ≡ record { why = why; place = place } }
{
    TraceFault { why, place }
}

/// Before any word was read.
fn nothing_given() -> Given
    ensures { result ≡ nothing_given }
{
    Given {
        from: None,
        call: None,
        after: None,
        steps: None,
        until: None,
        show: None,
        range: None,
        awaited: None,
        plain: false,
    }
}

impl Given {
    /// The place of an option's value.
    fn place_of(self, option: TraceOption) -> Option<usize>
        ensures { result ≡ place_of option self }
    {
        match option {
            TraceOption::From => self.from,
            TraceOption::Call => self.call,
            TraceOption::After => self.after,
            TraceOption::Steps => self.steps,
            TraceOption::Until => self.until,
            TraceOption::Show => self.show,
            TraceOption::In => self.range,
        }
    }

    /// With the place of an option's value.
    fn with_place(self, option: TraceOption, place: usize) -> Given
        ensures { result ≡ with_place option place self }
    {
        let given = Given {
            awaited: None,
            ..self
        };
        let place = Some(place);
        match option {
            TraceOption::From => Given {
                from: place,
                ..given
            },
            TraceOption::Call => Given {
                call: place,
                ..given
            },
            TraceOption::After => Given {
                after: place,
                ..given
            },
            TraceOption::Steps => Given {
                steps: place,
                ..given
            },
            TraceOption::Until => Given {
                until: place,
                ..given
            },
            TraceOption::Show => Given {
                show: place,
                ..given
            },
            TraceOption::In => Given {
                range: place,
                ..given
            },
        }
    }

    /// With an option's word, or its refusal; any other word is one of the run.
    fn read_option(self, place: usize, option: Option<TraceOption>) -> Result<Given, TraceFault>
        ensures { result ≡ read_option self place option }
    {
        match option {
            None => Ok(self),
            Some(option) => {
                if self.place_of(option).is_some() {
                    return Err(fault(TraceWhy::Repeated, place));
                }
                Ok(Given {
                    awaited: Some(option),
                    ..self
                })
            }
        }
    }

    /// With one word more.
    fn read_word(self, place: usize, word: &str) -> Result<Given, TraceFault>
        ensures { result ≡ read_word self place word.now }
    {
        if self.plain {
            return Ok(self);
        }
        if let Some(option) = self.awaited {
            return Ok(self.with_place(option, place));
        }
        if word == "--" {
            return Ok(Given {
                plain: true,
                ..self
            });
        }
        self.read_option(place, option_of(word))
    }
}

/// What the words behind the command's name say.
fn read_words(words: &[String]) -> Result<Given, TraceFault>
    ensures { result ≡ read_words nothing_given 1 (drop 1 (map string_bytes words.now)) }
{
    let mut given = nothing_given();
    for place in 1..words.len() {
        given = given.read_word(place, word(words, place))?;
    }
    Ok(given)
}

/// What so many words say; an option that is the last of them has no value.
fn at_end(given: Given, count: usize) -> Result<Given, TraceFault>
    ensures { result ≡ at_end given count }
{
    if given.awaited.is_some() {
        return Err(fault(TraceWhy::MissingValue, count.saturating_sub(1)));
    }
    Ok(given)
}

/// The options of `trace` that the words after the program's name give, or the first refusal and its place.
pub fn trace_options(words: &[String]) -> Result<Given, TraceFault>
    ensures { result ≡ trace_options (map string_bytes words.now) }
{
    at_end(read_words(words)?, words.len())
}
