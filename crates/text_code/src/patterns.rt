//! Patterns as the program has them.
ghost use Rattle.std.specs.Prelude.{◌≡◌};
ghost use Rattle.text_code.specs.Tables.{pattern_of};

use crate::filling::MOST;
use arrayvec::ArrayVec;
use text_model::slot_numbers::END;
use text_model::{Slot, slot};

/// A pattern: the number of its name, the word whose bits the name settles, and the numbers of the slots that show the
/// others, up to [`END`].
#[derive(Clone, Copy)]
pub struct Pattern {
    pub name: u16,
    pub base: u32,
    pub slots: [u8; 24],
}

impl Pattern {
    /// The name.
    pub fn name(&self) -> &'static str
        ensures { result.now ≡ (pattern_of self.now).name }
    {
        text_model::name(self.name)
    }

    /// The slots.
    pub fn slots(&self) -> ArrayVec<Slot, MOST>
        ensures { result.items ≡ (pattern_of self.now).slots }
    {
        let mut all = ArrayVec::new();
        for number in &self.slots {
            if *number == END {
                return all;
            }
            all.push(slot(*number));
        }
        all
    }
}

/// Where a pattern stands in a table: a line, and a place among its patterns.
#[derive(Clone, Copy)]
pub struct Spot {
    pub line: u8,
    pub place: u8,
}

/// A name, and where its patterns stand.
#[derive(Clone, Copy)]
pub struct Name {
    pub name: &'static str,
    pub spots: &'static [Spot],
}

/// The names of a table in the order of their bytes, in three parts.
#[derive(Clone, Copy)]
pub struct Names {
    pub first: &'static [Name],
    pub second: &'static [Name],
    pub third: &'static [Name],
}
