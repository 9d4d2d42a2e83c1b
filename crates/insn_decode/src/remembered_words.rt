//! The words that are remembered.
ghost use Rattle.std.specs.Prelude.{◌≡◌, ◌<◌, option_map};
ghost use Rattle.emu_bits.specs.Fields.{field};
ghost use Rattle.emu_run.specs.ByTable.{sve};
ghost use Rattle.emu_run.specs.Step as model;

use crate::known::KnownWord;
use std::alloc::{AllocError, Global};
use sve_insn::Sve;

/// The number of places.
const PLACES: usize = 256;

/// Words of SVE with their instructions, one at each place. Of the words that have a place in common, the one that was
/// asked for last is there. Each place has a word from the start on, so that no place has to be asked whether it has
/// one.
///
/// No contract says which words these are: whatever they are, `find` answers what the word decodes to.
#[derive(Drop)]
pub struct DecodedWords {
    // in a box, so that what has them can be moved
    places: Box<[KnownWord; PLACES]>,
}

impl DecodedWords {
    /// One word at all places. The only error is want of memory.
    pub fn new(alloc: Global) -> Result<DecodedWords, AllocError> {
        Ok(DecodedWords {
            places: Box::new(alloc, [KnownWord::first(); PLACES])?,
        })
    }

    /// The instruction of a word that may be in a row of SVE, which is remembered from then on. None exactly where the
    /// word is in no row of a table.
    #[inline(always)]
    pub fn find(&mut self, word: u32) -> Option<&Sve>
        requires { field word 27 2 ≡ 0 }
        ensures { sve (option_map (λ i. i.now) result) ≡ model.decode word }
    {
        let places = &mut *self.places;
        let known = &mut places[place_of(word)];
        if known.becomes(word) {
            Some(known.insn())
        } else {
            None
        }
    }
}

/// The place of a word. The highest bits of the product rest on all bits of the word, so that words which differ in
/// their registers alone mostly have places of their own.
#[inline(always)]
fn place_of(word: u32) -> usize
    ensures { result < 256 }
{
    (word.wrapping_mul(0x9E37_79B1) / 0x100_0000) as usize
}
