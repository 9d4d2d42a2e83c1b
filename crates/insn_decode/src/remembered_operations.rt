//! Words of A64 with their operations, so that a word which was decoded needn't be decoded again.
ghost use Rattle.std.specs.Prelude.{◌≡◌, ◌<◌};
ghost use Rattle.emu_bits.specs.Fields.{field};
ghost use Rattle.insn_decode.specs.Known.{IsOperationOf};

use crate::decode_a64_word;
use a64_operations::{Operation, operation_of};
use std::alloc::{AllocError, Global};
use std::marker::Model;

/// The number of places, for 4 KiB of instructions one behind the other.
const PLACES: usize = 1024;

/// A word with the operation that it is.
#[derive(Clone, Copy)]
struct KnownOperation {
    // first, so that its address is the place's
    operation: Operation,
    word: u32,
}

impl Model for KnownOperation {
    ghost use Rattle.std.specs.Prelude.{ℕ};
    ghost use Rattle.a64_operations.specs.declared.operation.Operation.{Operation};
    ghost use Rattle.insn_decode.specs.Known.{IsOperationOf};

    ghost Value = { ℕ × Operation };

    ghost view = { λ a. (a.word, a.operation) };

    ghost invariant = { λ a. IsOperationOf a.operation a.word };

    ghost inverse = { λ known. record { word = known.0; operation = known.1 } };
}

impl KnownOperation {
    /// The word 0, which is left to its form.
    fn first() -> KnownOperation {
        KnownOperation {
            word: 0,
            operation: Operation::ByForm,
        }
    }

    /// Its operation.
    #[inline(always)]
    fn operation(&self) -> &Operation
        ensures { IsOperationOf result.now self.now.0 }
    {
        &self.operation
    }

    /// Makes it this word.
    #[inline(always)]
    fn becomes(&mut self, word: u32)
        requires { ¬ (field word 27 2 ≡ 0) }
        ensures { self.new.0 ≡ word }
    {
        if self.word != word {
            self.learns(word);
        }
    }

    /// The same, by decoding the word. It isn't inlined, so that the decoder isn't in the code of a word that is known.
    #[cold]
    #[inline(never)]
    fn learns(&mut self, word: u32)
        requires { ¬ (field word 27 2 ≡ 0) }
        ensures { self.new.0 ≡ word }
    {
        *self = KnownOperation {
            word,
            operation: operation_of_word(word),
        };
    }
}

/// The operation of a word, or that it is left to its form, as a word is that is in no row.
fn operation_of_word(word: u32) -> Operation
    requires { ¬ (field word 27 2 ≡ 0) }
    ensures { IsOperationOf result word }
{
    match decode_a64_word::<KnownOperation>(word) {
        None => Operation::ByForm,
        Some(insn) => operation_of::<KnownOperation>(insn.form()),
    }
}

/// Words of A64 with their operations, one at each place. The address of an instruction gives its place, so that the
/// words of a loop have places of their own; of two instructions that have a place in common, the word of the one that
/// was asked for last is there. Each place has a word from the start on, so that no place has to be asked whether it
/// has one.
///
/// No contract says which words these are: whatever they are, and whatever the address, `find` answers an operation of
/// the word.
#[derive(Drop)]
pub struct KnownOperations {
    // in a box, so that what has them can be moved
    places: Box<[KnownOperation; PLACES]>,
}

impl KnownOperations {
    /// One word at all places. The only error is want of memory.
    pub fn new(alloc: Global) -> Result<KnownOperations, AllocError> {
        Ok(KnownOperations {
            places: Box::new(alloc, [KnownOperation::first(); PLACES])?,
        })
    }

    /// The operation of a word that isn't in a row of SVE, which is remembered from then on, at the place of its address.
    #[inline(always)]
    pub fn find(&mut self, pc: u64, word: u32) -> &Operation
        requires { ¬ (field word 27 2 ≡ 0) }
        ensures { IsOperationOf result.now word }
    {
        let places = &mut *self.places;
        let known = &mut places[place_of(pc)];
        known.becomes(word);
        known.operation()
    }
}

/// The place of an instruction: the 10 bits of its address behind those that are 0.
#[inline(always)]
fn place_of(pc: u64) -> usize
    ensures { result < 1024 }
{
    (pc / 4 % 1024) as usize
}
