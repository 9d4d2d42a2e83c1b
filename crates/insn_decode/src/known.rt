//! A word with its instruction.
ghost use Rattle.std.specs.Prelude.{◌≡◌, None, true, false};
ghost use Rattle.emu_bits.specs.Fields.{field};
ghost use Rattle.emu_run.specs.Step.{decode};
ghost use Rattle.insn_decode.specs.Known.{IsOfWord};

use crate::{Insn, decode_sve_word, encode};
use emu_bits::Pred;
use std::marker::Model;
use sve_insn::{Sve, SveForm};

/// A word with the instruction that it is.
#[derive(Clone, Copy)]
pub(crate) struct KnownWord {
    word: u32,
    insn: Sve,
}

impl Model for KnownWord {
    ghost use Rattle.std.specs.Prelude.{ℕ};
    ghost use Rattle.sve_insn.specs.declared.form.SveForm.{SveForm};
    ghost use Rattle.insn_decode.specs.Known.{IsOfWord};

    ghost Value = { ℕ × SveForm };

    ghost view = { λ a. (a.word, a.insn) };

    ghost invariant = { λ a. IsOfWord a.insn a.word };

    ghost inverse = { λ known. record { word = known.0; insn = known.1 } };
}

impl KnownWord {
    /// An instruction with its word.
    pub(crate) fn of(insn: Sve) -> KnownWord
        ensures { result.1 ≡ insn }
    {
        let word = encode(&Insn::Sve(insn));
        KnownWord { word, insn }
    }

    /// The word of `pfalse p0.b`.
    #[tactic(auto, unfolding(sve_insn::specs::Predicates::pfalse))]
    pub(crate) fn first() -> KnownWord {
        match Sve::new(SveForm::Pfalse { pd: Pred::at(0, 0) }) {
            Some(insn) => KnownWord::of(insn),
            None => unreachable!(),
        }
    }

    /// Its instruction.
    #[inline(always)]
    pub(crate) fn insn(&self) -> &Sve
        ensures { IsOfWord result.now self.now.0 }
    {
        &self.insn
    }

    /// Makes it this word, unless the word is in no row, and says whether it is.
    #[inline(always)]
    pub(crate) fn becomes(&mut self, word: u32) -> bool
        requires { field word 27 2 ≡ 0 }
        ensures known { result ≡ true → self.new.0 ≡ word }
        ensures unknown { result ≡ false → decode word ≡ None }
    {
        if self.word == word {
            return true;
        }
        self.learns(word)
    }

    /// The same, by decoding the word. It isn't inlined, so that the decoder isn't in the code of a word that is known.
    #[cold]
    #[inline(never)]
    fn learns(&mut self, word: u32) -> bool
        requires { field word 27 2 ≡ 0 }
        ensures known { result ≡ true → self.new.0 ≡ word }
        ensures unknown { result ≡ false → decode word ≡ None }
    {
        match decode_sve_word(word) {
            None => false,
            Some(insn) => {
                *self = KnownWord { word, insn };
                true
            }
        }
    }
}
