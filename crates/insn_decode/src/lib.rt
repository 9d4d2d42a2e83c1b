//! The instruction that a word is, and the word of an instruction, over all tables of instructions; and words of SVE
//! with their instructions, so that a word which was decoded needn't be decoded again.
//!
//! What a word decodes to rests on the word alone. So the word is remembered with it, and is compared wherever it is
//! looked for: code that is written needs no notice.
#![tactic(auto)]

mod known;
mod remembered_operations;
mod remembered_words;

ghost use Rattle.std.specs.Prelude.{◌≡◌, ◌↔◌, IfSome, IsTrue, Some};
ghost use Rattle.emu_bits.specs.Fields.{field};
ghost use Rattle.emu_run.specs.ByTable as row;
ghost use Rattle.emu_run.specs.Step as model;
ghost use Rattle.insn_decode.specs.OneRow.{OneRowOfAll};
ghost use Rattle.insn_decode.specs.Words.{word_of};

use a64_insn::A64;
use a64_rows::{decode_a64_at, encode_a64};
use emu_bits::bits;
pub use emu_run::Insn;
pub use remembered_operations::KnownOperations;
pub use remembered_words::DecodedWords;
use sve_insn::Sve;
use sve_rows::{decode_sve_here, encode_sve};

/// The instruction that a word is. None exactly where the word is in no row of a table.
pub fn decode(w: u32) -> Option<Insn>
    ensures table { result ≡ model.decode w }
    ensures back { IfSome result (λ i. word_of i ≡ w) }
{
    decode_at::<()>(w)
}

/// The same for one place of a program, which any type may name (`a64_rows::decode_a64_at`).
#[inline(always)]
pub fn decode_at<Site>(w: u32) -> Option<Insn>
    ensures table { result ≡ model.decode w }
    ensures back { IfSome result (λ i. word_of i ≡ w) }
{
    if may_be_sve(w) {
        decode_sve_word(w).map(Insn::Sve)
    } else {
        decode_a64_word::<Site>(w).map(Insn::A64)
    }
}

/// Whether bits 28 and 27 of a word are 0, as they are in each row of SVE and in none of A64.
#[inline(always)]
pub fn may_be_sve(w: u32) -> bool
    ensures { IsTrue result ↔ (field w 27 2 ≡ 0) }
{
    bits(w, 28, 27) == 0
}

/// The instruction of a word that may be in a row of SVE. None exactly where it is in no row of a table.
#[inline(always)]
pub fn decode_sve_word(w: u32) -> Option<Sve>
    requires { field w 27 2 ≡ 0 }
    ensures table { row.sve result ≡ model.decode w }
    ensures back { IfSome result (λ i. word_of (Insn.Sve i) ≡ w) }
{
    decode_sve_here(w)
}

/// The instruction of a word that isn't in a row of SVE, for one place of a program. None exactly where it is in no row
/// of a table.
#[inline(always)]
pub fn decode_a64_word<Site>(w: u32) -> Option<A64>
    requires { ¬ (field w 27 2 ≡ 0) }
    ensures table { row.a64 result ≡ model.decode w }
    ensures back { IfSome result (λ i. word_of (Insn.A64 i) ≡ w) }
{
    decode_a64_at::<Site>(w)
}

/// The word of an instruction: its row's base word with the fields put in.
pub fn encode(i: &Insn) -> u32
    ensures table { result ≡ word_of i.now }
    ensures back { model.decode result ≡ Some i.now }
{
    match i {
        Insn::A64(i) => encode_a64(i),
        Insn::Sve(i) => encode_sve(i),
    }
}

/// Over both tables together, no word is in two rows.
pub fn one_row()
    ensures { OneRowOfAll }
{
    a64_rows::one_row();
    sve_rows::one_row();
}

/// An instruction is what its word decodes to.
pub fn again(i: &Insn) -> Option<Insn>
    ensures { result ≡ Some i.now }
{
    decode(encode(i))
}
