//! A64 words to instructions and back, as the instruction table has them.
#![tactic(auto)]

mod bit_moves;
mod data;
mod dispatch;
mod flow;
mod form_words;

ghost use Rattle.std.specs.Prelude.{◌≡◌, Some, IfSome};
ghost use Rattle.emu_bits.specs.Rows.{decode, encode, instruction};
ghost use Rattle.emu_bits.specs.RowLaws.{OneRow};
ghost use Rattle.a64_insn.specs.Table.{a64_table};
ghost use Rattle.a64_insn.specs.Rows.{row_of};
ghost use Rattle.a64_rows_memory.specs.Seen.{seen};

use a64_insn::A64;
use dispatch::find;
use form_words::word_of;

/// The instruction that a word is, or none where the word is in no row of the table.
pub fn decode_a64(w: u32) -> Option<A64>
    ensures table { seen result ≡ decode a64_table w }
    ensures form { result ≡ instruction a64_table w }
    ensures back { IfSome result (λ i. encode (row_of i) ≡ w) }
{
    decode_a64_at::<()>(w)
}

/// The same for one place of a program, which any type may name: the place has the code for itself, and the compiler
/// can take it into the caller, where a form never has to lie in memory.
pub fn decode_a64_at<Site>(w: u32) -> Option<A64>
    ensures table { seen result ≡ decode a64_table w }
    ensures form { result ≡ instruction a64_table w }
    ensures back { IfSome result (λ i. encode (row_of i) ≡ w) }
{
    find::<Site>(w)
}

/// The word of an instruction.
pub fn encode_a64(i: &A64) -> u32
    ensures table { result ≡ encode (row_of i.now) }
    ensures row { decode a64_table result ≡ Some (row_of i.now) }
    ensures back { instruction a64_table result ≡ Some i.now }
{
    word_of(i.form())
}

/// Each word of a row decodes to that row, so no word is in two.
pub fn one_row()
    ensures { OneRow a64_table }
{}

/// An instruction is what its word decodes to.
pub fn again(i: &A64) -> Option<A64>
    ensures { result ≡ Some i.now }
{
    decode_a64(encode_a64(i))
}
