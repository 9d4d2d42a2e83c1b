//! SVE words to instructions and back, as the instruction table has them; those of immediates, permutes and selections
//! of lanes stand here, the others in crates of their own.
#![tactic(auto)]

mod dispatch;
mod immediates;
mod move_words;
mod moves;
mod permutes;
mod sve_words;

ghost use Rattle.std.specs.Prelude.{◌≡◌, Some, IfSome};
ghost use Rattle.emu_bits.specs.Rows.{decode, encode, instruction};
ghost use Rattle.emu_bits.specs.RowLaws.{OneRow};
ghost use Rattle.sve_insn.specs.Table.{sve_table};
ghost use Rattle.sve_insn.specs.Rows.{row_of};
ghost use Rattle.sve_insn.specs.Seen.{seen};

use dispatch::find;
use sve_insn::Sve;
use sve_words::word_of;

/// The instruction that a word is, or none where the word is in no row of the table.
#[inline(never)]
pub fn decode_sve(w: u32) -> Option<Sve>
    ensures table { seen result ≡ decode sve_table w }
    ensures form { result ≡ instruction sve_table w }
    ensures back { IfSome result (λ i. encode (row_of i) ≡ w) }
{
    decode_sve_here(w)
}

/// The same, all of it in the code of the caller, where a form need not lie in memory.
#[inline(always)]
pub fn decode_sve_here(w: u32) -> Option<Sve>
    ensures table { seen result ≡ decode sve_table w }
    ensures form { result ≡ instruction sve_table w }
    ensures back { IfSome result (λ i. encode (row_of i) ≡ w) }
{
    find(w)
}

/// The word of an instruction.
pub fn encode_sve(i: &Sve) -> u32
    ensures table { result ≡ encode (row_of i.now) }
    ensures row { decode sve_table result ≡ Some (row_of i.now) }
    ensures back { instruction sve_table result ≡ Some i.now }
{
    word_of(i)
}

/// Each word of a row decodes to that row, so no word is in two.
pub fn one_row()
    ensures { OneRow sve_table }
{}

/// An instruction is what its word decodes to.
pub fn again(i: &Sve) -> Option<Sve>
    ensures { result ≡ Some i.now }
{
    decode_sve(encode_sve(i))
}
