//! The word of each form, by groups of the table's lines.
ghost use Rattle.std.specs.Prelude.{◌≡◌, true};
ghost use Rattle.emu_bits.specs.Rows.{encode};
ghost use Rattle.emu_bits.specs.RowLaws.{IsShape};
ghost use Rattle.sve_insn.specs.Rows.{row_of, meets_form};

use crate::move_words::move_word;
use sve_insn::Sve;
use sve_rows_data::data_word;
use sve_rows_memory::memory_word;
use sve_rows_predicates::predicate_word;

/// The word of each form.
#[tactic(auto, using(crate::proofs::Listed::is_listed))]
pub fn word_of(i: &Sve) -> u32
    ensures table { result ≡ encode (row_of i.now) }
    ensures shape { IsShape (row_of i.now) }
    ensures met { meets_form i.now ≡ true }
{
    let form = i.form();
    if let Some(w) = memory_word(form) {
        return w;
    }
    if let Some(w) = data_word(form) {
        return w;
    }
    if let Some(w) = move_word(form) {
        return w;
    }
    let Some(w) = predicate_word(form) else {
        unreachable!()
    };
    w
}
