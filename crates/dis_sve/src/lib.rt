//! SVE instructions printed.
#![tactic(auto)]

ghost use Rattle.std.specs.Prelude.{◌≡◌};
ghost use Rattle.asm_sve.specs.Law.{text_of_form};

use arrayvec::ArrayString;
use asm_sve::SveTexts;
use sve_insn::Sve;
use sve_insn::lines::line_number;
use sve_rows::encode_sve;
use text_print::print_word;

/// Puts the text of an instruction in place of `out`. None shows an address, so it is the same wherever the instruction
/// stands.
pub fn print_sve(i: &Sve, out: &mut ArrayString<96>)
    ensures { out.new.bytes ≡ text_of_form i.now }
{
    let number = line_number(i.form());
    let word = encode_sve(i);
    print_word(&SveTexts, number, 1, word, 0, out);
}
