//! A64 instructions printed.
#![tactic(auto)]

ghost use Rattle.std.specs.Prelude.{◌≡◌, ◌<◌, ◌≤◌};
ghost use Rattle.a64_insn.specs.declared.lines.TheConstants as line;
ghost use Rattle.asm_a64.specs.Law.{text_of_form};
ghost use Rattle.asm_a64.specs.declared.lines.TheConstants as text_line;
ghost use Rattle.dis_a64.specs.Lines.{first_line, line_count};

use a64_insn::{A64, line_number, lines};
use a64_rows::encode_a64;
use arrayvec::ArrayString;
use asm_a64::A64Texts;
use text_print::print_word;

/// The first of the lines of patterns that a line of the table has.
fn first_line(number: u8) -> u8
    requires { number < line.LINES }
    ensures value { result ≡ first_line number }
    ensures small { result < text_line.ALIASES }
{
    if number > lines::LS_REG {
        number + 5
    } else {
        number
    }
}

/// How many they are: one, but for offsets in registers, which have six.
fn line_count(number: u8) -> u8
    ensures value { result ≡ line_count number }
    ensures small { result ≤ 6 }
{
    if number == lines::LS_REG { 6 } else { 1 }
}

/// Puts the text of an instruction that stands at pc in place of `out`.
pub fn print_a64(i: &A64, pc: u64, out: &mut ArrayString<96>)
    ensures { out.new.bytes ≡ text_of_form i.now pc }
{
    let number = line_number(i.form());
    let first = first_line(number);
    let count = line_count(number);
    let word = encode_a64(i);
    print_word(&A64Texts, first, count, word, pc, out);
}
