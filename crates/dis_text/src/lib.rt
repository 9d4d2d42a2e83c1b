//! Instructions of both tables as text, and that their texts are read back; and the words of a program as text.
#![tactic(auto)]

mod apart;
mod segments;

ghost use Rattle.std.specs.Prelude.{◌≡◌, ℕ, ◌^◌, ◌<◌, true};
ghost use Rattle.emu_run.specs.declared.insn.Insn.{Insn};
ghost use Rattle.asm_text.specs.Texts.{text};
ghost use Rattle.asm_text.specs.Canonical.{is_canonical};
ghost use Rattle.dis_text.specs.ReadBack.{IsInstruction, IsReadBack};
ghost use Rattle.dis_text.specs.Said.{IsSaid, IsShownAgain};

pub use crate::apart::no_statement_is_of_both;
use a64_rows::encode_a64;
use arrayvec::ArrayString;
use dis_a64::print_a64;
use dis_sve::print_sve;
use insn_decode::{Insn, encode};
pub use segments::put_dis;
use sve_rows::encode_sve;

/// Puts the text of an instruction that stands at pc in place of `out`.
pub fn print(i: &Insn, pc: u64, out: &mut ArrayString<96>)
    ensures { out.new.bytes ≡ text i.now pc }
{
    match i {
        Insn::A64(i) => print_a64(i, pc, out),
        Insn::Sve(i) => print_sve(i, out),
    }
}

/// The text of each instruction, but for a bitmask whose rotation isn't the least, is read as the instruction, over
/// both tables together: at any address that it stands at, the line that has only this text.
pub fn printed_text_is_read()
    ensures { (i : Insn) (pc : ℕ) → IsInstruction i → is_canonical i ≡ true → pc < 2 ^ 64 → IsReadBack i pc }
{}

/// Each instruction that a line of a listing says, by itself or aimed at an address from where it stands, is
/// disassembled there to a line that makes the same word: behind the address and the word stands the instruction's
/// text, and this is read as the instruction, or as one that aimed at the line's address is it.
pub fn what_is_said_is_read_back(i: &Insn)
    ensures { (pc : ℕ) → pc < 2 ^ 64 → IsSaid i.now pc → IsShownAgain i.now pc }
{
    encode(i);
    match i {
        Insn::A64(i) => {
            encode_a64(i);
        }
        Insn::Sve(i) => {
            encode_sve(i);
        }
    }
}
