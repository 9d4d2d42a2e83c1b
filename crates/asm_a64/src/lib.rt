//! The texts of A64 instructions: patterns by the lines of the instruction table, and behind them those of other names;
//! and statements read as A64 instructions.
#![tactic(auto)]

mod aliases;
mod atomics;
mod bit_moves;
mod data;
mod flow;
pub mod lines;
mod memory;
mod names;
mod statements;

ghost use Rattle.std.specs.Prelude.{◌≡◌, ℕ, ◌^◌, ◌<◌, true, [], Some, get_or};
ghost use Rattle.emu_bits.specs.RowLaws.{IsRow};
ghost use Rattle.a64_insn.specs.declared.form.A64Form.{A64Form};
ghost use Rattle.a64_insn.specs.Rows.{row_of};
ghost use Rattle.text_code.specs.Tables.{lines_of, patterns_of};
ghost use Rattle.text_model.specs.Aim.{aimed};
ghost use Rattle.text_model.specs.Inverse.{AllTell};
ghost use Rattle.text_model.specs.Writing.{flat};
ghost use Rattle.asm_a64.specs.Law.{in_table, reach, unaimed_word};
ghost use Rattle.asm_a64.specs.LawOfTexts.{is_canonical_form, IsReadBack, TextsOfLines};
ghost use Rattle.asm_a64.specs.BitMoves.{last_lines};
ghost use Rattle.asm_a64.specs.Data.{data_lines};
ghost use Rattle.asm_a64.specs.Flow.{flow_lines};
ghost use Rattle.asm_a64.specs.Memory.{memory_lines};
ghost use Rattle.asm_a64.specs.Table.{line_texts, a64_lines};

use a64_rows::decode_a64;
use text_code::{Pattern, Spot, Table, line_of};

/// The patterns of the lines of data processing.
fn data_lines() -> [&'static [Pattern]; 19]
    ensures { lines_of result ≡ data_lines }
{
    [
        &data::ADR,
        &data::ADD_IMM,
        &data::LOGIC_IMM,
        &data::MOVE_WIDE,
        &data::BITFIELD,
        &data::EXTRACT,
        &data::LOGIC_REG,
        &data::ADD_REG,
        &data::ADD_EXT,
        &data::ADD_CARRY,
        &data::COND_REG,
        &data::COND_IMM,
        &data::SELECT,
        &data::MUL_ADD,
        &data::MUL_LONG,
        &data::MUL_HIGH,
        &data::TWO_SOURCE,
        &data::ONE_SOURCE,
        &data::REV,
    ]
}

/// The patterns of the lines of branches and of system instructions.
fn flow_lines() -> [&'static [Pattern]; 10]
    ensures { lines_of result ≡ flow_lines }
{
    [
        &flow::BRANCH,
        &flow::BRANCH_COND,
        &flow::COMPARE,
        &flow::TEST,
        &flow::BRANCH_REG,
        &flow::EXCEPT,
        &flow::HINT,
        &flow::BARRIER,
        &flow::READ_SYS,
        &flow::WRITE_SYS,
    ]
}

/// The patterns of the lines of loads and stores; those of offsets in registers stand in six parts.
fn memory_lines() -> [&'static [Pattern]; 17]
    ensures { lines_of result ≡ memory_lines }
{
    [
        &memory::LS_UNSIGNED,
        &memory::LS_UNSCALED,
        &memory::LS_POST,
        &memory::LS_PRE,
        &memory::LS_REG_WORD,
        &memory::LS_REG_WORD_SCALED,
        &memory::LS_REG_SHIFT,
        &memory::LS_REG_SHIFT_SCALED,
        &memory::LS_REG_SIGNED,
        &memory::LS_REG_SIGNED_SCALED,
        &memory::LS_LITERAL,
        &memory::PAIR,
        &memory::STORE_EX,
        &memory::LOAD_EX,
        &memory::ORDERED,
        &atomics::ATOMIC,
        &atomics::COMPARE_SWAP,
    ]
}

/// The patterns of the moves of bits, and behind them those of other names.
fn last_lines() -> [&'static [Pattern]; 3]
    ensures { lines_of result ≡ last_lines }
{
    [&bit_moves::F_MOVE, &bit_moves::MOVE_IMM, &aliases::ALIASES]
}

/// The patterns of the line of this number, by the parts of the table; none behind the last.
fn line_numbered(number: u8) -> &'static [Pattern]
    ensures { patterns_of result.now ≡ get_or a64_lines number [] }
{
    if number < lines::BRANCH {
        line_of(&data_lines(), number)
    } else if number < lines::LS_UNSIGNED {
        line_of(&flow_lines(), number - lines::BRANCH)
    } else if number < lines::F_MOVE {
        line_of(&memory_lines(), number - lines::LS_UNSIGNED)
    } else {
        line_of(&last_lines(), number - lines::F_MOVE)
    }
}

/// The texts of A64 instructions.
#[derive(Clone, Copy)]
pub struct A64Texts;

impl Table for A64Texts {
    ghost lines = { λ t. a64_lines };

    ghost in_table = { λ t. in_table };

    fn line(&self, number: u8) -> &'static [Pattern] {
        line_numbered(number)
    }

    fn spots(&self, name: &str) -> &'static [Spot] {
        names::spots(name)
    }

    fn holds(&self, word: u32) -> bool {
        decode_a64(word).is_some()
    }
}

/// A word's form has the patterns of the line that holds the word.
pub fn texts_of_lines()
    ensures { TextsOfLines }
{}

/// Reading is the inverse of showing: the items that a pattern of the table shows of a word tell the word, the bits of
/// its target 0.
pub fn items_tell_their_words()
    ensures { AllTell (flat line_texts) }
{}

/// The text of each instruction, but for a bitmask whose rotation isn't the least, is read as the instruction: at any
/// address that it stands at.
pub fn printed_text_is_read()
    ensures { (f : A64Form) (pc : ℕ) → IsRow (row_of f) → is_canonical_form f ≡ true → pc < 2 ^ 64 → IsReadBack f pc }
{}

/// A word whose target's bits are 0, aimed at a target that its field can reach, is a word of the table.
pub fn aimed_words_are_rows()
    ensures { (f : A64Form) (pc t w : ℕ) → IsRow (row_of f) → aimed (reach f) (unaimed_word f) pc t ≡ Some w
        → in_table w ≡ true }
{}

pub use statements::{A64Line, read_a64};
