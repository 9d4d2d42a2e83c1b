//! The texts of SVE instructions: patterns by the lines of the instruction table; and statements read as SVE
//! instructions.
#![tactic(auto)]

/// Slots by their names, with the marks between them as they are written.
macro_rules! slots {
    ([$($slots:tt)*]) => {
        slots!(@ [] $($slots)*)
    };
    (@ [$($done:ident),*]) => {
        padded!([$($done),*])
    };
    (@ [$($done:ident),*] , $($more:tt)*) => {
        slots!(@ [$($done,)* COMMA] $($more)*)
    };
    (@ [$($done:ident),*] / $($more:tt)*) => {
        slots!(@ [$($done,)* SLASH] $($more)*)
    };
    (@ [$($done:ident),*] {$($inner:tt)*} $($more:tt)*) => {
        slots!(@ [$($done,)* OPEN_BRACE] $($inner)* CLOSE_BRACE $($more)*)
    };
    (@ [$($done:ident),*] [$($inner:tt)*] $($more:tt)*) => {
        slots!(@ [$($done,)* OPEN] $($inner)* CLOSE $($more)*)
    };
    (@ [$($done:ident),*] $slot:ident $($more:tt)*) => {
        slots!(@ [$($done,)* $slot] $($more)*)
    };
}

/// Patterns of the same slots, one after the other: the slots, and names with their words.
macro_rules! patterns {
    ($($slots:tt: $($name:ident $base:literal),*;)*) => {
        [$($(Pattern { name: names::$name, base: $base, slots: slots!($slots) }),*),*]
    };
}

mod contiguous;
mod folds;
mod gathers;
mod lanes;
mod names;
mod permutes;
mod predicates;
mod statements;

ghost use Rattle.std.specs.Prelude.{◌≡◌, [], true, get_or};
ghost use Rattle.emu_bits.specs.RowLaws.{IsRow};
ghost use Rattle.sve_insn.specs.declared.form.SveForm.{SveForm};
ghost use Rattle.sve_insn.specs.Rows.{row_of};
ghost use Rattle.text_code.specs.Tables.{lines_of, patterns_of};
ghost use Rattle.text_model.specs.Inverse.{AllTell};
ghost use Rattle.asm_sve.specs.Law.{in_table};
ghost use Rattle.asm_sve.specs.LawOfTexts.{is_canonical_form, IsReadBack, TextsOfLines};
ghost use Rattle.asm_sve.specs.Table.{data_texts, memory_texts, move_texts, predicate_texts, sve_lines, sve_patterns};

use sve_insn::lines;
use sve_rows::decode_sve;
use text_code::{Pattern, Spot, Table, line_of};

/// The patterns of the lines of loads and stores.
fn memory_lines() -> [&'static [Pattern]; 37]
    ensures { lines_of result ≡ memory_texts }
{
    [
        &contiguous::LOAD_Z_TEXTS,
        &contiguous::LOAD_P_TEXTS,
        &contiguous::STORE_Z_TEXTS,
        &gathers::GATHER_SX_TEXTS,
        &gathers::GATHER_SX_SCALED_TEXTS,
        &contiguous::STORE_REG_TEXTS,
        &contiguous::LOAD_IMM_TEXTS,
        &contiguous::LOAD_REG_TEXTS,
        &contiguous::LOAD_FF_TEXTS,
        &contiguous::LOAD_NF_TEXTS,
        &contiguous::LOAD_NT_IMM_TEXTS,
        &contiguous::LOAD_NT_REG_TEXTS,
        &contiguous::LOAD_QUAD_IMM_TEXTS,
        &contiguous::LOAD_QUAD_REG_TEXTS,
        &contiguous::LOAD_MANY_IMM_TEXTS,
        &contiguous::LOAD_MANY_REG_TEXTS,
        &contiguous::LOAD_ONE_TEXTS,
        &contiguous::STORE_IMM_TEXTS,
        &contiguous::STORE_NT_IMM_TEXTS,
        &contiguous::STORE_NT_REG_TEXTS,
        &contiguous::STORE_MANY_IMM_TEXTS,
        &contiguous::STORE_MANY_REG_TEXTS,
        &contiguous::STORE_P_TEXTS,
        &gathers::GATHER_DX_TEXTS,
        &gathers::GATHER_DX_SCALED_TEXTS,
        &gathers::GATHER_D_TEXTS,
        &gathers::GATHER_D_SCALED_TEXTS,
        &gathers::GATHER_SV_TEXTS,
        &gathers::GATHER_DV_TEXTS,
        &gathers::SCATTER_SX_TEXTS,
        &gathers::SCATTER_SX_SCALED_TEXTS,
        &gathers::SCATTER_DX_TEXTS,
        &gathers::SCATTER_DX_SCALED_TEXTS,
        &gathers::SCATTER_D_TEXTS,
        &gathers::SCATTER_D_SCALED_TEXTS,
        &gathers::SCATTER_SV_TEXTS,
        &gathers::SCATTER_DV_TEXTS,
    ]
}

/// The patterns of the lines of results lane by lane, folds and counts.
fn data_lines() -> [&'static [Pattern]; 23]
    ensures { lines_of result ≡ data_texts }
{
    [
        &lanes::BINARY_TEXTS,
        &lanes::BINARY_WIDE_TEXTS,
        &lanes::SHIFT_IMM_TEXTS,
        &lanes::UNARY_TEXTS,
        &lanes::MUL_ADD_Z_TEXTS,
        &lanes::MUL_ADD_D_TEXTS,
        &lanes::PLAIN_TEXTS,
        &lanes::LOGIC_Z_TEXTS,
        &lanes::PLAIN_WIDE_TEXTS,
        &lanes::PLAIN_SHIFT_TEXTS,
        &lanes::INDEX_TEXTS,
        &lanes::PREFIX_P_TEXTS,
        &lanes::PREFIX_TEXTS,
        &lanes::DOT_TEXTS,
        &lanes::DOT_INDEXED_TEXTS,
        &folds::REDUCE_TEXTS,
        &folds::COUNT_TEXTS,
        &folds::INC_X_TEXTS,
        &folds::INC_Z_TEXTS,
        &folds::SAT_X_TEXTS,
        &folds::SAT_Z_TEXTS,
        &folds::ADD_LENGTH_TEXTS,
        &folds::READ_LENGTH_TEXTS,
    ]
}

/// The patterns of the lines of copies, selections and permutes.
fn move_lines() -> [&'static [Pattern]; 19]
    ensures { lines_of result ≡ move_texts }
{
    [
        &lanes::BITMASK_Z_TEXTS,
        &lanes::COPY_IMM_TEXTS,
        &lanes::SELECT_Z_TEXTS,
        &permutes::DUP_REG_TEXTS,
        &permutes::DUP_LANE_TEXTS,
        &permutes::INSERT_TEXTS,
        &permutes::REV_Z_TEXTS,
        &permutes::UNPACK_TEXTS,
        &permutes::TABLE_TEXTS,
        &permutes::INTERLEAVE_TEXTS,
        &permutes::INTERLEAVE_P_TEXTS,
        &permutes::UNPACK_P_TEXTS,
        &permutes::REV_P_TEXTS,
        &permutes::COMPACT_TEXTS,
        &permutes::SPLICE_TEXTS,
        &permutes::EXT_TEXTS,
        &permutes::COPY_REG_TEXTS,
        &permutes::LAST_TEXTS,
        &permutes::COND_LAST_TEXTS,
    ]
}

/// The patterns of the lines of comparisons and predicates, and of lanes with an immediate of 8 bits.
fn predicate_lines() -> [&'static [Pattern]; 25]
    ensures { lines_of result ≡ predicate_texts }
{
    [
        &predicates::CMP_VEC_TEXTS,
        &predicates::CMP_WIDE_TEXTS,
        &predicates::CMP_U_IMM_TEXTS,
        &predicates::CMP_S_IMM_TEXTS,
        &predicates::LOGIC_P_TEXTS,
        &predicates::SELECT_P_TEXTS,
        &predicates::BREAK_FIRST_TEXTS,
        &predicates::BREAK_PAIR_TEXTS,
        &predicates::BREAK_NEXT_TEXTS,
        &predicates::PTEST_TEXTS,
        &predicates::FIRST_TEXTS,
        &predicates::NEXT_TEXTS,
        &predicates::PTRUE_TEXTS,
        &predicates::PFALSE_TEXTS,
        &predicates::READ_FFR_TEXTS,
        &predicates::READ_FFR_ALL_TEXTS,
        &predicates::WRITE_FFR_TEXTS,
        &predicates::COUNT_P_TEXTS,
        &predicates::INC_P_TEXTS,
        &predicates::INC_P_Z_TEXTS,
        &predicates::WHILE_TEXTS,
        &predicates::CTERM_TEXTS,
        &lanes::WIDE_IMM_TEXTS,
        &lanes::MIN_MAX_IMM_TEXTS,
        &lanes::DUP_IMM_TEXTS,
    ]
}

/// The patterns of the line of this number, by the parts of the table; none behind the last.
fn line_numbered(number: u8) -> &'static [Pattern]
    ensures { patterns_of result.now ≡ get_or sve_lines number [] }
{
    if number < lines::BINARY {
        line_of(&memory_lines(), number)
    } else if number < lines::BITMASK_Z {
        line_of(&data_lines(), number - lines::BINARY)
    } else if number < lines::CMP_VEC {
        line_of(&move_lines(), number - lines::BITMASK_Z)
    } else {
        line_of(&predicate_lines(), number - lines::CMP_VEC)
    }
}

/// The texts of SVE instructions.
#[derive(Clone, Copy)]
pub struct SveTexts;

impl Table for SveTexts {
    ghost lines = { λ t. sve_lines };

    ghost in_table = { λ t. in_table };

    fn line(&self, number: u8) -> &'static [Pattern] {
        line_numbered(number)
    }

    fn spots(&self, name: &str) -> &'static [Spot] {
        names::spots(name)
    }

    fn holds(&self, word: u32) -> bool {
        decode_sve(word).is_some()
    }
}

/// A word's form has the patterns of the line that holds the word.
pub fn texts_of_lines()
    ensures { TextsOfLines }
{}

/// Reading is the inverse of showing: the items that a pattern shows of a word tell the word.
pub fn items_tell_their_words()
    ensures { AllTell sve_patterns }
{}

/// The text of each instruction, but for a bitmask whose rotation isn't the least, is read as the instruction.
pub fn printed_text_is_read()
    ensures { (f : SveForm) → IsRow (row_of f) → is_canonical_form f ≡ true → IsReadBack f }
{}

pub use statements::read_sve;
