//! The names of loads and stores of several registers with their base words, which have all fields 0.
ghost use Rattle.std.specs.Prelude.{◌≡◌, ◌<◌, Some, None, MatchOption, get_or, length};
ghost use Rattle.emu_bits.specs.Rows.{number_of};
ghost use Rattle.sve_insn.specs.Memory.{load_many_imm, load_many_reg, store_many_imm, store_many_reg};
ghost use Rattle.sve_insn.specs.Numbers.{load_many_number, store_many_number};

use crate::ops::{LoadManyOp, StoreManyOp};
use emu_bits::Word;

/// The name that has this base word in the line of `LoadManyImm`.
#[tactic(auto, unfolding(crate::specs::Memory::load_many_imm))]
pub fn load_many_imm_op(word: u32) -> Option<LoadManyOp>
    ensures { MatchOption result (number_of word load_many_imm.words ≡ None)
        (λ op. number_of word load_many_imm.words ≡ Some (load_many_number op)) }
{
    match word {
        0xa420_e000 => Some(LoadManyOp::Ld2),
        0xa440_e000 => Some(LoadManyOp::Ld3),
        0xa460_e000 => Some(LoadManyOp::Ld4),
        _ => None,
    }
}

/// A name's base word in the line of `LoadManyImm`.
#[tactic(auto, unfolding(crate::specs::Memory::load_many_imm))]
pub fn load_many_imm_word(op: LoadManyOp) -> Word
    ensures bits { result.bits ≡ get_or load_many_imm.words (load_many_number op) 0 }
    ensures numbered { load_many_number op < length load_many_imm.words }
{
    let bits = match op {
        LoadManyOp::Ld2 => 0xa420_e000,
        LoadManyOp::Ld3 => 0xa440_e000,
        LoadManyOp::Ld4 => 0xa460_e000,
    };
    Word { bits }
}

/// The name that has this base word in the line of `LoadManyReg`.
#[tactic(auto, unfolding(crate::specs::Memory::load_many_reg))]
pub fn load_many_reg_op(word: u32) -> Option<LoadManyOp>
    ensures { MatchOption result (number_of word load_many_reg.words ≡ None)
        (λ op. number_of word load_many_reg.words ≡ Some (load_many_number op)) }
{
    match word {
        0xa420_c000 => Some(LoadManyOp::Ld2),
        0xa440_c000 => Some(LoadManyOp::Ld3),
        0xa460_c000 => Some(LoadManyOp::Ld4),
        _ => None,
    }
}

/// A name's base word in the line of `LoadManyReg`.
#[tactic(auto, unfolding(crate::specs::Memory::load_many_reg))]
pub fn load_many_reg_word(op: LoadManyOp) -> Word
    ensures bits { result.bits ≡ get_or load_many_reg.words (load_many_number op) 0 }
    ensures numbered { load_many_number op < length load_many_reg.words }
{
    let bits = match op {
        LoadManyOp::Ld2 => 0xa420_c000,
        LoadManyOp::Ld3 => 0xa440_c000,
        LoadManyOp::Ld4 => 0xa460_c000,
    };
    Word { bits }
}

/// The name that has this base word in the line of `StoreManyImm`.
#[tactic(auto, unfolding(crate::specs::Memory::store_many_imm))]
pub fn store_many_imm_op(word: u32) -> Option<StoreManyOp>
    ensures { MatchOption result (number_of word store_many_imm.words ≡ None)
        (λ op. number_of word store_many_imm.words ≡ Some (store_many_number op)) }
{
    match word {
        0xe430_e000 => Some(StoreManyOp::St2),
        0xe450_e000 => Some(StoreManyOp::St3),
        0xe470_e000 => Some(StoreManyOp::St4),
        _ => None,
    }
}

/// A name's base word in the line of `StoreManyImm`.
#[tactic(auto, unfolding(crate::specs::Memory::store_many_imm))]
pub fn store_many_imm_word(op: StoreManyOp) -> Word
    ensures bits { result.bits ≡ get_or store_many_imm.words (store_many_number op) 0 }
    ensures numbered { store_many_number op < length store_many_imm.words }
{
    let bits = match op {
        StoreManyOp::St2 => 0xe430_e000,
        StoreManyOp::St3 => 0xe450_e000,
        StoreManyOp::St4 => 0xe470_e000,
    };
    Word { bits }
}

/// The name that has this base word in the line of `StoreManyReg`.
#[tactic(auto, unfolding(crate::specs::Memory::store_many_reg))]
pub fn store_many_reg_op(word: u32) -> Option<StoreManyOp>
    ensures { MatchOption result (number_of word store_many_reg.words ≡ None)
        (λ op. number_of word store_many_reg.words ≡ Some (store_many_number op)) }
{
    match word {
        0xe420_6000 => Some(StoreManyOp::St2),
        0xe440_6000 => Some(StoreManyOp::St3),
        0xe460_6000 => Some(StoreManyOp::St4),
        _ => None,
    }
}

/// A name's base word in the line of `StoreManyReg`.
#[tactic(auto, unfolding(crate::specs::Memory::store_many_reg))]
pub fn store_many_reg_word(op: StoreManyOp) -> Word
    ensures bits { result.bits ≡ get_or store_many_reg.words (store_many_number op) 0 }
    ensures numbered { store_many_number op < length store_many_reg.words }
{
    let bits = match op {
        StoreManyOp::St2 => 0xe420_6000,
        StoreManyOp::St3 => 0xe440_6000,
        StoreManyOp::St4 => 0xe460_6000,
    };
    Word { bits }
}
