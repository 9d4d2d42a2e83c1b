//! The names of exclusive, ordered and atomic loads and stores with their base words, which have all fields 0.
ghost use Rattle.std.specs.Prelude.{◌≡◌, ◌<◌, Some, None, MatchOption, get_or, length};
ghost use Rattle.emu_bits.specs.Rows.{number_of};
ghost use Rattle.a64_insn.specs.Memory.{store_ex, load_ex, ordered, atomic};
ghost use Rattle.a64_insn.specs.Numbers.{atomic_number, load_ex_number, ordered_number, store_ex_number};

use crate::ops::{AtomicOp, LoadExOp, OrderedOp, StoreExOp};
use emu_bits::Word;

/// The name that has this base word in the line of `StoreEx`.
#[tactic(auto, unfolding(crate::specs::Memory::store_ex))]
pub fn store_ex_op(word: u32) -> Option<StoreExOp>
    ensures { MatchOption result (number_of word store_ex.words ≡ None)
        (λ op. number_of word store_ex.words ≡ Some (store_ex_number op)) }
{
    match word {
        0x0800_7c00 => Some(StoreExOp::Stxr),
        0x0800_fc00 => Some(StoreExOp::Stlxr),
        _ => None,
    }
}

/// A name's base word in the line of `StoreEx`.
#[tactic(auto, unfolding(crate::specs::Memory::store_ex))]
pub fn store_ex_word(op: StoreExOp) -> Word
    ensures bits { result.bits ≡ get_or store_ex.words (store_ex_number op) 0 }
    ensures numbered { store_ex_number op < length store_ex.words }
{
    let bits = match op {
        StoreExOp::Stxr => 0x0800_7c00,
        StoreExOp::Stlxr => 0x0800_fc00,
    };
    Word { bits }
}

/// The name that has this base word in the line of `LoadEx`.
#[tactic(auto, unfolding(crate::specs::Memory::load_ex))]
pub fn load_ex_op(word: u32) -> Option<LoadExOp>
    ensures { MatchOption result (number_of word load_ex.words ≡ None)
        (λ op. number_of word load_ex.words ≡ Some (load_ex_number op)) }
{
    match word {
        0x085f_7c00 => Some(LoadExOp::Ldxr),
        0x085f_fc00 => Some(LoadExOp::Ldaxr),
        _ => None,
    }
}

/// A name's base word in the line of `LoadEx`.
#[tactic(auto, unfolding(crate::specs::Memory::load_ex))]
pub fn load_ex_word(op: LoadExOp) -> Word
    ensures bits { result.bits ≡ get_or load_ex.words (load_ex_number op) 0 }
    ensures numbered { load_ex_number op < length load_ex.words }
{
    let bits = match op {
        LoadExOp::Ldxr => 0x085f_7c00,
        LoadExOp::Ldaxr => 0x085f_fc00,
    };
    Word { bits }
}

/// The name that has this base word in the line of `Ordered`.
#[tactic(auto, unfolding(crate::specs::Memory::ordered))]
pub fn ordered_op(word: u32) -> Option<OrderedOp>
    ensures { MatchOption result (number_of word ordered.words ≡ None)
        (λ op. number_of word ordered.words ≡ Some (ordered_number op)) }
{
    match word {
        0x089f_fc00 => Some(OrderedOp::Stlr),
        0x08df_fc00 => Some(OrderedOp::Ldar),
        _ => None,
    }
}

/// A name's base word in the line of `Ordered`.
#[tactic(auto, unfolding(crate::specs::Memory::ordered))]
pub fn ordered_word(op: OrderedOp) -> Word
    ensures bits { result.bits ≡ get_or ordered.words (ordered_number op) 0 }
    ensures numbered { ordered_number op < length ordered.words }
{
    let bits = match op {
        OrderedOp::Stlr => 0x089f_fc00,
        OrderedOp::Ldar => 0x08df_fc00,
    };
    Word { bits }
}

/// The name that has this base word in the line of `Atomic`.
#[tactic(auto, unfolding(crate::specs::Memory::atomic))]
pub fn atomic_op(word: u32) -> Option<AtomicOp>
    ensures { MatchOption result (number_of word atomic.words ≡ None)
        (λ op. number_of word atomic.words ≡ Some (atomic_number op)) }
{
    match word {
        0x3820_0000 => Some(AtomicOp::Ldadd),
        0x3820_1000 => Some(AtomicOp::Ldclr),
        0x3820_2000 => Some(AtomicOp::Ldeor),
        0x3820_3000 => Some(AtomicOp::Ldset),
        0x3820_4000 => Some(AtomicOp::Ldsmax),
        0x3820_5000 => Some(AtomicOp::Ldsmin),
        0x3820_6000 => Some(AtomicOp::Ldumax),
        0x3820_7000 => Some(AtomicOp::Ldumin),
        0x3820_8000 => Some(AtomicOp::Swp),
        _ => None,
    }
}

/// A name's base word in the line of `Atomic`.
#[tactic(auto, unfolding(crate::specs::Memory::atomic))]
pub fn atomic_word(op: AtomicOp) -> Word
    ensures bits { result.bits ≡ get_or atomic.words (atomic_number op) 0 }
    ensures numbered { atomic_number op < length atomic.words }
{
    let bits = match op {
        AtomicOp::Ldadd => 0x3820_0000,
        AtomicOp::Ldclr => 0x3820_1000,
        AtomicOp::Ldeor => 0x3820_2000,
        AtomicOp::Ldset => 0x3820_3000,
        AtomicOp::Ldsmax => 0x3820_4000,
        AtomicOp::Ldsmin => 0x3820_5000,
        AtomicOp::Ldumax => 0x3820_6000,
        AtomicOp::Ldumin => 0x3820_7000,
        AtomicOp::Swp => 0x3820_8000,
    };
    Word { bits }
}
