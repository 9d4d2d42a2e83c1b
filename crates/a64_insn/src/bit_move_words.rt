//! The names of bit moves with their base words, which have all fields 0.
ghost use Rattle.std.specs.Prelude.{◌≡◌, ◌<◌, Some, None, MatchOption, get_or, length};
ghost use Rattle.emu_bits.specs.Rows.{number_of};
ghost use Rattle.a64_insn.specs.BitMoves.{f_move};
ghost use Rattle.a64_insn.specs.Numbers.{f_move_number};

use crate::ops::FMoveOp;
use emu_bits::Word;

/// The name that has this base word in the line of `FMove`.
#[tactic(auto, unfolding(crate::specs::BitMoves::f_move))]
pub fn f_move_op(word: u32) -> Option<FMoveOp>
    ensures { MatchOption result (number_of word f_move.words ≡ None)
        (λ op. number_of word f_move.words ≡ Some (f_move_number op)) }
{
    match word {
        0x1e26_0000 => Some(FMoveOp::WdSn),
        0x1e27_0000 => Some(FMoveOp::SdWn),
        0x9e66_0000 => Some(FMoveOp::XdDn),
        0x9e67_0000 => Some(FMoveOp::DdXn),
        _ => None,
    }
}

/// A name's base word in the line of `FMove`.
#[tactic(auto, unfolding(crate::specs::BitMoves::f_move))]
pub fn f_move_word(op: FMoveOp) -> Word
    ensures bits { result.bits ≡ get_or f_move.words (f_move_number op) 0 }
    ensures numbered { f_move_number op < length f_move.words }
{
    let bits = match op {
        FMoveOp::WdSn => 0x1e26_0000,
        FMoveOp::SdWn => 0x1e27_0000,
        FMoveOp::XdDn => 0x9e66_0000,
        FMoveOp::DdXn => 0x9e67_0000,
    };
    Word { bits }
}
