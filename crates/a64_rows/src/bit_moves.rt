//! Words of bit moves, read and made.
ghost use Rattle.std.specs.Prelude.{◌≡◌};
ghost use Rattle.emu_bits.specs.Rows.{encode, row_in};
ghost use Rattle.emu_bits.specs.RowLaws.{IsShape};
ghost use Rattle.a64_insn.specs.declared.form.A64Form.TheVariants.{FMove, MoveImm};
ghost use Rattle.a64_insn.specs.BitMoves.{f_move, move_imm};
ghost use Rattle.a64_insn.specs.Rows.{row_of};
ghost use Rattle.a64_rows_memory.specs.Seen.{seen};

use a64_insn::bit_move_words::{f_move_op, f_move_word};
use a64_insn::{A64, A64Form, FMoveOp};
use emu_bits::{Reg, U, Word, flag};

/// The instruction of `FMove` that a word is.
#[tactic(auto, unfolding(a64_insn::specs::BitMoves::f_move))]
pub fn f_move(w: u32) -> Option<A64>
    ensures { seen result ≡ row_in f_move w }
{
    let op = f_move_op(w & 0xffff_fc00)?;
    A64::new(A64Form::FMove {
        op,
        rn: Reg::at(w, 5),
        rd: Reg::at(w, 0),
    })
}

/// The word of `FMove` with these fields.
#[tactic(auto, unfolding(a64_insn::specs::BitMoves::f_move))]
pub fn f_move_bits(op: FMoveOp, rn: Reg, rd: Reg) -> u32
    ensures table { result ≡ encode (row_of (FMove op rn rd)) }
    ensures shape { IsShape (row_of (FMove op rn rd)) }
{
    f_move_word(op).reg(rn, 5).reg(rd, 0).bits
}

/// The instruction of `MoveImm` that a word is.
#[tactic(auto, unfolding(a64_insn::specs::BitMoves::move_imm))]
pub fn move_imm(w: u32) -> Option<A64>
    ensures { seen result ≡ row_in move_imm w }
{
    if w & 0x9ff8_0c00 != 0x0f00_0400 {
        return None;
    }
    A64::new(A64Form::MoveImm {
        q: flag(w, 30),
        op: flag(w, 29),
        abc: U::at(w, 16),
        cmode: U::at(w, 12),
        defgh: U::at(w, 5),
        rd: Reg::at(w, 0),
    })
}

/// The word of `MoveImm` with these fields.
#[tactic(auto, unfolding(a64_insn::specs::BitMoves::move_imm))]
pub fn move_imm_bits(q: bool, op: bool, abc: U<3>, cmode: U<4>, defgh: U<5>, rd: Reg) -> u32
    ensures table { result ≡ encode (row_of (MoveImm q op abc cmode defgh rd)) }
    ensures shape { IsShape (row_of (MoveImm q op abc cmode defgh rd)) }
{
    Word { bits: 0x0f00_0400 }
        .flag(q, 30)
        .flag(op, 29)
        .number(abc, 16)
        .number(cmode, 12)
        .number(defgh, 5)
        .reg(rd, 0)
        .bits
}
