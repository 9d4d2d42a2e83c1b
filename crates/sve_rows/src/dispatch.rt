//! The instruction of a word: bits that are outside of the fields of all lines left choose the group of lines that may
//! hold it.
ghost use Rattle.std.specs.Prelude.{◌≡◌, ◌∷◌};
ghost use Rattle.emu_bits.specs.Rows.{decode};
ghost use Rattle.sve_insn.specs.Table.{sve_table, move_lines};
ghost use Rattle.sve_insn.specs.Lanes.{unary};
ghost use Rattle.sve_insn.specs.Seen.{seen};
ghost use Rattle.sve_rows.specs.Left.{register_lines};

use crate::moves::find_moves;
use emu_bits::bits;
use sve_insn::Sve;
use sve_rows_data::{find_data, unary};
use sve_rows_memory::find_memory;
use sve_rows_predicates::find_predicates;

/// The instruction of a word, found by bit 31.
#[inline(always)]
pub fn find(w: u32) -> Option<Sve>
    ensures { seen result ≡ decode sve_table w }
{
    match bits(w, 31, 31) {
        0b1 => find_memory(w),
        _ => words_of_registers(w),
    }
}

/// All but loads and stores, by bits 31 to 24.
#[inline(always)]
fn words_of_registers(w: u32) -> Option<Sve>
    ensures { seen result ≡ decode register_lines w }
{
    match bits(w, 31, 24) {
        0x04 => find_data(w),
        0x05 => words_of_reversals_and_moves(w),
        0x24 => find_predicates(w),
        0x25 => find_predicates(w),
        0x44 => find_data(w),
        _ => None,
    }
}

/// Reversals of parts of a lane, which are of the data lines, and the moves.
#[inline(always)]
fn words_of_reversals_and_moves(w: u32) -> Option<Sve>
    ensures { seen result ≡ decode (unary ∷ move_lines) w }
{
    if let Some(i) = unary(w) {
        return Some(i);
    }
    find_moves(w)
}
