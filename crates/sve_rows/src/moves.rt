//! The move that a word is: a line is chosen by bits that are outside of the fields of all lines left, and the lines
//! that these bits leave are tried in turn.
ghost use Rattle.std.specs.Prelude.{◌≡◌, [], ◌∷◌};
ghost use Rattle.emu_bits.specs.Rows.{decode};
ghost use Rattle.sve_insn.specs.Table.{move_lines};
ghost use Rattle.sve_insn.specs.Lanes.{bitmask_z, copy_imm};
ghost use Rattle.sve_insn.specs.Folds.{
  dup_reg,
  dup_lane,
  insert_scalar,
  rev_z,
  unpack,
  table_lookup,
  interleave,
  interleave_p,
  unpack_p,
  rev_p,
  compact,
  splice,
  copy_reg,
  last_active,
  cond_last,
};
ghost use Rattle.sve_rows.specs.MovesLeft.{permutes_and_selections, lane_moves};
ghost use Rattle.sve_insn.specs.Seen.{seen};

use crate::immediates::{bitmask_z, copy_imm};
use crate::permutes::{
    compact, cond_last, copy_reg, dup_lane, dup_reg, ext, insert_scalar, interleave, interleave_p,
    last_active, rev_p, rev_z, select_z, splice, table_lookup, unpack, unpack_p,
};
use emu_bits::bits;
use sve_insn::Sve;

/// The immediate, permute or selection that a word is, found by bit 21, or none where the word is in no row of these
/// lines.
#[inline(always)]
pub fn find_moves(w: u32) -> Option<Sve>
    ensures { seen result ≡ decode move_lines w }
{
    match bits(w, 21, 21) {
        0b0 => words_of_immediates(w),
        _ => words_of_permutes(w),
    }
}

/// Bitmask immediates, and immediates that are copied under a predicate.
#[inline(always)]
fn words_of_immediates(w: u32) -> Option<Sve>
    ensures { seen result ≡ decode (bitmask_z ∷ copy_imm ∷ []) w }
{
    if let Some(i) = bitmask_z(w) {
        return Some(i);
    }
    copy_imm(w)
}

/// Permutes and selections, by bits 15 to 14.
#[inline(always)]
fn words_of_permutes(w: u32) -> Option<Sve>
    ensures { seen result ≡ decode permutes_and_selections w }
{
    match bits(w, 15, 14) {
        0b00 => words_of_lane_moves(w),
        0b01 => words_of_interleavings(w),
        0b10 => words_of_active_lanes(w),
        _ => select_z(w),
    }
}

/// Moves of lanes without a predicate, by bit 13.
#[inline(always)]
fn words_of_lane_moves(w: u32) -> Option<Sve>
    ensures { seen result ≡ decode lane_moves w }
{
    match bits(w, 13, 13) {
        0b0 => ext(w),
        _ => words_of_lane_moves_and_duplicates(w),
    }
}

/// Duplicates, an insertion, reversals, unpacking and look-ups.
#[inline(always)]
fn words_of_lane_moves_and_duplicates(w: u32) -> Option<Sve>
    ensures { seen result ≡ decode (dup_reg ∷ dup_lane ∷ insert_scalar ∷ rev_z ∷ unpack ∷ table_lookup ∷ []) w }
{
    if let Some(i) = dup_reg(w) {
        return Some(i);
    }
    if let Some(i) = dup_lane(w) {
        return Some(i);
    }
    if let Some(i) = insert_scalar(w) {
        return Some(i);
    }
    if let Some(i) = rev_z(w) {
        return Some(i);
    }
    if let Some(i) = unpack(w) {
        return Some(i);
    }
    table_lookup(w)
}

/// Interleavings, and moves within predicates.
#[inline(always)]
fn words_of_interleavings(w: u32) -> Option<Sve>
    ensures { seen result ≡ decode (interleave ∷ interleave_p ∷ unpack_p ∷ rev_p ∷ []) w }
{
    if let Some(i) = interleave(w) {
        return Some(i);
    }
    if let Some(i) = interleave_p(w) {
        return Some(i);
    }
    if let Some(i) = unpack_p(w) {
        return Some(i);
    }
    rev_p(w)
}

/// Moves of the lanes that a predicate selects.
#[inline(always)]
fn words_of_active_lanes(w: u32) -> Option<Sve>
    ensures { seen result ≡ decode (compact ∷ splice ∷ copy_reg ∷ last_active ∷ cond_last ∷ []) w }
{
    if let Some(i) = compact(w) {
        return Some(i);
    }
    if let Some(i) = splice(w) {
        return Some(i);
    }
    if let Some(i) = copy_reg(w) {
        return Some(i);
    }
    if let Some(i) = last_active(w) {
        return Some(i);
    }
    cond_last(w)
}
