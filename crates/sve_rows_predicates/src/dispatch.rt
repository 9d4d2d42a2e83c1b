//! The instruction of a word: a line is chosen by bits that are outside of the fields of all lines left, and the lines
//! that these bits leave are tried in turn.
ghost use Rattle.std.specs.Prelude.{◌≡◌, [], ◌∷◌};
ghost use Rattle.emu_bits.specs.Rows.{decode};
ghost use Rattle.sve_insn.specs.Table.{predicate_lines};
ghost use Rattle.sve_insn.specs.Lanes.{wide_imm, min_max_imm, dup_imm};
ghost use Rattle.sve_insn.specs.Predicates.{
  cmp_vec,
  cmp_wide,
  cmp_u_imm,
  logic_p,
  select_p,
  break_first,
  break_next,
  first_active,
  next_active,
  ptrue,
  pfalse,
  read_ffr,
  read_ffr_all,
  write_ffr,
  count_p,
  inc_p,
  inc_p_z,
  while_compare,
  cterm,
};
ghost use Rattle.sve_rows_predicates.specs.Left.{
  predicates_and_immediates,
  signed_compares_and_predicates,
  pairs_and_single_predicates,
  single_predicates,
  counts_and_immediates,
};
ghost use Rattle.sve_insn.specs.Seen.{seen};

use crate::compares::{cmp_s_imm, cmp_u_imm, cmp_vec, cmp_wide, cterm, while_compare};
use crate::counts::{count_p, inc_p, inc_p_z};
use crate::immediates::{dup_imm, min_max_imm, wide_imm};
use crate::predicates::{
    break_first, break_next, break_pair, first_active, logic_p, next_active, pfalse, ptest, ptrue,
    read_ffr, read_ffr_all, select_p, write_ffr,
};
use emu_bits::bits;
use sve_insn::Sve;

/// The compare, operation on predicates, count of them or operation with an immediate that a word is, found by bit 24,
/// or none where the word is in no row of these lines.
#[inline(always)]
pub fn find_predicates(w: u32) -> Option<Sve>
    ensures { seen result ≡ decode predicate_lines w }
{
    match bits(w, 24, 24) {
        0b0 => words_of_vector_compares(w),
        _ => words_of_predicates_and_immediates(w),
    }
}

/// Compares of vectors, and with an unsigned immediate.
#[inline(always)]
fn words_of_vector_compares(w: u32) -> Option<Sve>
    ensures { seen result ≡ decode (cmp_vec ∷ cmp_wide ∷ cmp_u_imm ∷ []) w }
{
    if let Some(i) = cmp_vec(w) {
        return Some(i);
    }
    if let Some(i) = cmp_wide(w) {
        return Some(i);
    }
    cmp_u_imm(w)
}

/// Operations on predicates, counts of them, and operations with an immediate, by bit 21.
#[inline(always)]
fn words_of_predicates_and_immediates(w: u32) -> Option<Sve>
    ensures { seen result ≡ decode predicates_and_immediates w }
{
    match bits(w, 21, 21) {
        0b0 => words_of_predicates(w),
        _ => words_of_counts_and_immediates(w),
    }
}

/// Compares with a signed immediate, and operations on predicates, by bits 15 to 14.
#[inline(always)]
fn words_of_predicates(w: u32) -> Option<Sve>
    ensures { seen result ≡ decode signed_compares_and_predicates w }
{
    match bits(w, 15, 14) {
        0b00 => cmp_s_imm(w),
        0b01 => words_of_logic_and_breaks(w),
        0b10 => cmp_s_imm(w),
        _ => words_of_pairs_and_single_predicates(w),
    }
}

/// Logical operations and breaks.
#[inline(always)]
fn words_of_logic_and_breaks(w: u32) -> Option<Sve>
    ensures { seen result ≡ decode (logic_p ∷ select_p ∷ break_first ∷ break_next ∷ []) w }
{
    if let Some(i) = logic_p(w) {
        return Some(i);
    }
    if let Some(i) = select_p(w) {
        return Some(i);
    }
    if let Some(i) = break_first(w) {
        return Some(i);
    }
    break_next(w)
}

/// Breaks of pairs, and operations on one predicate, by bit 20.
#[inline(always)]
fn words_of_pairs_and_single_predicates(w: u32) -> Option<Sve>
    ensures { seen result ≡ decode pairs_and_single_predicates w }
{
    match bits(w, 20, 20) {
        0b0 => break_pair(w),
        _ => words_of_single_predicates(w),
    }
}

/// Operations on one predicate, by bits 19 to 16.
#[inline(always)]
fn words_of_single_predicates(w: u32) -> Option<Sve>
    ensures { seen result ≡ decode single_predicates w }
{
    match bits(w, 19, 16) {
        0b0000 => ptest(w),
        0b1000 => words_of_whole_predicates(w),
        0b1001 => words_of_next_and_flags(w),
        _ => None,
    }
}

/// The first active lane, constants, and FFR under a predicate.
#[inline(always)]
fn words_of_whole_predicates(w: u32) -> Option<Sve>
    ensures { seen result ≡ decode (first_active ∷ ptrue ∷ pfalse ∷ read_ffr ∷ []) w }
{
    if let Some(i) = first_active(w) {
        return Some(i);
    }
    if let Some(i) = ptrue(w) {
        return Some(i);
    }
    if let Some(i) = pfalse(w) {
        return Some(i);
    }
    read_ffr(w)
}

/// The next active lane, a constant with flags, and FFR whole.
#[inline(always)]
fn words_of_next_and_flags(w: u32) -> Option<Sve>
    ensures { seen result ≡ decode (next_active ∷ ptrue ∷ read_ffr_all ∷ []) w }
{
    if let Some(i) = next_active(w) {
        return Some(i);
    }
    if let Some(i) = ptrue(w) {
        return Some(i);
    }
    read_ffr_all(w)
}

/// Compares of general registers, counts of predicates, and operations with an immediate, by bits 15 to 14.
#[inline(always)]
fn words_of_counts_and_immediates(w: u32) -> Option<Sve>
    ensures { seen result ≡ decode counts_and_immediates w }
{
    match bits(w, 15, 14) {
        0b00 => words_of_register_compares(w),
        0b10 => words_of_predicate_counts(w),
        0b11 => words_of_immediates(w),
        _ => None,
    }
}

/// Compares of general registers.
#[inline(always)]
fn words_of_register_compares(w: u32) -> Option<Sve>
    ensures { seen result ≡ decode (while_compare ∷ cterm ∷ []) w }
{
    if let Some(i) = while_compare(w) {
        return Some(i);
    }
    cterm(w)
}

/// Writes of FFR, and counts of predicates.
#[inline(always)]
fn words_of_predicate_counts(w: u32) -> Option<Sve>
    ensures { seen result ≡ decode (write_ffr ∷ count_p ∷ inc_p ∷ inc_p_z ∷ []) w }
{
    if let Some(i) = write_ffr(w) {
        return Some(i);
    }
    if let Some(i) = count_p(w) {
        return Some(i);
    }
    if let Some(i) = inc_p(w) {
        return Some(i);
    }
    inc_p_z(w)
}

/// Operations with an immediate.
#[inline(always)]
fn words_of_immediates(w: u32) -> Option<Sve>
    ensures { seen result ≡ decode (wide_imm ∷ min_max_imm ∷ dup_imm ∷ []) w }
{
    if let Some(i) = wide_imm(w) {
        return Some(i);
    }
    if let Some(i) = min_max_imm(w) {
        return Some(i);
    }
    dup_imm(w)
}
