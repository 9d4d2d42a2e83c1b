//! The instruction of a word: a line is chosen by bits that are outside of the fields of all lines left, and the lines
//! that these bits leave are tried in turn.
ghost use Rattle.std.specs.Prelude.{◌≡◌, [], ◌∷◌};
ghost use Rattle.emu_bits.specs.Rows.{decode};
ghost use Rattle.sve_insn.specs.Table.{data_lines};
ghost use Rattle.sve_insn.specs.Lanes.{
  binary,
  binary_wide,
  shift_imm,
  unary,
  mul_add_z,
  mul_add_d,
  plain,
  logic_z,
  plain_wide,
  plain_shift,
  index_z,
  prefix_p,
  prefix,
  dot,
  dot_indexed,
};
ghost use Rattle.sve_insn.specs.Folds.{reduce, count_elements, inc_x, inc_z, sat_x, sat_z, add_length, read_length};
ghost use Rattle.sve_insn.specs.Seen.{seen};

use crate::folds::{add_length, count_elements, inc_x, inc_z, read_length, reduce, sat_x, sat_z};
use crate::lanes::{
    binary, binary_wide, dot, dot_indexed, index_z, logic_z, mul_add_d, mul_add_z, plain,
    plain_shift, plain_wide, prefix, prefix_p, shift_imm, unary,
};
use emu_bits::bits;
use sve_insn::Sve;

/// The operation, fold or count that a word is, found by bits 15 to 13, or none where the word is in no row of these
/// lines.
#[inline(always)]
pub fn find_data(w: u32) -> Option<Sve>
    ensures { seen result ≡ decode data_lines w }
{
    match bits(w, 15, 13) {
        0b000 => words_of_operations_and_dots(w),
        0b001 => words_of_logic_copies_and_folds(w),
        0b010 => words_of_sums_series_and_lengths(w),
        0b011 => mul_add_z(w),
        0b100 => words_of_shifts(w),
        0b101 => words_of_one_source(w),
        0b110 => words_of_sums_and_lane_counts(w),
        _ => words_of_sums_and_register_counts(w),
    }
}

/// Arithmetic and logic of two vectors, and dot products.
#[inline(always)]
fn words_of_operations_and_dots(w: u32) -> Option<Sve>
    ensures { seen result ≡ decode (binary ∷ plain ∷ dot ∷ dot_indexed ∷ []) w }
{
    if let Some(i) = binary(w) {
        return Some(i);
    }
    if let Some(i) = plain(w) {
        return Some(i);
    }
    if let Some(i) = dot(w) {
        return Some(i);
    }
    dot_indexed(w)
}

/// Logical operations of whole registers, copies under a predicate, and folds.
#[inline(always)]
fn words_of_logic_copies_and_folds(w: u32) -> Option<Sve>
    ensures { seen result ≡ decode (logic_z ∷ prefix_p ∷ reduce ∷ []) w }
{
    if let Some(i) = logic_z(w) {
        return Some(i);
    }
    if let Some(i) = prefix_p(w) {
        return Some(i);
    }
    reduce(w)
}

/// Products with a sum, series of numbers, and vector lengths.
#[inline(always)]
fn words_of_sums_series_and_lengths(w: u32) -> Option<Sve>
    ensures { seen result ≡ decode (mul_add_z ∷ index_z ∷ add_length ∷ read_length ∷ []) w }
{
    if let Some(i) = mul_add_z(w) {
        return Some(i);
    }
    if let Some(i) = index_z(w) {
        return Some(i);
    }
    if let Some(i) = add_length(w) {
        return Some(i);
    }
    read_length(w)
}

/// Shifts. Reversals of parts of a lane have these bits too, with 05 in bits 31 to 24.
#[inline(always)]
fn words_of_shifts(w: u32) -> Option<Sve>
    ensures { seen result ≡ decode (binary ∷ binary_wide ∷ shift_imm ∷ unary ∷ plain_wide ∷ plain_shift ∷ []) w }
{
    if let Some(i) = binary(w) {
        return Some(i);
    }
    if let Some(i) = binary_wide(w) {
        return Some(i);
    }
    if let Some(i) = shift_imm(w) {
        return Some(i);
    }
    if let Some(i) = unary(w) {
        return Some(i);
    }
    if let Some(i) = plain_wide(w) {
        return Some(i);
    }
    plain_shift(w)
}

/// Operations on one vector.
#[inline(always)]
fn words_of_one_source(w: u32) -> Option<Sve>
    ensures { seen result ≡ decode (unary ∷ prefix ∷ []) w }
{
    if let Some(i) = unary(w) {
        return Some(i);
    }
    prefix(w)
}

/// Products with a sum, and counts added to each lane.
#[inline(always)]
fn words_of_sums_and_lane_counts(w: u32) -> Option<Sve>
    ensures { seen result ≡ decode (mul_add_d ∷ inc_z ∷ sat_z ∷ []) w }
{
    if let Some(i) = mul_add_d(w) {
        return Some(i);
    }
    if let Some(i) = inc_z(w) {
        return Some(i);
    }
    sat_z(w)
}

/// Products with a sum, and counts in general registers.
#[inline(always)]
fn words_of_sums_and_register_counts(w: u32) -> Option<Sve>
    ensures { seen result ≡ decode (mul_add_d ∷ count_elements ∷ inc_x ∷ sat_x ∷ []) w }
{
    if let Some(i) = mul_add_d(w) {
        return Some(i);
    }
    if let Some(i) = count_elements(w) {
        return Some(i);
    }
    if let Some(i) = inc_x(w) {
        return Some(i);
    }
    sat_x(w)
}
