//! The instruction of a word: a line is chosen by bits that are outside of the fields of all lines left, and the lines
//! that these bits leave are tried in turn.
//!
//! `Site` names the place of the call. Each place has these functions for itself, so that the compiler can take them
//! into their caller where it is the only one.
ghost use Rattle.std.specs.Prelude.{◌≡◌, [], ◌∷◌};
ghost use Rattle.emu_bits.specs.Rows.{decode};
ghost use Rattle.a64_insn.specs.Table.{a64_table};
ghost use Rattle.a64_insn.specs.Data.{
  logic_imm,
  move_wide,
  bitfield,
  extract,
  add_reg,
  add_ext,
  cond_reg,
  cond_imm,
  mul_add,
  mul_long,
  mul_high,
  two_source,
  one_source,
  rev,
};
ghost use Rattle.a64_insn.specs.Flow.{
  branch,
  branch_cond,
  branch_reg,
  compare,
  test_branch,
  except,
  hint,
  barrier,
  read_sys,
  write_sys,
};
ghost use Rattle.a64_insn.specs.Memory.{
  ls_unscaled,
  ls_post,
  ls_pre,
  ls_reg,
  ls_literal,
  pair,
  store_ex,
  load_ex,
  ordered,
  atomic,
  compare_swap,
};
ghost use Rattle.a64_rows.specs.Left.{lines_11_10};
ghost use Rattle.a64_rows_memory.specs.Seen.{seen};

use crate::bit_moves::{f_move, move_imm};
use crate::data::{
    add_carry, add_ext, add_imm, add_reg, adr, bitfield, cond_imm, cond_reg, extract, logic_imm,
    logic_reg, move_wide, mul_add, mul_high, mul_long, one_source, rev, select, two_source,
};
use crate::flow::{
    barrier, branch, branch_cond, branch_reg, compare, except, hint, read_sys, test_branch,
    write_sys,
};
use a64_insn::A64;
use a64_rows_memory::loads_and_stores::{
    atomic, compare_swap, load_ex, ls_literal, ls_post, ls_pre, ls_reg, ls_unscaled, ls_unsigned,
    ordered, pair, store_ex,
};
use emu_bits::bits;

/// The instruction of a word, found by bits 28 to 24.
pub fn find<Site>(w: u32) -> Option<A64>
    ensures { seen result ≡ decode a64_table w }
{
    match bits(w, 28, 24) {
        0b01000 | 0b01100 => words_of_pairs_and_exclusives::<Site>(w),
        0b01001 | 0b01101 => pair(w),
        0b01010 => logic_reg(w),
        0b01011 => words_of_register_sums::<Site>(w),
        0b01110 => None,
        0b01111 => move_imm(w),
        0b10000 => adr(w),
        0b10001 => add_imm(w),
        0b10010 => words_of_logic_and_moves::<Site>(w),
        0b10011 => words_of_bitfields::<Site>(w),
        0b10100 => words_10100::<Site>(w),
        0b10101 => words_10101::<Site>(w),
        0b10110 => words_10110::<Site>(w),
        0b10111 => words_10111::<Site>(w),
        0b11000 | 0b11100 => words_of_accesses::<Site>(w),
        0b11001 | 0b11101 => ls_unsigned(w),
        0b11010 | 0b11110 => words_11_10::<Site>(w),
        0b11011 => words_of_products::<Site>(w),
        0b11111 => None,
        _ => None,
    }
}

fn words_of_pairs_and_exclusives<Site>(w: u32) -> Option<A64>
    ensures { seen result ≡ decode (pair ∷ store_ex ∷ load_ex ∷ ordered ∷ compare_swap ∷ []) w }
{
    if let Some(i) = pair(w) {
        return Some(i);
    }
    if let Some(i) = store_ex(w) {
        return Some(i);
    }
    if let Some(i) = load_ex(w) {
        return Some(i);
    }
    if let Some(i) = ordered(w) {
        return Some(i);
    }
    compare_swap(w)
}

fn words_of_register_sums<Site>(w: u32) -> Option<A64>
    ensures { seen result ≡ decode (add_reg ∷ add_ext ∷ []) w }
{
    if let Some(i) = add_reg(w) {
        return Some(i);
    }
    add_ext(w)
}

fn words_of_logic_and_moves<Site>(w: u32) -> Option<A64>
    ensures { seen result ≡ decode (logic_imm ∷ move_wide ∷ []) w }
{
    if let Some(i) = logic_imm(w) {
        return Some(i);
    }
    move_wide(w)
}

fn words_of_bitfields<Site>(w: u32) -> Option<A64>
    ensures { seen result ≡ decode (bitfield ∷ extract ∷ []) w }
{
    if let Some(i) = bitfield(w) {
        return Some(i);
    }
    extract(w)
}

/// Branches and system where bits 28 to 24 are 10100, by bits 30 to 29.
fn words_10100<Site>(w: u32) -> Option<A64>
    ensures { seen result ≡ decode (branch ∷ branch_cond ∷ compare ∷ except ∷ []) w }
{
    match bits(w, 30, 29) {
        0b00 => branch(w),
        0b01 => compare(w),
        0b10 => words_of_exceptions::<Site>(w),
        _ => None,
    }
}

/// Branches and system where bits 28 to 24 are 10101, by bits 30 to 29.
fn words_10101<Site>(w: u32) -> Option<A64>
    ensures { seen result ≡ decode (branch ∷ compare ∷ hint ∷ barrier ∷ read_sys ∷ write_sys ∷ []) w }
{
    match bits(w, 30, 29) {
        0b00 => branch(w),
        0b01 => compare(w),
        0b10 => words_of_system::<Site>(w),
        _ => None,
    }
}

/// Branches and system where bits 28 to 24 are 10110, by bits 30 to 29.
fn words_10110<Site>(w: u32) -> Option<A64>
    ensures { seen result ≡ decode (branch ∷ test_branch ∷ branch_reg ∷ []) w }
{
    match bits(w, 30, 29) {
        0b00 => branch(w),
        0b01 => test_branch(w),
        0b10 => branch_reg(w),
        _ => None,
    }
}

/// Branches and system where bits 28 to 24 are 10111, by bits 30 to 29.
fn words_10111<Site>(w: u32) -> Option<A64>
    ensures { seen result ≡ decode (branch ∷ test_branch ∷ []) w }
{
    match bits(w, 30, 29) {
        0b00 => branch(w),
        0b01 => test_branch(w),
        _ => None,
    }
}

fn words_of_exceptions<Site>(w: u32) -> Option<A64>
    ensures { seen result ≡ decode (branch_cond ∷ except ∷ []) w }
{
    if let Some(i) = branch_cond(w) {
        return Some(i);
    }
    except(w)
}

fn words_of_system<Site>(w: u32) -> Option<A64>
    ensures { seen result ≡ decode (hint ∷ barrier ∷ read_sys ∷ write_sys ∷ []) w }
{
    if let Some(i) = hint(w) {
        return Some(i);
    }
    if let Some(i) = barrier(w) {
        return Some(i);
    }
    if let Some(i) = read_sys(w) {
        return Some(i);
    }
    write_sys(w)
}

fn words_of_accesses<Site>(w: u32) -> Option<A64>
    ensures { seen result ≡ decode (ls_unscaled ∷ ls_post ∷ ls_pre ∷ ls_reg ∷ ls_literal ∷ atomic ∷ []) w }
{
    if let Some(i) = ls_unscaled(w) {
        return Some(i);
    }
    if let Some(i) = ls_post(w) {
        return Some(i);
    }
    if let Some(i) = ls_pre(w) {
        return Some(i);
    }
    if let Some(i) = ls_reg(w) {
        return Some(i);
    }
    if let Some(i) = ls_literal(w) {
        return Some(i);
    }
    atomic(w)
}

/// Carries, conditions, one and two sources, and moves between register files, by bits 23 to 21.
fn words_11_10<Site>(w: u32) -> Option<A64>
    ensures { seen result ≡ decode lines_11_10 w }
{
    match bits(w, 23, 21) {
        0b000 => add_carry(w),
        0b001 => f_move(w),
        0b010 => words_of_comparisons::<Site>(w),
        0b011 => f_move(w),
        0b100 => select(w),
        0b110 => words_of_sources::<Site>(w),
        _ => None,
    }
}

fn words_of_comparisons<Site>(w: u32) -> Option<A64>
    ensures { seen result ≡ decode (cond_reg ∷ cond_imm ∷ []) w }
{
    if let Some(i) = cond_reg(w) {
        return Some(i);
    }
    cond_imm(w)
}

fn words_of_sources<Site>(w: u32) -> Option<A64>
    ensures { seen result ≡ decode (two_source ∷ one_source ∷ rev ∷ []) w }
{
    if let Some(i) = two_source(w) {
        return Some(i);
    }
    if let Some(i) = one_source(w) {
        return Some(i);
    }
    rev(w)
}

fn words_of_products<Site>(w: u32) -> Option<A64>
    ensures { seen result ≡ decode (mul_add ∷ mul_long ∷ mul_high ∷ []) w }
{
    if let Some(i) = mul_add(w) {
        return Some(i);
    }
    if let Some(i) = mul_long(w) {
        return Some(i);
    }
    mul_high(w)
}
