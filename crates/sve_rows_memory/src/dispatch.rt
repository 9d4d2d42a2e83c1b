//! The instruction of a word: a line is chosen by bits that are outside of the fields of all lines left, and the lines
//! that these bits leave are tried in turn.
ghost use Rattle.std.specs.Prelude.{◌≡◌, [], ◌∷◌};
ghost use Rattle.emu_bits.specs.Rows.{decode};
ghost use Rattle.sve_insn.specs.Table.{memory_lines};
ghost use Rattle.sve_insn.specs.Memory.{
  load_z,
  load_p,
  store_z,
  gather_sx,
  gather_sx_scaled,
  store_reg,
  load_imm,
  load_nf,
  load_nt_imm,
  load_nt_reg,
  load_many_imm,
  load_many_reg,
  load_one,
  store_imm,
  store_nt_imm,
  store_nt_reg,
  store_many_imm,
  store_many_reg,
  store_p,
  gather_dx,
  gather_dx_scaled,
  gather_d,
  gather_d_scaled,
  gather_sv,
  gather_dv,
  scatter_sx,
  scatter_sx_scaled,
  scatter_dx,
  scatter_dx_scaled,
  scatter_d,
  scatter_d_scaled,
  scatter_sv,
  scatter_dv,
};
ghost use Rattle.sve_rows_memory.specs.Left.{
  contiguous_loads,
  all_stores,
  scatters_and_immediate_stores,
  plain_scatters_and_immediate_stores,
};
ghost use Rattle.sve_insn.specs.Seen.{seen};

use crate::gathers::{
    gather_d, gather_d_scaled, gather_dv, gather_dx, gather_dx_scaled, gather_sv, gather_sx,
    gather_sx_scaled,
};
use crate::loads::{
    load_ff, load_imm, load_many_imm, load_many_reg, load_nf, load_nt_imm, load_nt_reg, load_one,
    load_p, load_quad_imm, load_quad_reg, load_reg, load_z,
};
use crate::scatters::{
    scatter_d, scatter_d_scaled, scatter_dv, scatter_dx, scatter_dx_scaled, scatter_sv, scatter_sx,
    scatter_sx_scaled,
};
use crate::stores::{
    store_imm, store_many_imm, store_many_reg, store_nt_imm, store_nt_reg, store_p, store_reg,
    store_z,
};
use emu_bits::bits;
use sve_insn::Sve;

/// The load or store that a word is, found by bits 30 to 29, or none where the word is in no row of a load or store.
#[inline(always)]
pub fn find_memory(w: u32) -> Option<Sve>
    ensures { seen result ≡ decode memory_lines w }
{
    match bits(w, 30, 29) {
        0b00 => words_of_whole_loads_and_s_gathers(w),
        0b01 => words_of_contiguous_loads(w),
        0b10 => words_of_d_gathers(w),
        _ => words_of_stores(w),
    }
}

/// Loads of whole registers, gathers of S lanes, and a load of one element to all lanes.
#[inline(always)]
fn words_of_whole_loads_and_s_gathers(w: u32) -> Option<Sve>
    ensures { seen result ≡ decode (load_z ∷ load_p ∷ gather_sx ∷ gather_sx_scaled ∷ load_one ∷ gather_sv ∷ []) w }
{
    if let Some(i) = load_z(w) {
        return Some(i);
    }
    if let Some(i) = load_p(w) {
        return Some(i);
    }
    if let Some(i) = gather_sx(w) {
        return Some(i);
    }
    if let Some(i) = gather_sx_scaled(w) {
        return Some(i);
    }
    if let Some(i) = load_one(w) {
        return Some(i);
    }
    gather_sv(w)
}

/// Contiguous loads, by bits 15 to 13.
#[inline(always)]
fn words_of_contiguous_loads(w: u32) -> Option<Sve>
    ensures { seen result ≡ decode contiguous_loads w }
{
    match bits(w, 15, 13) {
        0b000 => load_quad_reg(w),
        0b001 => load_quad_imm(w),
        0b010 => load_reg(w),
        0b011 => load_ff(w),
        0b101 => words_of_typed_loads(w),
        _ => words_of_sized_loads(w),
    }
}

/// Loads at an immediate offset, with lanes that may be wider than their elements.
#[inline(always)]
fn words_of_typed_loads(w: u32) -> Option<Sve>
    ensures { seen result ≡ decode (load_imm ∷ load_nf ∷ []) w }
{
    if let Some(i) = load_imm(w) {
        return Some(i);
    }
    load_nf(w)
}

/// Non-temporal loads, and loads to several registers: their lanes are as wide as their elements.
#[inline(always)]
fn words_of_sized_loads(w: u32) -> Option<Sve>
    ensures { seen result ≡ decode (load_nt_imm ∷ load_nt_reg ∷ load_many_imm ∷ load_many_reg ∷ []) w }
{
    if let Some(i) = load_nt_imm(w) {
        return Some(i);
    }
    if let Some(i) = load_nt_reg(w) {
        return Some(i);
    }
    if let Some(i) = load_many_imm(w) {
        return Some(i);
    }
    load_many_reg(w)
}

/// Gathers of D lanes.
#[inline(always)]
fn words_of_d_gathers(w: u32) -> Option<Sve>
    ensures { seen result ≡ decode (gather_dx ∷ gather_dx_scaled ∷ gather_d ∷ gather_d_scaled ∷ gather_dv ∷ []) w }
{
    if let Some(i) = gather_dx(w) {
        return Some(i);
    }
    if let Some(i) = gather_dx_scaled(w) {
        return Some(i);
    }
    if let Some(i) = gather_d(w) {
        return Some(i);
    }
    if let Some(i) = gather_d_scaled(w) {
        return Some(i);
    }
    gather_dv(w)
}

/// Stores, by bit 15.
#[inline(always)]
fn words_of_stores(w: u32) -> Option<Sve>
    ensures { seen result ≡ decode all_stores w }
{
    match bits(w, 15, 15) {
        0b0 => words_of_stores_by_register(w),
        _ => words_of_scatters_and_immediate_stores(w),
    }
}

/// Stores of whole registers, and at a register offset.
#[inline(always)]
fn words_of_stores_by_register(w: u32) -> Option<Sve>
    ensures { seen result ≡ decode (store_z ∷ store_reg ∷ store_nt_reg ∷ store_many_reg ∷ store_p ∷ []) w }
{
    if let Some(i) = store_z(w) {
        return Some(i);
    }
    if let Some(i) = store_reg(w) {
        return Some(i);
    }
    if let Some(i) = store_nt_reg(w) {
        return Some(i);
    }
    if let Some(i) = store_many_reg(w) {
        return Some(i);
    }
    store_p(w)
}

/// Scatters, and stores at an immediate offset, by bit 13.
#[inline(always)]
fn words_of_scatters_and_immediate_stores(w: u32) -> Option<Sve>
    ensures { seen result ≡ decode scatters_and_immediate_stores w }
{
    match bits(w, 13, 13) {
        0b0 => words_of_extended_scatters(w),
        _ => words_of_plain_scatters_and_immediate_stores(w),
    }
}

/// Scatters at offsets that are extended from 32 bits.
#[inline(always)]
fn words_of_extended_scatters(w: u32) -> Option<Sve>
    ensures { seen result ≡ decode (scatter_sx ∷ scatter_sx_scaled ∷ scatter_dx ∷ scatter_dx_scaled ∷ []) w }
{
    if let Some(i) = scatter_sx(w) {
        return Some(i);
    }
    if let Some(i) = scatter_sx_scaled(w) {
        return Some(i);
    }
    if let Some(i) = scatter_dx(w) {
        return Some(i);
    }
    scatter_dx_scaled(w)
}

/// Scatters at 64-bit offsets or at the addresses of a vector, and stores at an immediate offset, by bit 14.
#[inline(always)]
fn words_of_plain_scatters_and_immediate_stores(w: u32) -> Option<Sve>
    ensures { seen result ≡ decode plain_scatters_and_immediate_stores w }
{
    match bits(w, 14, 14) {
        0b0 => words_of_plain_scatters(w),
        _ => words_of_stores_by_immediate(w),
    }
}

/// Scatters at 64-bit offsets, or at the addresses of a vector.
#[inline(always)]
fn words_of_plain_scatters(w: u32) -> Option<Sve>
    ensures { seen result ≡ decode (scatter_d ∷ scatter_d_scaled ∷ scatter_sv ∷ scatter_dv ∷ []) w }
{
    if let Some(i) = scatter_d(w) {
        return Some(i);
    }
    if let Some(i) = scatter_d_scaled(w) {
        return Some(i);
    }
    if let Some(i) = scatter_sv(w) {
        return Some(i);
    }
    scatter_dv(w)
}

#[inline(always)]
fn words_of_stores_by_immediate(w: u32) -> Option<Sve>
    ensures { seen result ≡ decode (store_imm ∷ store_nt_imm ∷ store_many_imm ∷ []) w }
{
    if let Some(i) = store_imm(w) {
        return Some(i);
    }
    if let Some(i) = store_nt_imm(w) {
        return Some(i);
    }
    store_many_imm(w)
}
