//! The word of each form, by groups of the table's lines.
ghost use Rattle.std.specs.Prelude.{MatchOption};
ghost use Rattle.sve_insn.specs.declared.lines.TheConstants.{
  GATHER_D,
  GATHER_DV,
  GATHER_DX,
  GATHER_D_SCALED,
  GATHER_SX,
  LOAD_IMM,
  LOAD_MANY_IMM,
  LOAD_NF,
  LOAD_NT_IMM,
  LOAD_ONE,
  LOAD_QUAD_REG,
  LOAD_Z,
  SCATTER_D,
  SCATTER_DV,
  SCATTER_DX_SCALED,
  SCATTER_SX,
  STORE_IMM,
  STORE_MANY_IMM,
  STORE_NT_REG,
  STORE_P,
  STORE_REG,
  STORE_Z,
};
ghost use Rattle.sve_insn.specs.Lines.{IsOutside, IsWordOf};

use crate::gathers::{
    gather_d_bits, gather_d_scaled_bits, gather_dv_bits, gather_dx_bits, gather_dx_scaled_bits,
    gather_sv_bits, gather_sx_bits, gather_sx_scaled_bits,
};
use crate::loads::{
    load_ff_bits, load_imm_bits, load_many_imm_bits, load_many_reg_bits, load_nf_bits,
    load_nt_imm_bits, load_nt_reg_bits, load_one_bits, load_p_bits, load_quad_imm_bits,
    load_quad_reg_bits, load_reg_bits, load_z_bits,
};
use crate::scatters::{
    scatter_d_bits, scatter_d_scaled_bits, scatter_dv_bits, scatter_dx_bits,
    scatter_dx_scaled_bits, scatter_sv_bits, scatter_sx_bits, scatter_sx_scaled_bits,
};
use crate::stores::{
    store_imm_bits, store_many_imm_bits, store_many_reg_bits, store_nt_imm_bits, store_nt_reg_bits,
    store_p_bits, store_reg_bits, store_z_bits,
};
use sve_insn::SveForm;

/// The word of a load or store; none of another form.
pub fn memory_word(form: &SveForm) -> Option<u32>
    ensures { MatchOption result (IsOutside LOAD_Z SCATTER_DV form.now) (λ w. IsWordOf form.now w) }
{
    if let Some(w) = whole_register_word(*form) {
        return Some(w);
    }
    if let Some(w) = s_gather_or_store_word(*form) {
        return Some(w);
    }
    if let Some(w) = typed_load_word(*form) {
        return Some(w);
    }
    if let Some(w) = sized_load_word(*form) {
        return Some(w);
    }
    if let Some(w) = many_or_one_load_word(*form) {
        return Some(w);
    }
    if let Some(w) = one_register_store_word(*form) {
        return Some(w);
    }
    if let Some(w) = many_or_whole_store_word(*form) {
        return Some(w);
    }
    if let Some(w) = offset_gather_word(*form) {
        return Some(w);
    }
    if let Some(w) = vector_gather_word(*form) {
        return Some(w);
    }
    if let Some(w) = extended_scatter_word(*form) {
        return Some(w);
    }
    plain_scatter_word(*form)
}

/// The word of a load of a whole register, or of a store of a Z register; none of another form.
fn whole_register_word(form: SveForm) -> Option<u32>
    ensures { MatchOption result (IsOutside LOAD_Z STORE_Z form) (λ w. IsWordOf form w) }
{
    match form {
        SveForm::LoadZ {
            imm9h,
            imm9l,
            rn,
            zt,
        } => Some(load_z_bits(imm9h, imm9l, rn, zt)),
        SveForm::LoadP {
            imm9h,
            imm9l,
            rn,
            pt,
        } => Some(load_p_bits(imm9h, imm9l, rn, pt)),
        SveForm::StoreZ {
            imm9h,
            imm9l,
            rn,
            zt,
        } => Some(store_z_bits(imm9h, imm9l, rn, zt)),
        _ => None,
    }
}

/// The word of a gather of S lanes at extended offsets, or of a store at a register offset; none of another form.
fn s_gather_or_store_word(form: SveForm) -> Option<u32>
    ensures { MatchOption result (IsOutside GATHER_SX STORE_REG form) (λ w. IsWordOf form w) }
{
    match form {
        SveForm::GatherSx {
            msz,
            xs,
            zm,
            u,
            ff,
            pg,
            rn,
            zt,
        } => Some(gather_sx_bits(msz, xs, zm, u, ff, pg, rn, zt)),
        SveForm::GatherSxScaled {
            msz,
            xs,
            zm,
            u,
            ff,
            pg,
            rn,
            zt,
        } => Some(gather_sx_scaled_bits(msz, xs, zm, u, ff, pg, rn, zt)),
        SveForm::StoreReg {
            msz,
            size,
            rm,
            pg,
            rn,
            zt,
        } => Some(store_reg_bits(msz, size, rm, pg, rn, zt)),
        _ => None,
    }
}

/// The word of a load whose lanes may be wider than its elements; none of another form.
fn typed_load_word(form: SveForm) -> Option<u32>
    ensures { MatchOption result (IsOutside LOAD_IMM LOAD_NF form) (λ w. IsWordOf form w) }
{
    match form {
        SveForm::LoadImm {
            dtype,
            imm4,
            pg,
            rn,
            zt,
        } => Some(load_imm_bits(dtype, imm4, pg, rn, zt)),
        SveForm::LoadReg {
            dtype,
            rm,
            pg,
            rn,
            zt,
        } => Some(load_reg_bits(dtype, rm, pg, rn, zt)),
        SveForm::LoadFf {
            dtype,
            rm,
            pg,
            rn,
            zt,
        } => Some(load_ff_bits(dtype, rm, pg, rn, zt)),
        SveForm::LoadNf {
            dtype,
            imm4,
            pg,
            rn,
            zt,
        } => Some(load_nf_bits(dtype, imm4, pg, rn, zt)),
        _ => None,
    }
}

/// The word of a non-temporal load, or of one that is repeated in each 128 bits; none of another form.
fn sized_load_word(form: SveForm) -> Option<u32>
    ensures { MatchOption result (IsOutside LOAD_NT_IMM LOAD_QUAD_REG form) (λ w. IsWordOf form w) }
{
    match form {
        SveForm::LoadNtImm {
            msz,
            imm4,
            pg,
            rn,
            zt,
        } => Some(load_nt_imm_bits(msz, imm4, pg, rn, zt)),
        SveForm::LoadNtReg {
            msz,
            rm,
            pg,
            rn,
            zt,
        } => Some(load_nt_reg_bits(msz, rm, pg, rn, zt)),
        SveForm::LoadQuadImm {
            msz,
            imm4,
            pg,
            rn,
            zt,
        } => Some(load_quad_imm_bits(msz, imm4, pg, rn, zt)),
        SveForm::LoadQuadReg {
            msz,
            rm,
            pg,
            rn,
            zt,
        } => Some(load_quad_reg_bits(msz, rm, pg, rn, zt)),
        _ => None,
    }
}

/// The word of a load to several registers, or of one element to all lanes; none of another form.
fn many_or_one_load_word(form: SveForm) -> Option<u32>
    ensures { MatchOption result (IsOutside LOAD_MANY_IMM LOAD_ONE form) (λ w. IsWordOf form w) }
{
    match form {
        SveForm::LoadManyImm {
            op,
            msz,
            imm4,
            pg,
            rn,
            zt,
        } => Some(load_many_imm_bits(op, msz, imm4, pg, rn, zt)),
        SveForm::LoadManyReg {
            op,
            msz,
            rm,
            pg,
            rn,
            zt,
        } => Some(load_many_reg_bits(op, msz, rm, pg, rn, zt)),
        SveForm::LoadOne {
            dtypeh,
            imm6,
            dtypel,
            pg,
            rn,
            zt,
        } => Some(load_one_bits(dtypeh, imm6, dtypel, pg, rn, zt)),
        _ => None,
    }
}

/// The word of a store at an immediate offset, or of a non-temporal one; none of another form.
fn one_register_store_word(form: SveForm) -> Option<u32>
    ensures { MatchOption result (IsOutside STORE_IMM STORE_NT_REG form) (λ w. IsWordOf form w) }
{
    match form {
        SveForm::StoreImm {
            msz,
            size,
            imm4,
            pg,
            rn,
            zt,
        } => Some(store_imm_bits(msz, size, imm4, pg, rn, zt)),
        SveForm::StoreNtImm {
            msz,
            imm4,
            pg,
            rn,
            zt,
        } => Some(store_nt_imm_bits(msz, imm4, pg, rn, zt)),
        SveForm::StoreNtReg {
            msz,
            rm,
            pg,
            rn,
            zt,
        } => Some(store_nt_reg_bits(msz, rm, pg, rn, zt)),
        _ => None,
    }
}

/// The word of a store of several registers, or of a whole predicate; none of another form.
fn many_or_whole_store_word(form: SveForm) -> Option<u32>
    ensures { MatchOption result (IsOutside STORE_MANY_IMM STORE_P form) (λ w. IsWordOf form w) }
{
    match form {
        SveForm::StoreManyImm {
            op,
            msz,
            imm4,
            pg,
            rn,
            zt,
        } => Some(store_many_imm_bits(op, msz, imm4, pg, rn, zt)),
        SveForm::StoreManyReg {
            op,
            msz,
            rm,
            pg,
            rn,
            zt,
        } => Some(store_many_reg_bits(op, msz, rm, pg, rn, zt)),
        SveForm::StoreP {
            imm9h,
            imm9l,
            rn,
            pt,
        } => Some(store_p_bits(imm9h, imm9l, rn, pt)),
        _ => None,
    }
}

/// The word of a gather of D lanes at offsets that are extended, or in bytes; none of another form.
fn offset_gather_word(form: SveForm) -> Option<u32>
    ensures { MatchOption result (IsOutside GATHER_DX GATHER_D form) (λ w. IsWordOf form w) }
{
    match form {
        SveForm::GatherDx {
            msz,
            xs,
            zm,
            u,
            ff,
            pg,
            rn,
            zt,
        } => Some(gather_dx_bits(msz, xs, zm, u, ff, pg, rn, zt)),
        SveForm::GatherDxScaled {
            msz,
            xs,
            zm,
            u,
            ff,
            pg,
            rn,
            zt,
        } => Some(gather_dx_scaled_bits(msz, xs, zm, u, ff, pg, rn, zt)),
        SveForm::GatherD {
            msz,
            zm,
            u,
            ff,
            pg,
            rn,
            zt,
        } => Some(gather_d_bits(msz, zm, u, ff, pg, rn, zt)),
        _ => None,
    }
}

/// The word of a gather of D lanes at scaled offsets, or of one at the addresses of a vector; none of another form.
fn vector_gather_word(form: SveForm) -> Option<u32>
    ensures { MatchOption result (IsOutside GATHER_D_SCALED GATHER_DV form) (λ w. IsWordOf form w) }
{
    match form {
        SveForm::GatherDScaled {
            msz,
            zm,
            u,
            ff,
            pg,
            rn,
            zt,
        } => Some(gather_d_scaled_bits(msz, zm, u, ff, pg, rn, zt)),
        SveForm::GatherSv {
            msz,
            imm5,
            u,
            ff,
            pg,
            zn,
            zt,
        } => Some(gather_sv_bits(msz, imm5, u, ff, pg, zn, zt)),
        SveForm::GatherDv {
            msz,
            imm5,
            u,
            ff,
            pg,
            zn,
            zt,
        } => Some(gather_dv_bits(msz, imm5, u, ff, pg, zn, zt)),
        _ => None,
    }
}

/// The word of a scatter at extended offsets; none of another form.
fn extended_scatter_word(form: SveForm) -> Option<u32>
    ensures { MatchOption result (IsOutside SCATTER_SX SCATTER_DX_SCALED form) (λ w. IsWordOf form w) }
{
    match form {
        SveForm::ScatterSx {
            msz,
            zm,
            xs,
            pg,
            rn,
            zt,
        } => Some(scatter_sx_bits(msz, zm, xs, pg, rn, zt)),
        SveForm::ScatterSxScaled {
            msz,
            zm,
            xs,
            pg,
            rn,
            zt,
        } => Some(scatter_sx_scaled_bits(msz, zm, xs, pg, rn, zt)),
        SveForm::ScatterDx {
            msz,
            zm,
            xs,
            pg,
            rn,
            zt,
        } => Some(scatter_dx_bits(msz, zm, xs, pg, rn, zt)),
        SveForm::ScatterDxScaled {
            msz,
            zm,
            xs,
            pg,
            rn,
            zt,
        } => Some(scatter_dx_scaled_bits(msz, zm, xs, pg, rn, zt)),
        _ => None,
    }
}

/// The word of a scatter at 64-bit offsets or at the addresses of a vector; none of another form.
fn plain_scatter_word(form: SveForm) -> Option<u32>
    ensures { MatchOption result (IsOutside SCATTER_D SCATTER_DV form) (λ w. IsWordOf form w) }
{
    match form {
        SveForm::ScatterD {
            msz,
            zm,
            pg,
            rn,
            zt,
        } => Some(scatter_d_bits(msz, zm, pg, rn, zt)),
        SveForm::ScatterDScaled {
            msz,
            zm,
            pg,
            rn,
            zt,
        } => Some(scatter_d_scaled_bits(msz, zm, pg, rn, zt)),
        SveForm::ScatterSv {
            msz,
            imm5,
            pg,
            zn,
            zt,
        } => Some(scatter_sv_bits(msz, imm5, pg, zn, zt)),
        SveForm::ScatterDv {
            msz,
            imm5,
            pg,
            zn,
            zt,
        } => Some(scatter_dv_bits(msz, imm5, pg, zn, zt)),
        _ => None,
    }
}
