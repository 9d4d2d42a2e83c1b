//! What a row says of its load.
ghost use Rattle.std.specs.Prelude.{◌≡◌, ◌≤◌, ◌^◌, nat_eq, true, false};
ghost use Rattle.emu_model.specs.LaneSizes.{IsLaneSize};
ghost use Rattle.sve_effects.specs.VectorElements as table;
ghost use Rattle.sve_effects.specs.Effects.{is_first_fault};
ghost use Rattle.sve_ffr.specs.Rows as rows;

use element_loops::sizes::{dtype_bits, dtype_bytes, element_bytes, is_sp};
use emu_bits::{Reg, U};
use sve_insn::{Sve, SveForm};

/// The bits of lanes, the bytes of elements, which bound those of a list, the register that is loaded, whether the base
/// is SP, and whether no element traps.
#[derive(Clone, Copy)]
pub struct FirstFaultLoad {
    pub bits: u32,
    pub bytes: u32,
    pub register: Reg,
    pub has_sp_base: bool,
    pub is_non_fault: bool,
}

/// A contiguous row.
fn contiguous(dtype: U<4>, rn: Reg, zt: Reg, is_non_fault: bool) -> FirstFaultLoad
    ensures value { result ≡ record {
      bits = table.dtype_bits dtype;
      bytes = table.dtype_bytes dtype;
      register = zt;
      has_sp_base = nat_eq rn 31;
      is_non_fault = is_non_fault;
    } }
    ensures size { IsLaneSize result.bits }
    ensures some { 1 ≤ result.bytes }
    ensures most { result.bytes ≤ 8 }
{
    FirstFaultLoad {
        bits: dtype_bits(dtype.get()),
        bytes: dtype_bytes(dtype.get()),
        register: zt,
        has_sp_base: is_sp(rn),
        is_non_fault,
    }
}

/// A gather from a base register.
fn from_base(bits: u32, msz: U<2>, rn: Reg, zt: Reg) -> FirstFaultLoad
    requires { IsLaneSize bits }
    ensures value { result
        ≡ record { bits = bits; bytes = 2 ^ msz; register = zt; has_sp_base = nat_eq rn 31; is_non_fault = false } }
    ensures size { IsLaneSize result.bits }
    ensures some { 1 ≤ result.bytes }
    ensures most { result.bytes ≤ 8 }
{
    FirstFaultLoad {
        bits,
        bytes: element_bytes(msz),
        register: zt,
        has_sp_base: is_sp(rn),
        is_non_fault: false,
    }
}

/// A gather from the lanes of a vector register.
fn at_vector(bits: u32, msz: U<2>, zt: Reg) -> FirstFaultLoad
    requires { IsLaneSize bits }
    ensures value { result
        ≡ record { bits = bits; bytes = 2 ^ msz; register = zt; has_sp_base = false; is_non_fault = false } }
    ensures size { IsLaneSize result.bits }
    ensures some { 1 ≤ result.bytes }
    ensures most { result.bytes ≤ 8 }
{
    FirstFaultLoad {
        bits,
        bytes: element_bytes(msz),
        register: zt,
        has_sp_base: false,
        is_non_fault: false,
    }
}

/// The row of an instruction.
pub(crate) fn first_fault_load_of(i: &Sve) -> FirstFaultLoad
    requires { is_first_fault i.now ≡ true }
    ensures value { result ≡ rows.first_fault_load_of i.now }
    ensures size { IsLaneSize result.bits }
    ensures some { 1 ≤ result.bytes }
    ensures most { result.bytes ≤ 8 }
{
    match *i.form() {
        SveForm::LoadFf { dtype, rn, zt, .. } => contiguous(dtype, rn, zt, false),
        SveForm::LoadNf { dtype, rn, zt, .. } => contiguous(dtype, rn, zt, true),
        SveForm::GatherSx { msz, rn, zt, .. } => from_base(32, msz, rn, zt),
        SveForm::GatherSxScaled { msz, rn, zt, .. } => from_base(32, msz, rn, zt),
        SveForm::GatherDx { msz, rn, zt, .. } => from_base(64, msz, rn, zt),
        SveForm::GatherDxScaled { msz, rn, zt, .. } => from_base(64, msz, rn, zt),
        SveForm::GatherD { msz, rn, zt, .. } => from_base(64, msz, rn, zt),
        SveForm::GatherDScaled { msz, rn, zt, .. } => from_base(64, msz, rn, zt),
        SveForm::GatherSv { msz, zt, .. } => at_vector(32, msz, zt),
        SveForm::GatherDv { msz, zt, .. } => at_vector(64, msz, zt),
        _ => unreachable!(),
    }
}
