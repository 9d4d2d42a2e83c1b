//! What the fields of a row say of its access.
ghost use Rattle.std.specs.Prelude.{◌≡◌, ◌≤◌, ◌*◌};
ghost use Rattle.a64_effects.specs.LoadStore as table;
ghost use Rattle.a64_flow.specs.Ends.{greatest_of};
ghost use Rattle.vec_regs.specs.Packed.{IsLowSize};

use crate::numbers::bytes_of;
use a64_effects::Transfer;
use a64_insn::OrderedOp;
use emu_bits::{Reg, U};

/// By V, size and opc: of a vector register a store or a load; of a general register a store, or a load with zeros
/// above or with its sign to 64 or 32 bits, and a prefetch at size 3.
pub(crate) fn transfer(v: bool, size: U<2>, opc: U<2>) -> Transfer
    ensures { result ≡ table.transfer v size opc }
{
    if v {
        return if opc.get() % 2 == 0 {
            Transfer::StoreVector
        } else {
            Transfer::LoadVector
        };
    }
    match opc.get() {
        0 => Transfer::Store,
        1 => Transfer::Load,
        3 => Transfer::LoadSigned32,
        _ => {
            if size.get() == 3 {
                Transfer::Prefetch
            } else {
                Transfer::LoadSigned
            }
        }
    }
}

/// The bytes of an access of one register.
pub(crate) fn access_bytes(v: bool, size: U<2>, opc: U<2>) -> u32
    ensures value { result ≡ table.access_bytes v size opc }
    ensures some { 1 ≤ result }
    ensures most { result ≤ greatest_of (table.transfer v size opc) }
    ensures size { IsLowSize (8 * result) }
{
    if v && opc.get() >= 2 {
        16
    } else {
        bytes_of(size)
    }
}

/// `S`, `D` and `Q` registers by opc.
fn vector_bytes(opc: U<2>) -> u32
    ensures value { result ≡ table.vector_bytes opc }
    ensures some { 1 ≤ result }
    ensures most { result ≤ 16 }
    ensures size { IsLowSize (8 * result) }
{
    match opc.get() {
        0 => 4,
        1 => 8,
        _ => 16,
    }
}

/// Of a literal: `ldr` of W and X, `ldrsw`, `prfm`, and `ldr` of vector registers.
pub(crate) fn literal_transfer(v: bool, opc: U<2>) -> Transfer
    ensures { result ≡ table.literal_transfer v opc }
{
    if v {
        return Transfer::LoadVector;
    }
    match opc.get() {
        2 => Transfer::LoadSigned,
        3 => Transfer::Prefetch,
        _ => Transfer::Load,
    }
}

/// The bytes of a literal.
pub(crate) fn literal_bytes(v: bool, opc: U<2>) -> u32
    ensures value { result ≡ table.literal_bytes v opc }
    ensures some { 1 ≤ result }
    ensures most { result ≤ greatest_of (table.literal_transfer v opc) }
    ensures size { IsLowSize (8 * result) }
{
    if v {
        return vector_bytes(opc);
    }
    if opc.get() == 1 { 8 } else { 4 }
}

/// Of a pair: `stp`, `ldpsw`, `ldp`, and those of vector registers.
pub(crate) fn pair_transfer(v: bool, opc: U<2>, l: bool) -> Transfer
    ensures { result ≡ table.pair_transfer v opc l }
{
    if v {
        return if l {
            Transfer::LoadVector
        } else {
            Transfer::StoreVector
        };
    }
    if !l {
        Transfer::Store
    } else if opc.get() == 1 {
        Transfer::LoadSigned
    } else {
        Transfer::Load
    }
}

/// The bytes of each register of a pair.
pub(crate) fn pair_bytes(v: bool, opc: U<2>, l: bool) -> u32
    ensures value { result ≡ table.pair_bytes v opc }
    ensures some { 1 ≤ result }
    ensures most { result ≤ greatest_of (table.pair_transfer v opc l) }
    ensures size { IsLowSize (8 * result) }
{
    if v {
        return vector_bytes(opc);
    }
    if opc.get() == 2 { 8 } else { 4 }
}

/// `stlr`, `ldar`.
pub(crate) fn ordered_transfer(op: OrderedOp) -> Transfer
    ensures { result ≡ table.ordered_transfer op }
{
    match op {
        OrderedOp::Stlr => Transfer::Store,
        OrderedOp::Ldar => Transfer::Load,
    }
}

/// Whether it is a vector register that is stored or loaded.
pub(crate) fn is_vector(t: Transfer) -> bool
    ensures { result ≡ table.is_vector t }
{
    match t {
        Transfer::StoreVector | Transfer::LoadVector => true,
        _ => false,
    }
}

/// Whether the base is SP and tested: a prefetch tests none.
pub(crate) fn has_sp(t: Transfer, rn: Reg) -> bool
    ensures { result ≡ table.has_sp t rn }
{
    match t {
        Transfer::Prefetch => false,
        _ => rn.get() == 31,
    }
}

/// Whether the base is written back: post-indexed and pre-indexed.
pub(crate) fn writes_back(mode: U<2>) -> bool
    ensures { result ≡ table.writes_back mode }
{
    mode.get() == 1 || mode.get() == 3
}

/// Whether the exclusive monitor keeps this address and this size.
pub(crate) fn is_kept(monitor: Option<(u64, u32)>, address: u64, n: u32) -> bool
    ensures { result ≡ table.is_kept monitor address n }
{
    match monitor {
        None => false,
        Some((kept, bytes)) => kept == address && bytes == n,
    }
}
