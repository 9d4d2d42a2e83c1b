//! The operations of loads and stores of general registers.
ghost use Rattle.std.specs.Prelude.{◌≡◌, ◌*◌, ◌^◌, false, pos, if◌then◌else◌};
ghost use Rattle.a64_insn.specs.declared.form.A64Form.{A64Form};
ghost use Rattle.a64_operations.specs.Meaning.{at_offset};
ghost use Rattle.a64_operations.specs.Prepared.{IsOf, IsReady};

use crate::data_forms::amount;
use crate::flow_forms::distance;
use crate::operation::Operation;
use core_regs::{RegOrSp, Source, Target};
use emu_bits::{Reg, U};

/// At so many bytes from a base.
fn at(size: U<2>, opc: U<2>, by: i32, rn: Reg, rt: Reg) -> Operation
    ensures { IsReady result (at_offset size opc rt rn by) }
{
    let n = RegOrSp::of(rn);
    let (from, to) = (Source::of(rt), Target::of(rt));
    match (opc.get(), size.get()) {
        (0, 0) => Operation::StrB { t: from, n, by },
        (0, 1) => Operation::StrH { t: from, n, by },
        (0, 2) => Operation::StrW { t: from, n, by },
        (0, 3) => Operation::StrX { t: from, n, by },
        (1, 0) => Operation::LdrB { t: to, n, by },
        (1, 1) => Operation::LdrH { t: to, n, by },
        (1, 2) => Operation::LdrW { t: to, n, by },
        (1, 3) => Operation::LdrX { t: to, n, by },
        (2, 2) => Operation::Ldrsw { t: to, n, by },
        _ => Operation::ByForm,
    }
}

/// So many accesses, in bytes.
fn scaled(size: U<2>, imm12: U<12>) -> i32
    ensures { result ≡ pos (2 ^ size * imm12) }
{
    let imm = imm12.get() as i32;
    match size.get() {
        0 => imm,
        1 => 2 * imm,
        2 => 4 * imm,
        _ => 8 * imm,
    }
}

/// How far an index is moved left.
fn scale(s: bool, size: U<2>) -> U<6>
    ensures { 2 ^ result ≡ (if s then 2 ^ size else 1) }
{
    if s { amount(size.get()) } else { amount(0) }
}

pub(crate) fn unsigned(size: U<2>, opc: U<2>, imm12: U<12>, rn: Reg, rt: Reg) -> Operation
    ensures { IsOf result (A64Form.LsUnsigned size false opc imm12 rn rt) }
{
    at(size, opc, scaled(size, imm12), rn, rt)
}

pub(crate) fn offset(size: U<2>, opc: U<2>, imm9: U<9>, rn: Reg, rt: Reg) -> Operation
    ensures { IsOf result (A64Form.LsUnscaled size false opc imm9 rn rt) }
{
    at(size, opc, distance(imm9.get(), 9), rn, rt)
}

pub(crate) fn post(size: U<2>, opc: U<2>, imm9: U<9>, rn: Reg, rt: Reg) -> Operation
    ensures { IsOf result (A64Form.LsPost size false opc imm9 rn rt) }
{
    let n = RegOrSp::of(rn);
    let by = distance(imm9.get(), 9);
    let (from, to) = (Source::of(rt), Target::of(rt));
    match (opc.get(), size.get()) {
        (0, 0) => Operation::StrBPost { t: from, n, by },
        (0, 2) => Operation::StrWPost { t: from, n, by },
        (0, 3) => Operation::StrXPost { t: from, n, by },
        (1, 0) => Operation::LdrBPost { t: to, n, by },
        (1, 2) => Operation::LdrWPost { t: to, n, by },
        (1, 3) => Operation::LdrXPost { t: to, n, by },
        _ => Operation::ByForm,
    }
}

pub(crate) fn pre(size: U<2>, opc: U<2>, imm9: U<9>, rn: Reg, rt: Reg) -> Operation
    ensures { IsOf result (A64Form.LsPre size false opc imm9 rn rt) }
{
    let n = RegOrSp::of(rn);
    let by = distance(imm9.get(), 9);
    match (opc.get(), size.get()) {
        (0, 3) => Operation::StrXPre {
            t: Source::of(rt),
            n,
            by,
        },
        (1, 3) => Operation::LdrXPre {
            t: Target::of(rt),
            n,
            by,
        },
        _ => Operation::ByForm,
    }
}

pub(crate) fn register(
    size: U<2>,
    opc: U<2>,
    rm: Reg,
    ext: U<3>,
    s: bool,
    rn: Reg,
    rt: Reg,
) -> Operation
    ensures { IsOf result (A64Form.LsReg size false opc rm ext s rn rt) }
{
    let (n, m) = (RegOrSp::of(rn), Source::of(rm));
    let (from, to) = (Source::of(rt), Target::of(rt));
    let amount = scale(s, size);
    match (opc.get(), ext.get(), size.get()) {
        (0, 3, 0) => Operation::StrBLsl {
            t: from,
            n,
            m,
            amount,
        },
        (0, 3, 1) => Operation::StrHLsl {
            t: from,
            n,
            m,
            amount,
        },
        (0, 3, 2) => Operation::StrWLsl {
            t: from,
            n,
            m,
            amount,
        },
        (0, 3, 3) => Operation::StrXLsl {
            t: from,
            n,
            m,
            amount,
        },
        (1, 3, 0) => Operation::LdrBLsl {
            t: to,
            n,
            m,
            amount,
        },
        (1, 3, 1) => Operation::LdrHLsl {
            t: to,
            n,
            m,
            amount,
        },
        (1, 3, 2) => Operation::LdrWLsl {
            t: to,
            n,
            m,
            amount,
        },
        (1, 3, 3) => Operation::LdrXLsl {
            t: to,
            n,
            m,
            amount,
        },
        (1, 2, 0) => Operation::LdrBUxtw {
            t: to,
            n,
            m,
            amount,
        },
        (1, 2, 2) => Operation::LdrWUxtw {
            t: to,
            n,
            m,
            amount,
        },
        (1, 2, 3) => Operation::LdrXUxtw {
            t: to,
            n,
            m,
            amount,
        },
        (1, 6, 0) => Operation::LdrBSxtw {
            t: to,
            n,
            m,
            amount,
        },
        (1, 6, 2) => Operation::LdrWSxtw {
            t: to,
            n,
            m,
            amount,
        },
        (1, 6, 3) => Operation::LdrXSxtw {
            t: to,
            n,
            m,
            amount,
        },
        (2, 3, 2) => Operation::LdrswLsl {
            t: to,
            n,
            m,
            amount,
        },
        _ => Operation::ByForm,
    }
}

pub(crate) fn pair(
    opc: U<2>,
    mode: U<2>,
    l: bool,
    imm7: U<7>,
    rt2: Reg,
    rn: Reg,
    rt: Reg,
) -> Operation
    ensures { IsOf result (A64Form.Pair opc false mode l imm7 rt2 rn rt) }
{
    if opc.get() != 2 {
        return Operation::ByForm;
    }
    let n = RegOrSp::of(rn);
    let by = 8 * distance(imm7.get(), 7);
    if l {
        let (t, u) = (Target::of(rt), Target::of(rt2));
        match mode.get() {
            1 => Operation::LdpPost { t, u, n, by },
            3 => Operation::LdpPre { t, u, n, by },
            _ => Operation::Ldp { t, u, n, by },
        }
    } else {
        let (t, u) = (Source::of(rt), Source::of(rt2));
        match mode.get() {
            1 => Operation::StpPost { t, u, n, by },
            3 => Operation::StpPre { t, u, n, by },
            _ => Operation::Stp { t, u, n, by },
        }
    }
}
