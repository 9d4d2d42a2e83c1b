//! The forms, and instructions that meet their conditions.
ghost use Rattle.std.specs.Prelude.{◌≡◌, MatchOption, true, false};
ghost use Rattle.a64_insn.specs.Rows.{meets_form};

use crate::conditions::meets;
use crate::ops::{
    AddCarryOp, AddOp, AdrOp, AtomicOp, BarrierOp, BitfieldOp, BranchOp, BranchRegOp, CompareOp,
    CondCompareOp, ExceptOp, FMoveOp, LoadExOp, LogicImmOp, LogicRegOp, MoveWideOp, MulAddOp,
    MulHighOp, MulLongOp, OneSourceOp, OrderedOp, ReadSysOp, RevOp, SelectOp, StoreExOp, TestOp,
    TwoSourceOp, WriteSysOp,
};
use emu_bits::{Reg, U};
use std::marker::Model;

/// An instruction's form: the line of the table and the raw bits of its fields, in the line's order: highest first, but
/// that bit 15 of `CompareSwap` stands behind bit 22. `sf` is true at 64 bits.
#[derive(Clone, Copy)]
pub enum A64Form {
    /// `adr`, `adrp Xd, target`: an address near PC; immhi:immlo is signed, in bytes or in pages of 4,096 bytes.
    Adr {
        op: AdrOp,
        immlo: U<2>,
        immhi: U<19>,
        rd: Reg,
    },
    /// `add`, `adds`, `sub`, `subs Rd|SP, Rn|SP, #i{, lsl #12}`: the sum with an immediate, which sh shifts by 12.
    AddImm {
        op: AddOp,
        sf: bool,
        sh: bool,
        imm12: U<12>,
        rn: Reg,
        rd: Reg,
    },
    /// `and`, `orr`, `eor`, `ands Rd|SP, Rn, #m`: with a bitmask immediate.
    LogicImm {
        op: LogicImmOp,
        sf: bool,
        n: bool,
        immr: U<6>,
        imms: U<6>,
        rn: Reg,
        rd: Reg,
    },
    /// `movn`, `movz`, `movk Rd, #i{, lsl #0}`: a 16-bit immediate at place 16·hw.
    MoveWide {
        op: MoveWideOp,
        sf: bool,
        hw: U<2>,
        imm16: U<16>,
        rd: Reg,
    },
    /// `sbfm`, `bfm`, `ubfm Rd, Rn, #r, #s`: bits moved within a register.
    Bitfield {
        op: BitfieldOp,
        sf: bool,
        n: bool,
        r: U<6>,
        s: U<6>,
        rn: Reg,
        rd: Reg,
    },
    /// `extr Rd, Rn, Rm, #s`: a register's width of bits from place s on of Rn followed by Rm.
    Extract {
        sf: bool,
        n: bool,
        rm: Reg,
        s: U<6>,
        rn: Reg,
        rd: Reg,
    },
    /// `and`, `bic`, `orr`, `orn`, `eor`, `eon`, `ands`, `bics Rd, Rn, Rm{, lsl #0}`: shift is 0 lsl, 1 lsr, 2 asr, 3
    /// ror.
    LogicReg {
        op: LogicRegOp,
        sf: bool,
        shift: U<2>,
        rm: Reg,
        amount: U<6>,
        rn: Reg,
        rd: Reg,
    },
    /// `add`, `adds`, `sub`, `subs Rd, Rn, Rm{, lsl #0}`: shift is 0 lsl, 1 lsr, 2 asr.
    AddReg {
        op: AddOp,
        sf: bool,
        shift: U<2>,
        rm: Reg,
        amount: U<6>,
        rn: Reg,
        rd: Reg,
    },
    /// `add`, `adds`, `sub`, `subs Rd|SP, Rn|SP, Rm, ext #a`: ext is 0 uxtb, 1 uxth, 2 uxtw, 3 uxtx, 4 sxtb, 5 sxth, 6
    /// sxtw, 7 sxtx.
    AddExt {
        op: AddOp,
        sf: bool,
        rm: Reg,
        ext: U<3>,
        a: U<3>,
        rn: Reg,
        rd: Reg,
    },
    /// `adc`, `adcs`, `sbc`, `sbcs Rd, Rn, Rm`: sums with the carry flag.
    AddCarry {
        op: AddCarryOp,
        sf: bool,
        rm: Reg,
        rn: Reg,
        rd: Reg,
    },
    /// `ccmn`, `ccmp Rn, Rm, #f, cond`: the flags of a sum where a condition holds, else f.
    CondReg {
        op: CondCompareOp,
        sf: bool,
        rm: Reg,
        cond: U<4>,
        rn: Reg,
        f: U<4>,
    },
    /// `ccmn`, `ccmp Rn, #i, #f, cond`: the same with an immediate.
    CondImm {
        op: CondCompareOp,
        sf: bool,
        i: U<5>,
        cond: U<4>,
        rn: Reg,
        f: U<4>,
    },
    /// `csel`, `csinc`, `csinv`, `csneg Rd, Rn, Rm, cond`: one of two registers.
    Select {
        op: SelectOp,
        sf: bool,
        rm: Reg,
        cond: U<4>,
        rn: Reg,
        rd: Reg,
    },
    /// `madd`, `msub Rd, Rn, Rm, Ra`: Ra and a product.
    MulAdd {
        op: MulAddOp,
        sf: bool,
        rm: Reg,
        ra: Reg,
        rn: Reg,
        rd: Reg,
    },
    /// `smaddl`, `smsubl`, `umaddl`, `umsubl Xd, Wn, Wm, Xa`: Xa and a 64-bit product.
    MulLong {
        op: MulLongOp,
        rm: Reg,
        ra: Reg,
        rn: Reg,
        rd: Reg,
    },
    /// `smulh`, `umulh Xd, Xn, Xm`: the upper 64 bits of a product.
    MulHigh {
        op: MulHighOp,
        rm: Reg,
        rn: Reg,
        rd: Reg,
    },
    /// `udiv`, `sdiv`, `lslv`, `lsrv`, `asrv`, `rorv Rd, Rn, Rm`: quotients, and shifts by a register.
    TwoSource {
        op: TwoSourceOp,
        sf: bool,
        rm: Reg,
        rn: Reg,
        rd: Reg,
    },
    /// `rbit`, `rev16`, `clz`, `cls Rd, Rn`.
    OneSource {
        op: OneSourceOp,
        sf: bool,
        rn: Reg,
        rd: Reg,
    },
    /// `rev Wd, Wn`, `rev Xd, Xn`, `rev32 Xd, Xn`: bytes reversed.
    Rev {
        op: RevOp,
        rn: Reg,
        rd: Reg,
    },
    /// `b`, `bl target`: a branch to PC plus 4·imm26, imm26 signed; bl writes the address behind it to x30.
    Branch {
        op: BranchOp,
        imm26: U<26>,
    },
    /// `b.cond target`: a branch to PC plus 4·imm19, imm19 signed, where a condition holds.
    BranchCond {
        imm19: U<19>,
        cond: U<4>,
    },
    /// `cbz`, `cbnz Rt, target`: a branch to PC plus 4·imm19, imm19 signed, where a register is 0 or isn't.
    Compare {
        op: CompareOp,
        sf: bool,
        imm19: U<19>,
        rt: Reg,
    },
    /// `tbz`, `tbnz Rt, #b, target`: a branch to PC plus 4·imm14, imm14 signed, where bit b5:b40 of a register is 0 or
    /// is 1.
    Test {
        op: TestOp,
        b5: bool,
        b40: U<5>,
        imm14: U<14>,
        rt: Reg,
    },
    /// `br`, `blr`, `ret Xn`: a branch to the address in a register; blr writes the address behind it to x30.
    BranchReg {
        op: BranchRegOp,
        rn: Reg,
    },
    /// `svc`, `brk`, `hlt #i`: a call of the system, a breakpoint, a halt.
    Except {
        op: ExceptOp,
        imm16: U<16>,
    },
    /// `hint #n`: nothing.
    Hint {
        n: U<7>,
    },
    /// `clrex`, `dsb`, `dmb`, `isb #n`: clrex empties the exclusive monitor, the barriers do nothing.
    Barrier {
        op: BarrierOp,
        n: U<4>,
    },
    /// `mrs Xt, tpidr_el0`, `nzcv`, `dczid_el0`: a system register is read.
    ReadSys {
        op: ReadSysOp,
        rt: Reg,
    },
    /// `msr tpidr_el0, Xt`, `nzcv, Xt`: a system register is written.
    WriteSys {
        op: WriteSysOp,
        rt: Reg,
    },
    /// `ldr`, `str` and their kinds, at `[Xn|SP{, #0}]`: imm12 counts accesses.
    LsUnsigned {
        size: U<2>,
        v: bool,
        opc: U<2>,
        imm12: U<12>,
        rn: Reg,
        rt: Reg,
    },
    /// `ldur`, `stur` and their kinds, at `[Xn|SP{, #0}]`: imm9 is signed, in bytes.
    LsUnscaled {
        size: U<2>,
        v: bool,
        opc: U<2>,
        imm9: U<9>,
        rn: Reg,
        rt: Reg,
    },
    /// `ldr`, `str` and their kinds, at `[Xn|SP], #i`: imm9, signed, in bytes, is added to the base after the access.
    LsPost {
        size: U<2>,
        v: bool,
        opc: U<2>,
        imm9: U<9>,
        rn: Reg,
        rt: Reg,
    },
    /// `ldr`, `str` and their kinds, at `[Xn|SP, #i]!`: imm9, signed, in bytes, is added to the base before the access.
    LsPre {
        size: U<2>,
        v: bool,
        opc: U<2>,
        imm9: U<9>,
        rn: Reg,
        rt: Reg,
    },
    /// `ldr`, `str` and their kinds, at `[Xn|SP, Rm, ext #a]`: ext is 2 uxtw, 3 lsl, 6 sxtw, 7 sxtx; with s the offset
    /// counts accesses, else bytes.
    LsReg {
        size: U<2>,
        v: bool,
        opc: U<2>,
        rm: Reg,
        ext: U<3>,
        s: bool,
        rn: Reg,
        rt: Reg,
    },
    /// `ldr`, `ldrsw`, `prfm Rt, target`: at PC plus 4·imm19, imm19 signed.
    LsLiteral {
        opc: U<2>,
        v: bool,
        imm19: U<19>,
        rt: Reg,
    },
    /// `stp`, `ldp`, `ldpsw`, `stnp`, `ldnp Rt, Rt2, place`: mode is 0 stnp and ldnp, 1 post, 2 offset, 3 pre; l is
    /// true in loads; imm7, signed, counts accesses of one register.
    Pair {
        opc: U<2>,
        v: bool,
        mode: U<2>,
        l: bool,
        imm7: U<7>,
        rt2: Reg,
        rn: Reg,
        rt: Reg,
    },
    /// `stxr`, `stlxr Ws, Rt, [Xn|SP]`: a store of 2^size bytes where the exclusive monitor has them; Ws is 0 where it
    /// is made, else 1.
    StoreEx {
        op: StoreExOp,
        size: U<2>,
        rs: Reg,
        rn: Reg,
        rt: Reg,
    },
    /// `ldxr`, `ldaxr Rt, [Xn|SP]`: a load of 2^size bytes that sets the exclusive monitor.
    LoadEx {
        op: LoadExOp,
        size: U<2>,
        rn: Reg,
        rt: Reg,
    },
    /// `stlr`, `ldar Rt, [Xn|SP]`: a store, a load of 2^size bytes.
    Ordered {
        op: OrderedOp,
        size: U<2>,
        rn: Reg,
        rt: Reg,
    },
    /// `ldadd`, `ldclr`, `ldeor`, `ldset`, `ldsmax`, `ldsmin`, `ldumax`, `ldumin`, `swp Rs, Rt, [Xn|SP]`: a load of
    /// 2^size bytes to Rt and a store of what op makes of them and Rs, as one step.
    Atomic {
        op: AtomicOp,
        size: U<2>,
        acquires: bool,
        releases: bool,
        rs: Reg,
        rn: Reg,
        rt: Reg,
    },
    /// `cas Rs, Rt, [Xn|SP]`: a load of 2^size bytes to Rs, and, where they equal what Rs had, a store of Rt, as one
    /// step.
    CompareSwap {
        size: U<2>,
        acquires: bool,
        releases: bool,
        rs: Reg,
        rn: Reg,
        rt: Reg,
    },
    /// `fmov Wd, Sn`, `Sd, Wn`, `Xd, Dn`, `Dd, Xn`: bits copied between a general and a vector register.
    FMove {
        op: FMoveOp,
        rn: Reg,
        rd: Reg,
    },
    /// `movi`, `mvni`: the byte abc:defgh, placed or spread as cmode says, in each part of a vector register's 128
    /// bits, or 64 where q is false; op says mvni, but where cmode is 14.
    MoveImm {
        q: bool,
        op: bool,
        abc: U<3>,
        cmode: U<4>,
        defgh: U<5>,
        rd: Reg,
    },
}

/// A form that meets its line's condition.
#[derive(Clone, Copy)]
pub struct A64 {
    form: A64Form,
}

impl Model for A64 {
    ghost use Rattle.std.specs.Prelude.{IsTrue};
    ghost use Rattle.a64_insn.specs.declared.form.A64Form.{A64Form};
    ghost use Rattle.a64_insn.specs.Rows.{meets_form};

    ghost Value = { A64Form };

    ghost view = { λ i. i.form };

    ghost invariant = { λ i. IsTrue (meets_form i.form) };

    ghost inverse = { λ f. record { form = f } };
}

impl A64 {
    /// The instruction of this form, or none where the form doesn't meet its line's condition.
    #[inline(always)]
    pub fn new(form: A64Form) -> Option<Self>
        ensures { MatchOption result (meets_form form ≡ false) (λ i. (meets_form form ≡ true) × (i ≡ form)) }
    {
        if meets(&form) {
            Some(A64 { form })
        } else {
            None
        }
    }

    /// Its form.
    pub fn form(&self) -> &A64Form
        ensures form { result.now ≡ self.now }
        ensures meets { meets_form self.now ≡ true }
    {
        &self.form
    }
}
