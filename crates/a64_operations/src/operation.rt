//! What an instruction does, with its operands made ready.
use core_regs::{RegOrSp, Source, Target};
use emu_bits::{Cond, U};

/// What an A64 instruction does: one jump tells it, registers are found by their places, and immediates are as they are
/// used. X and W at the end of a name are the width. An operation has 12 bytes.
#[derive(Clone, Copy)]
pub enum Operation {
    /// What has no operation here: it is done by its form.
    ByForm,
    /// `nop` and the other hints.
    Nothing,
    /// `add Xd|SP, Xn|SP, #imm`.
    AddImmX {
        d: RegOrSp,
        n: RegOrSp,
        imm: u32,
    },
    /// `sub Xd|SP, Xn|SP, #imm`.
    SubImmX {
        d: RegOrSp,
        n: RegOrSp,
        imm: u32,
    },
    /// `adds Xd, Xn|SP, #imm`.
    AddsImmX {
        d: Target,
        n: RegOrSp,
        imm: u32,
    },
    /// `subs Xd, Xn|SP, #imm`.
    SubsImmX {
        d: Target,
        n: RegOrSp,
        imm: u32,
    },
    /// `add Xd, Xn, Xm, lsl #amount`.
    AddRegX {
        d: Target,
        n: Source,
        m: Source,
        amount: U<6>,
    },
    /// `sub Xd, Xn, Xm, lsl #amount`.
    SubRegX {
        d: Target,
        n: Source,
        m: Source,
        amount: U<6>,
    },
    /// `adds Xd, Xn, Xm, lsl #amount`.
    AddsRegX {
        d: Target,
        n: Source,
        m: Source,
        amount: U<6>,
    },
    /// `subs Xd, Xn, Xm, lsl #amount`.
    SubsRegX {
        d: Target,
        n: Source,
        m: Source,
        amount: U<6>,
    },
    /// `add Wd|SP, Wn|SP, #imm`.
    AddImmW {
        d: RegOrSp,
        n: RegOrSp,
        imm: u32,
    },
    /// `sub Wd|SP, Wn|SP, #imm`.
    SubImmW {
        d: RegOrSp,
        n: RegOrSp,
        imm: u32,
    },
    /// `adds Wd, Wn|SP, #imm`.
    AddsImmW {
        d: Target,
        n: RegOrSp,
        imm: u32,
    },
    /// `subs Wd, Wn|SP, #imm`.
    SubsImmW {
        d: Target,
        n: RegOrSp,
        imm: u32,
    },
    /// `add Wd, Wn, Wm, lsl #amount`.
    AddRegW {
        d: Target,
        n: Source,
        m: Source,
        amount: U<6>,
    },
    /// `sub Wd, Wn, Wm, lsl #amount`.
    SubRegW {
        d: Target,
        n: Source,
        m: Source,
        amount: U<6>,
    },
    /// `adds Wd, Wn, Wm, lsl #amount`.
    AddsRegW {
        d: Target,
        n: Source,
        m: Source,
        amount: U<6>,
    },
    /// `subs Wd, Wn, Wm, lsl #amount`.
    SubsRegW {
        d: Target,
        n: Source,
        m: Source,
        amount: U<6>,
    },
    /// `add Rd, Rn, Rm, lsr #amount`, with sf X registers.
    AddLsr {
        sf: bool,
        d: Target,
        n: Source,
        m: Source,
        amount: U<6>,
    },
    /// `add Xd|SP, Xn|SP, Wm, uxtw #amount`.
    AddUxtw {
        d: RegOrSp,
        n: RegOrSp,
        m: Source,
        amount: U<6>,
    },
    /// `add Xd|SP, Xn|SP, Wm, sxtw #amount`.
    AddSxtw {
        d: RegOrSp,
        n: RegOrSp,
        m: Source,
        amount: U<6>,
    },
    /// `and Xd|SP, Xn, #mask`, the mask in two halves.
    AndImmX {
        d: RegOrSp,
        n: Source,
        low: u32,
        high: u32,
    },
    /// `and Wd|SP, Wn, #mask`.
    AndImmW {
        d: RegOrSp,
        n: Source,
        mask: u32,
    },
    /// `orr Xd|SP, Xn, #mask`, the mask in two halves.
    OrrImmX {
        d: RegOrSp,
        n: Source,
        low: u32,
        high: u32,
    },
    /// `orr Wd|SP, Wn, #mask`.
    OrrImmW {
        d: RegOrSp,
        n: Source,
        mask: u32,
    },
    /// `eor Xd|SP, Xn, #mask`, the mask in two halves.
    EorImmX {
        d: RegOrSp,
        n: Source,
        low: u32,
        high: u32,
    },
    /// `eor Wd|SP, Wn, #mask`.
    EorImmW {
        d: RegOrSp,
        n: Source,
        mask: u32,
    },
    /// `ands Xd, Xn, #mask`, the mask in two halves.
    AndsImmX {
        d: Target,
        n: Source,
        low: u32,
        high: u32,
    },
    /// `ands Wd, Wn, #mask`.
    AndsImmW {
        d: Target,
        n: Source,
        mask: u32,
    },
    /// `and Xd, Xn, Xm, lsl #amount`.
    AndRegX {
        d: Target,
        n: Source,
        m: Source,
        amount: U<6>,
    },
    /// `bic Xd, Xn, Xm, lsl #amount`.
    BicRegX {
        d: Target,
        n: Source,
        m: Source,
        amount: U<6>,
    },
    /// `orr Xd, Xn, Xm, lsl #amount`.
    OrrRegX {
        d: Target,
        n: Source,
        m: Source,
        amount: U<6>,
    },
    /// `orn Xd, Xn, Xm, lsl #amount`.
    OrnRegX {
        d: Target,
        n: Source,
        m: Source,
        amount: U<6>,
    },
    /// `eor Xd, Xn, Xm, lsl #amount`.
    EorRegX {
        d: Target,
        n: Source,
        m: Source,
        amount: U<6>,
    },
    /// `ands Xd, Xn, Xm, lsl #amount`.
    AndsRegX {
        d: Target,
        n: Source,
        m: Source,
        amount: U<6>,
    },
    /// `and Wd, Wn, Wm, lsl #amount`.
    AndRegW {
        d: Target,
        n: Source,
        m: Source,
        amount: U<6>,
    },
    /// `bic Wd, Wn, Wm, lsl #amount`.
    BicRegW {
        d: Target,
        n: Source,
        m: Source,
        amount: U<6>,
    },
    /// `orr Wd, Wn, Wm, lsl #amount`.
    OrrRegW {
        d: Target,
        n: Source,
        m: Source,
        amount: U<6>,
    },
    /// `orn Wd, Wn, Wm, lsl #amount`.
    OrnRegW {
        d: Target,
        n: Source,
        m: Source,
        amount: U<6>,
    },
    /// `eor Wd, Wn, Wm, lsl #amount`.
    EorRegW {
        d: Target,
        n: Source,
        m: Source,
        amount: U<6>,
    },
    /// `ands Wd, Wn, Wm, lsl #amount`.
    AndsRegW {
        d: Target,
        n: Source,
        m: Source,
        amount: U<6>,
    },
    /// `eor Wd, Wn, Wm, lsr #amount`.
    EorLsrW {
        d: Target,
        n: Source,
        m: Source,
        amount: U<6>,
    },
    /// `movz`, `movn Rd, #imm`: the 64 bits that are written, in two halves.
    Mov {
        d: Target,
        low: u32,
        high: u32,
    },
    /// `movk Rd, #imm, lsl #(16 * hw)`: of 64 bits where sf is set, else of 32.
    Movk {
        sf: bool,
        d: Target,
        old: Source,
        hw: U<2>,
        imm: u16,
    },
    /// `adr Xd, target`: so many bytes from PC.
    Adr {
        d: Target,
        by: i32,
    },
    /// `adrp Xd, target`: so many pages of 4,096 bytes from that of PC.
    Adrp {
        d: Target,
        by: i32,
    },
    /// `ubfm Xd, Xn, ..`: moved left, and then right with zeros above.
    UbfmX {
        d: Target,
        n: Source,
        left: U<6>,
        right: U<6>,
    },
    /// `sbfm Xd, Xn, ..`: moved left, and then right with copies of the top bit above.
    SbfmX {
        d: Target,
        n: Source,
        left: U<6>,
        right: U<6>,
    },
    /// `ubfm Wd, Wn, ..`: moved left, and then right with zeros above.
    UbfmW {
        d: Target,
        n: Source,
        left: U<6>,
        right: U<6>,
    },
    /// `sbfm Wd, Wn, ..`: moved left, and then right with copies of the top bit above.
    SbfmW {
        d: Target,
        n: Source,
        left: U<6>,
        right: U<6>,
    },
    /// `lslv Xd, Xn, Xm`.
    LslvX {
        d: Target,
        n: Source,
        m: Source,
    },
    /// `lsrv Xd, Xn, Xm`.
    LsrvX {
        d: Target,
        n: Source,
        m: Source,
    },
    /// `udiv Xd, Xn, Xm`.
    UdivX {
        d: Target,
        n: Source,
        m: Source,
    },
    /// `madd Xd, Xn, Xm, Xa`.
    MaddX {
        d: Target,
        n: Source,
        m: Source,
        a: Source,
    },
    /// `msub Xd, Xn, Xm, Xa`.
    MsubX {
        d: Target,
        n: Source,
        m: Source,
        a: Source,
    },
    /// `csel Xd, Xn, Xm, cond`.
    CselX {
        d: Target,
        n: Source,
        m: Source,
        cond: Cond,
    },
    /// `csinc Xd, Xn, Xm, cond`.
    CsincX {
        d: Target,
        n: Source,
        m: Source,
        cond: Cond,
    },
    /// `csinv Xd, Xn, Xm, cond`.
    CsinvX {
        d: Target,
        n: Source,
        m: Source,
        cond: Cond,
    },
    /// `csneg Xd, Xn, Xm, cond`.
    CsnegX {
        d: Target,
        n: Source,
        m: Source,
        cond: Cond,
    },
    /// `lslv Wd, Wn, Wm`.
    LslvW {
        d: Target,
        n: Source,
        m: Source,
    },
    /// `lsrv Wd, Wn, Wm`.
    LsrvW {
        d: Target,
        n: Source,
        m: Source,
    },
    /// `udiv Wd, Wn, Wm`.
    UdivW {
        d: Target,
        n: Source,
        m: Source,
    },
    /// `madd Wd, Wn, Wm, Wa`.
    MaddW {
        d: Target,
        n: Source,
        m: Source,
        a: Source,
    },
    /// `msub Wd, Wn, Wm, Wa`.
    MsubW {
        d: Target,
        n: Source,
        m: Source,
        a: Source,
    },
    /// `csel Wd, Wn, Wm, cond`.
    CselW {
        d: Target,
        n: Source,
        m: Source,
        cond: Cond,
    },
    /// `csinc Wd, Wn, Wm, cond`.
    CsincW {
        d: Target,
        n: Source,
        m: Source,
        cond: Cond,
    },
    /// `csinv Wd, Wn, Wm, cond`.
    CsinvW {
        d: Target,
        n: Source,
        m: Source,
        cond: Cond,
    },
    /// `csneg Wd, Wn, Wm, cond`.
    CsnegW {
        d: Target,
        n: Source,
        m: Source,
        cond: Cond,
    },
    /// `b target`: so many bytes from PC.
    B {
        by: i32,
    },
    /// `bl target`.
    Bl {
        by: i32,
    },
    /// `b.eq target`.
    BEq {
        by: i32,
    },
    /// `b.ne target`.
    BNe {
        by: i32,
    },
    /// `b.cs target`.
    BCs {
        by: i32,
    },
    /// `b.cc target`.
    BCc {
        by: i32,
    },
    /// `b.mi target`.
    BMi {
        by: i32,
    },
    /// `b.hi target`.
    BHi {
        by: i32,
    },
    /// `b.ls target`.
    BLs {
        by: i32,
    },
    /// `b.ge target`.
    BGe {
        by: i32,
    },
    /// `b.lt target`.
    BLt {
        by: i32,
    },
    /// `b.gt target`.
    BGt {
        by: i32,
    },
    /// `b.le target`.
    BLe {
        by: i32,
    },
    /// `b.cond target`, of the conditions that have no variant of their own.
    BCond {
        cond: Cond,
        by: i32,
    },
    /// `cbz Xt, target`.
    CbzX {
        t: Source,
        by: i32,
    },
    /// `cbnz Xt, target`.
    CbnzX {
        t: Source,
        by: i32,
    },
    /// `cbz Wt, target`.
    CbzW {
        t: Source,
        by: i32,
    },
    /// `cbnz Wt, target`.
    CbnzW {
        t: Source,
        by: i32,
    },
    /// `tbz Rt, #place, target`.
    Tbz {
        t: Source,
        place: U<6>,
        by: i32,
    },
    /// `tbnz Rt, #place, target`.
    Tbnz {
        t: Source,
        place: U<6>,
        by: i32,
    },
    /// `br`, `ret Xn`.
    Br {
        n: Source,
    },
    /// `blr Xn`.
    Blr {
        n: Source,
    },
    /// `ldrb Wt, [Xn|SP, #by]`.
    LdrB {
        t: Target,
        n: RegOrSp,
        by: i32,
    },
    /// `strb Wt, [Xn|SP, #by]`.
    StrB {
        t: Source,
        n: RegOrSp,
        by: i32,
    },
    /// `ldrh Wt, [Xn|SP, #by]`.
    LdrH {
        t: Target,
        n: RegOrSp,
        by: i32,
    },
    /// `strh Wt, [Xn|SP, #by]`.
    StrH {
        t: Source,
        n: RegOrSp,
        by: i32,
    },
    /// `ldr Wt, [Xn|SP, #by]`.
    LdrW {
        t: Target,
        n: RegOrSp,
        by: i32,
    },
    /// `str Wt, [Xn|SP, #by]`.
    StrW {
        t: Source,
        n: RegOrSp,
        by: i32,
    },
    /// `ldr Xt, [Xn|SP, #by]`.
    LdrX {
        t: Target,
        n: RegOrSp,
        by: i32,
    },
    /// `str Xt, [Xn|SP, #by]`.
    StrX {
        t: Source,
        n: RegOrSp,
        by: i32,
    },
    /// `ldrsw Xt, [Xn|SP, #by]`.
    Ldrsw {
        t: Target,
        n: RegOrSp,
        by: i32,
    },
    /// `ldrb Wt, [Xn|SP, Xm, lsl #amount]`.
    LdrBLsl {
        t: Target,
        n: RegOrSp,
        m: Source,
        amount: U<6>,
    },
    /// `ldrb Wt, [Xn|SP, Wm, uxtw #amount]`.
    LdrBUxtw {
        t: Target,
        n: RegOrSp,
        m: Source,
        amount: U<6>,
    },
    /// `ldrb Wt, [Xn|SP, Wm, sxtw #amount]`.
    LdrBSxtw {
        t: Target,
        n: RegOrSp,
        m: Source,
        amount: U<6>,
    },
    /// `strb Wt, [Xn|SP, Xm, lsl #amount]`.
    StrBLsl {
        t: Source,
        n: RegOrSp,
        m: Source,
        amount: U<6>,
    },
    /// `ldrh Wt, [Xn|SP, Xm, lsl #amount]`.
    LdrHLsl {
        t: Target,
        n: RegOrSp,
        m: Source,
        amount: U<6>,
    },
    /// `strh Wt, [Xn|SP, Xm, lsl #amount]`.
    StrHLsl {
        t: Source,
        n: RegOrSp,
        m: Source,
        amount: U<6>,
    },
    /// `ldr Wt, [Xn|SP, Xm, lsl #amount]`.
    LdrWLsl {
        t: Target,
        n: RegOrSp,
        m: Source,
        amount: U<6>,
    },
    /// `ldr Wt, [Xn|SP, Wm, uxtw #amount]`.
    LdrWUxtw {
        t: Target,
        n: RegOrSp,
        m: Source,
        amount: U<6>,
    },
    /// `ldr Wt, [Xn|SP, Wm, sxtw #amount]`.
    LdrWSxtw {
        t: Target,
        n: RegOrSp,
        m: Source,
        amount: U<6>,
    },
    /// `str Wt, [Xn|SP, Xm, lsl #amount]`.
    StrWLsl {
        t: Source,
        n: RegOrSp,
        m: Source,
        amount: U<6>,
    },
    /// `ldr Xt, [Xn|SP, Xm, lsl #amount]`.
    LdrXLsl {
        t: Target,
        n: RegOrSp,
        m: Source,
        amount: U<6>,
    },
    /// `ldr Xt, [Xn|SP, Wm, uxtw #amount]`.
    LdrXUxtw {
        t: Target,
        n: RegOrSp,
        m: Source,
        amount: U<6>,
    },
    /// `ldr Xt, [Xn|SP, Wm, sxtw #amount]`.
    LdrXSxtw {
        t: Target,
        n: RegOrSp,
        m: Source,
        amount: U<6>,
    },
    /// `str Xt, [Xn|SP, Xm, lsl #amount]`.
    StrXLsl {
        t: Source,
        n: RegOrSp,
        m: Source,
        amount: U<6>,
    },
    /// `ldrsw Xt, [Xn|SP, Xm, lsl #amount]`.
    LdrswLsl {
        t: Target,
        n: RegOrSp,
        m: Source,
        amount: U<6>,
    },
    /// `ldrb Wt, [Xn|SP], #by`.
    LdrBPost {
        t: Target,
        n: RegOrSp,
        by: i32,
    },
    /// `strb Wt, [Xn|SP], #by`.
    StrBPost {
        t: Source,
        n: RegOrSp,
        by: i32,
    },
    /// `ldr Wt, [Xn|SP], #by`.
    LdrWPost {
        t: Target,
        n: RegOrSp,
        by: i32,
    },
    /// `str Wt, [Xn|SP], #by`.
    StrWPost {
        t: Source,
        n: RegOrSp,
        by: i32,
    },
    /// `ldr Xt, [Xn|SP], #by`.
    LdrXPost {
        t: Target,
        n: RegOrSp,
        by: i32,
    },
    /// `str Xt, [Xn|SP], #by`.
    StrXPost {
        t: Source,
        n: RegOrSp,
        by: i32,
    },
    /// `ldr Xt, [Xn|SP, #by]!`.
    LdrXPre {
        t: Target,
        n: RegOrSp,
        by: i32,
    },
    /// `str Xt, [Xn|SP, #by]!`.
    StrXPre {
        t: Source,
        n: RegOrSp,
        by: i32,
    },
    /// `ldp Xt, Xu, [Xn|SP, #by]`.
    Ldp {
        t: Target,
        u: Target,
        n: RegOrSp,
        by: i32,
    },
    /// `stp Xt, Xu, [Xn|SP, #by]`.
    Stp {
        t: Source,
        u: Source,
        n: RegOrSp,
        by: i32,
    },
    /// `ldp Xt, Xu, [Xn|SP], #by`.
    LdpPost {
        t: Target,
        u: Target,
        n: RegOrSp,
        by: i32,
    },
    /// `stp Xt, Xu, [Xn|SP], #by`.
    StpPost {
        t: Source,
        u: Source,
        n: RegOrSp,
        by: i32,
    },
    /// `ldp Xt, Xu, [Xn|SP, #by]!`.
    LdpPre {
        t: Target,
        u: Target,
        n: RegOrSp,
        by: i32,
    },
    /// `stp Xt, Xu, [Xn|SP, #by]!`.
    StpPre {
        t: Source,
        u: Source,
        n: RegOrSp,
        by: i32,
    },
}
