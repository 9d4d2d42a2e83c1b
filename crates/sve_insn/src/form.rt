//! The forms, and instructions that meet their conditions.
ghost use Rattle.std.specs.Prelude.{◌≡◌, MatchOption, true, false};
ghost use Rattle.sve_insn.specs.Rows.{meets_form};

use crate::conditions::meets;
use crate::ops::{
    AddLengthOp, BinaryOp, BitmaskZOp, BreakOp, BreakPairOp, CmpSImmOp, CmpUImmOp, CmpVecOp,
    CmpWideOp, CondLastOp, CopyRegOp, CtermOp, DotIndexedOp, DotOp, IncOp, IncPOp, IndexOp,
    InsertOp, InterleaveOp, LastOp, LoadManyOp, LogicPOp, LogicZOp, MinMaxImmOp, MulAddDOp,
    MulAddZOp, PlainOp, PtrueOp, ReadFfrOp, ReduceOp, SatOp, ShiftImmOp, ShiftOp, StoreManyOp,
    UnaryOp, UnpackOp, UnpackPOp, WhileOp, WideImmOp, WriteFfrOp,
};
use emu_bits::{Pred, PredLow, Reg, U};
use std::marker::Model;

/// An instruction's form: the line of the table and the raw bits of its fields, highest first.
///
/// Lanes have 8·2^size bits: size is 0 b, 1 h, 2 s, 3 d, and T in the operands is that letter. zd, zdn, zda, zt, zn, zm
/// and za are vector registers, vd the low lane of one, pd, pdn, pdm, pt, pn and pm predicates, rd, rdn, rn and rm
/// general registers. A lane is active where its bit of the governing predicate pg is set; /m keeps the other lanes, /z
/// makes them 0. A pattern is 0 pow2, 1 to 8 vl1 to vl8, 9 to 13 vl16 to vl256, 29 mul4, 30 mul3, 31 all; others count
/// no lane.
///
/// Elements of memory have 2^msz bytes, #s is msz, and Xn is rn, whose number 31 is SP. In gathers u is true where the
/// sign isn't extended, and ff in first-faulting ones (`ldff1`).
#[derive(Clone, Copy)]
#[rattlefmt::skip]
pub enum SveForm {
    /// `add`, `sub`, `subr`, `smax`, `umax`, `smin`, `umin`, `sabd`, `uabd`, `mul`, `smulh`, `umulh`, `sdiv`, `udiv`,
    /// `sdivr`, `udivr`, `orr`, `eor`, `and`, `bic`, `asr`, `lsr`, `lsl`, `asrr`, `lsrr`, `lslr Zdn.T, Pg/m, Zdn.T,
    /// Zm.T`: the result of two lanes where active; smulh and umulh give the upper half of a product, sabd and uabd a
    /// difference's amount; subr, divisions and shifts with an r at the end take the operands in the other order;
    /// divisions are of 32 and 64 bits alone.
    Binary { op: BinaryOp, size: U<2>, pg: PredLow, zm: Reg, zdn: Reg },
    /// `asr`, `lsr`, `lsl Zdn.T, Pg/m, Zdn.T, Zm.d`: shifts where active of lanes below 64 bits, by the 64-bit lane
    /// of Zm that covers each.
    BinaryWide { op: ShiftOp, size: U<2>, pg: PredLow, zm: Reg, zdn: Reg },
    /// `asr`, `lsr`, `lsl`, `asrd Zdn.T, Pg/m, Zdn.T, #n`: shifts by an immediate where active, asrd a signed
    /// division by 2^n towards zero; the highest set bit of tszh:tszl gives the lanes' size, and with imm3 behind it
    /// they give n.
    ShiftImm { op: ShiftImmOp, tszh: U<2>, pg: PredLow, tszl: U<2>, imm3: U<3>, zdn: Reg },
    /// `sxtb`, `uxtb`, `sxth`, `uxth`, `sxtw`, `uxtw`, `abs`, `neg`, `cls`, `clz`, `cnt`, `cnot`, `not`, `revb`,
    /// `revh`, `revw`, `rbit Zd.T, Pg/m, Zn.T`: the result of one lane where active: the low 8, 16 or 32 bits
    /// extended, arithmetic, counts of bits, and 8, 16, 32 bits or single bits reversed.
    Unary { op: UnaryOp, size: U<2>, pg: PredLow, zn: Reg, zd: Reg },
    /// `mla`, `mls Zda.T, Pg/m, Zn.T, Zm.T`: where active a product is added to Zda, or subtracted from it.
    MulAddZ { op: MulAddZOp, size: U<2>, zm: Reg, pg: PredLow, zn: Reg, zda: Reg },
    /// `mad`, `msb Zdn.T, Pg/m, Zm.T, Za.T`: where active the product of Zdn and Zm, added to Za or subtracted from
    /// it.
    MulAddD { op: MulAddDOp, size: U<2>, zm: Reg, pg: PredLow, za: Reg, zdn: Reg },
    /// `add`, `sub`, `sqadd`, `uqadd`, `sqsub`, `uqsub Zd.T, Zn.T, Zm.T`: sums and differences, those with sq or uq
    /// before them saturating.
    Plain { op: PlainOp, size: U<2>, zm: Reg, zn: Reg, zd: Reg },
    /// `and`, `orr`, `eor`, `bic Zd.d, Zn.d, Zm.d`: logical operations; bic takes the complement of Zm.
    LogicZ { op: LogicZOp, zm: Reg, zn: Reg, zd: Reg },
    /// `asr`, `lsr`, `lsl Zd.T, Zn.T, Zm.d`: shifts of lanes below 64 bits, by the 64-bit lane of Zm that covers
    /// each.
    PlainWide { op: ShiftOp, size: U<2>, zm: Reg, zn: Reg, zd: Reg },
    /// `asr`, `lsr`, `lsl Zd.T, Zn.T, #n`: shifts by an immediate; the highest set bit of tszh:tszl gives the lanes'
    /// size, and with imm3 behind it they give n.
    PlainShift { op: ShiftOp, tszh: U<2>, tszl: U<2>, imm3: U<3>, zn: Reg, zd: Reg },
    /// `index Zd.T, #i, #j`, `index Zd.T, Rn, #j`, `index Zd.T, #i, Rm`, `index Zd.T, Rn, Rm`: lane k is x + k·y; x
    /// and y are signed numbers or registers' numbers, as op says.
    Index { op: IndexOp, size: U<2>, y: U<5>, x: U<5>, zd: Reg },
    /// `sdot`, `udot Zda.T, Zn.Tq, Zm.Tq`: the sum of the products of the four quarters of lanes of 32 or 64 bits,
    /// added to Zda.
    Dot { op: DotOp, size: U<2>, zm: Reg, zn: Reg, zda: Reg },
    /// `sdot`, `udot Zda.s, Zn.b, Zm.b[i]`, `sdot`, `udot Zda.d, Zn.h, Zm.h[i]`: the same with the quarters of lane i
    /// of the same 128 bits of Zm; i_zm is i above the number of Zm, which have 2 and 3 bits for lanes of 32 bits, 1
    /// and 4 bits for lanes of 64.
    DotIndexed { op: DotIndexedOp, i_zm: U<5>, zn: Reg, zda: Reg },
    /// `add`, `sub`, `subr`, `sqadd`, `uqadd`, `sqsub`, `uqsub Zdn.T, Zdn.T, #i{, lsl #0}`: sums and differences with
    /// the unsigned imm8, which sh shifts by 8; those with sq or uq before them saturate, subr subtracts from the
    /// immediate.
    WideImm { op: WideImmOp, size: U<2>, sh: bool, imm8: U<8>, zdn: Reg },
    /// `smax`, `smin`, `mul`, `umax`, `umin Zdn.T, Zdn.T, #i`: the greater, the smaller or the product of a lane and
    /// imm8, which is signed for smax, smin and mul, unsigned for umax and umin.
    MinMaxImm { op: MinMaxImmOp, size: U<2>, imm8: U<8>, zdn: Reg },
    /// `dup Zd.T, #i{, lsl #0}`: the signed imm8, which sh shifts by 8, in each lane.
    DupImm { size: U<2>, sh: bool, imm8: U<8>, zd: Reg },
    /// `orr`, `eor`, `and Zdn.d, Zdn.d, #m`, `dupm Zd.d, #m`: logical operations with a bitmask immediate of 64 bits,
    /// of the fields n, immr and imms; dupm puts it in each lane.
    BitmaskZ { op: BitmaskZOp, n: bool, immr: U<6>, imms: U<6>, zdn: Reg },
    /// `cpy Zd.T, Pg/m, #i{, lsl #0}`, `cpy Zd.T, Pg/z, #i{, lsl #0}`: the signed imm8, which sh shifts by 8, in
    /// active lanes; the others are kept where m is true (/m), else 0.
    CopyImm { size: U<2>, pg: Pred, m: bool, sh: bool, imm8: U<8>, zd: Reg },
    /// `movprfx Zd.T, Pg/m, Zn.T`, `movprfx Zd.T, Pg/z, Zn.T`: active lanes are copied; the others are kept where m
    /// is true (/m), else 0.
    PrefixP { size: U<2>, m: bool, pg: PredLow, zn: Reg, zd: Reg },
    /// `movprfx Zd, Zn`: a copy.
    Prefix { zn: Reg, zd: Reg },
    /// `sel Zd.T, Pg, Zn.T, Zm.T`: lanes of Zn where active, else of Zm.
    SelectZ { size: U<2>, zm: Reg, pg: Pred, zn: Reg, zd: Reg },
    /// `saddv`, `uaddv`, `smaxv`, `umaxv`, `sminv`, `uminv`, `orv`, `eorv`, `andv Vd, Pg, Zn.T`: the sum, greatest,
    /// smallest, or, exclusive or, and of the active lanes; sums have 64 bits, and saddv is of lanes below 64 bits.
    Reduce { op: ReduceOp, size: U<2>, pg: PredLow, zn: Reg, vd: Reg },
    /// `cntb Xd{, all, mul #1}` and with h, w, d by size: imm4 plus 1, times the number of lanes that the pattern
    /// counts.
    Count { size: U<2>, imm4: U<4>, pattern: U<5>, rd: Reg },
    /// `incb`, `decb Xdn{, all, mul #1}` and with h, w, d by size: that number added to a register, or subtracted.
    IncX { op: IncOp, size: U<2>, imm4: U<4>, pattern: U<5>, rdn: Reg },
    /// `inch`, `dech Zdn.T{, all, mul #1}` and with w, d by size: that number added to each lane, or subtracted.
    IncZ { op: IncOp, size: U<2>, imm4: U<4>, pattern: U<5>, zdn: Reg },
    /// `sqincb`, `uqincb`, `sqdecb`, `uqdecb Xdn{, all, mul #1}`, with sf false `Xdn, Wdn` or for uq `Wdn`, and with
    /// h, w, d by size: that number added to a register or subtracted, saturating at 64 bits, or at 32 where sf is
    /// false.
    SatX { op: SatOp, size: U<2>, sf: bool, imm4: U<4>, pattern: U<5>, rdn: Reg },
    /// `sqinch`, `uqinch`, `sqdech`, `uqdech Zdn.T{, all, mul #1}` and with w, d by size: that number added to each
    /// lane or subtracted, saturating.
    SatZ { op: SatOp, size: U<2>, imm4: U<4>, pattern: U<5>, zdn: Reg },
    /// `addvl`, `addpl Xd|SP, Xn|SP, #i`: a register and the signed imm6 times the bytes of a vector register
    /// (addvl), or of a predicate register (addpl).
    AddLength { op: AddLengthOp, rn: Reg, imm6: U<6>, rd: Reg },
    /// `rdvl Xd, #i`: the signed imm6 times the bytes of a vector register.
    ReadLength { imm6: U<6>, rd: Reg },
    /// `dup Zd.T, Rn|SP`: a register in each lane.
    DupReg { size: U<2>, rn: Reg, zd: Reg },
    /// `dup Zd.T, Zn.T[i]`: lane i in each lane, 0 where there is none; the lowest set bit of tsz gives the lanes'
    /// size, b, h, s, d or q, and i is imm2:tsz above that bit.
    DupLane { imm2: U<2>, tsz: U<5>, zn: Reg, zd: Reg },
    /// `insr Zdn.T, Rm`, `insr Zdn.T, Vm`: lanes move up by one, and lane 0 is the source, a general or a vector
    /// register as op says.
    Insert { op: InsertOp, size: U<2>, src: Reg, zdn: Reg },
    /// `rev Zd.T, Zn.T`: the lanes in reverse order.
    RevZ { size: U<2>, zn: Reg, zd: Reg },
    /// `sunpklo`, `sunpkhi`, `uunpklo`, `uunpkhi Zd.T, Zn.Th`: lanes of half the size from the low or the high half,
    /// extended.
    Unpack { op: UnpackOp, size: U<2>, zn: Reg, zd: Reg },
    /// `tbl Zd.T, {Zn.T}, Zm.T`: the lanes of Zn that the lanes of Zm number, 0 where there is none.
    Table { size: U<2>, zm: Reg, zn: Reg, zd: Reg },
    /// `zip1`, `zip2`, `uzp1`, `uzp2`, `trn1`, `trn2 Zd.T, Zn.T, Zm.T`: lanes of two registers in turn (zip), the
    /// even or odd lanes of both (uzp), the even or odd lanes of both in turn (trn).
    Interleave { op: InterleaveOp, size: U<2>, zm: Reg, zn: Reg, zd: Reg },
    /// `zip1`, `zip2`, `uzp1`, `uzp2`, `trn1`, `trn2 Pd.T, Pn.T, Pm.T`: the same on the fields of predicates.
    InterleaveP { op: InterleaveOp, size: U<2>, pm: Pred, pn: Pred, pd: Pred },
    /// `punpklo`, `punpkhi Pd.h, Pn.b`: the bits of the low or the high half, each to an even place.
    UnpackP { op: UnpackPOp, pn: Pred, pd: Pred },
    /// `rev Pd.T, Pn.T`: the fields in reverse order.
    RevP { size: U<2>, pn: Pred, pd: Pred },
    /// `compact Zd.T, Pg, Zn.T`: the active lanes of 32 or 64 bits in order, and 0 behind them.
    Compact { size: U<2>, pg: PredLow, zn: Reg, zd: Reg },
    /// `splice Zdn.T, Pg, Zdn.T, Zm.T`: the lanes from the first active one to the last, then those of Zm.
    Splice { size: U<2>, pg: PredLow, zm: Reg, zdn: Reg },
    /// `ext Zdn.b, Zdn.b, Zm.b, #i`: the bytes from place i on of Zdn followed by Zm; i is imm8h:imm8l.
    Ext { imm8h: U<5>, imm8l: U<3>, zm: Reg, zdn: Reg },
    /// `cpy Zd.T, Pg/m, Rn|SP`, `cpy Zd.T, Pg/m, Vn`: active lanes are the source, a general or a vector register as
    /// op says.
    CopyReg { op: CopyRegOp, size: U<2>, pg: PredLow, rn: Reg, zd: Reg },
    /// `lasta`, `lastb Rd, Pg, Zn.T`, `lasta`, `lastb Vd, Pg, Zn.T`: the lane after the last active one (lasta), or
    /// that one (lastb), to a general or a vector register as op says.
    Last { op: LastOp, size: U<2>, pg: PredLow, zn: Reg, rd: Reg },
    /// `clasta`, `clastb Rdn, Pg, Rdn, Zm.T`, `clasta`, `clastb Vdn, Pg, Vdn, Zm.T`, `clasta`, `clastb Zdn.T, Pg,
    /// Zdn.T, Zm.T`: the same lane where one is active, else the destination's low lane; zdn numbers a general or a
    /// vector register, or a vector register whose lanes all get it and that stays where none is active, as op says.
    CondLast { op: CondLastOp, size: U<2>, pg: PredLow, zm: Reg, zdn: Reg },
    /// `cmphs`, `cmphi`, `cmpge`, `cmpgt`, `cmpeq`, `cmpne Pd.T, Pg/z, Zn.T, Zm.T`: comparisons of lanes, which set
    /// the flags, as all comparisons do.
    CmpVec { op: CmpVecOp, size: U<2>, zm: Reg, pg: PredLow, zn: Reg, pd: Pred },
    /// `cmpeq`, `cmpne`, `cmpge`, `cmpgt`, `cmplt`, `cmple`, `cmphs`, `cmphi`, `cmplo`, `cmpls Pd.T, Pg/z, Zn.T,
    /// Zm.d`: comparisons of lanes below 64 bits with the 64-bit lane of Zm that covers each.
    CmpWide { op: CmpWideOp, size: U<2>, zm: Reg, pg: PredLow, zn: Reg, pd: Pred },
    /// `cmphs`, `cmphi`, `cmplo`, `cmpls Pd.T, Pg/z, Zn.T, #i`: comparisons with the unsigned imm7.
    CmpUImm { op: CmpUImmOp, size: U<2>, imm7: U<7>, pg: PredLow, zn: Reg, pd: Pred },
    /// `cmpge`, `cmpgt`, `cmplt`, `cmple`, `cmpeq`, `cmpne Pd.T, Pg/z, Zn.T, #i`: comparisons with the signed imm5.
    CmpSImm { op: CmpSImmOp, size: U<2>, imm5: U<5>, pg: PredLow, zn: Reg, pd: Pred },
    /// `and`, `bic`, `eor`, `orr`, `orn`, `nor`, `nand Pd.b, Pg/z, Pn.b, Pm.b`: logical operations of predicates; s
    /// (an s behind the name) sets the flags.
    LogicP { op: LogicPOp, s: bool, pm: Pred, pg: Pred, pn: Pred, pd: Pred },
    /// `sel Pd.b, Pg, Pn.b, Pm.b`: bits of Pn where active, else of Pm.
    SelectP { pm: Pred, pg: Pred, pn: Pred, pd: Pred },
    /// `brka`, `brkb Pd.b, Pg/z, Pn.b`, `brka`, `brkb Pd.b, Pg/m, Pn.b`: active bits up to the first that is 1 in Pn,
    /// with it (brka) or without it (brkb); the others are kept where m is true (/m, without flags), else 0; s sets
    /// the flags.
    Break { op: BreakOp, s: bool, pg: Pred, pn: Pred, m: bool, pd: Pred },
    /// `brkpa`, `brkpb Pd.b, Pg/z, Pn.b, Pm.b`: the same with Pm, where Pn is 1 at the last active bit, else 0; s
    /// sets the flags.
    BreakPair { op: BreakPairOp, s: bool, pm: Pred, pg: Pred, pn: Pred, pd: Pred },
    /// `brkn Pdm.b, Pg/z, Pn.b, Pdm.b`: Pdm where Pn is 1 at the last active bit, else 0; s sets the flags.
    BreakNext { s: bool, pg: Pred, pn: Pred, pdm: Pred },
    /// `ptest Pg, Pn.b`: the flags of a predicate's active bits.
    Ptest { pg: Pred, pn: Pred },
    /// `pfirst Pdn.b, Pg, Pdn.b`: the first active bit is set, and the flags too.
    First { pg: Pred, pdn: Pred },
    /// `pnext Pdn.T, Pg, Pdn.T`: the first active lane after the last one that is set, alone, and the flags.
    Next { size: U<2>, pg: Pred, pdn: Pred },
    /// `ptrue`, `ptrues Pd.T{, all}`: the lanes that a pattern counts; ptrues sets the flags.
    Ptrue { op: PtrueOp, size: U<2>, pattern: U<5>, pd: Pred },
    /// `pfalse Pd.b`: no lane.
    Pfalse { pd: Pred },
    /// `rdffr`, `rdffrs Pd.b, Pg/z`: the active bits of FFR; rdffrs sets the flags.
    ReadFfr { op: ReadFfrOp, pg: Pred, pd: Pred },
    /// `rdffr Pd.b`: FFR.
    ReadFfrAll { pd: Pred },
    /// `setffr`, `wrffr Pn.b`: FFR is all ones (pn is 0), or Pn.
    WriteFfr { op: WriteFfrOp, pn: Pred },
    /// `cntp Xd, Pg, Pn.T`: the number of active lanes that are set.
    CountP { size: U<2>, pg: Pred, pn: Pred, rd: Reg },
    /// `incp`, `decp Xdn, Pm.T`: the number of lanes set in Pm, added to a register or subtracted.
    IncP { op: IncPOp, size: U<2>, pm: Pred, rdn: Reg },
    /// `incp`, `decp Zdn.T, Pm.T`: the number of lanes set in Pm, added to each lane or subtracted.
    IncPZ { op: IncPOp, size: U<2>, pm: Pred, zdn: Reg },
    /// `whilelt`, `whilele`, `whilelo`, `whilels Pd.T, Rn, Rm`: the lanes below the first k at which Rn + k isn't
    /// less than Rm, or less or equal; signed (lt, le) or unsigned (lo, ls), of 64 bits where sf is true, else 32;
    /// and the flags.
    While { op: WhileOp, size: U<2>, rm: Reg, sf: bool, rn: Reg, pd: Pred },
    /// `ctermeq`, `ctermne Rn, Rm`: N and V tell whether two registers are equal, or different, at 64 bits where sf
    /// is true, else 32.
    Cterm { op: CtermOp, sf: bool, rm: Reg, rn: Reg },
    /// `ld1 {Zt.T}, Pg/z, [Xn|SP{, #0, mul vl}]`: a load; dtype 0 to 15 is b to b, h, s, d; sw to d; h to h, s, d; sh
    /// to d, s; w to s, d; sb to d, s, h; d to d: from memory to a lane, s with the sign extended. imm4 is signed.
    LoadImm { dtype: U<4>, imm4: U<4>, pg: PredLow, rn: Reg, zt: Reg },
    /// `ld1 {Zt.T}, Pg/z, [Xn|SP, Xm, lsl #s]`: the same, with an offset in a register.
    LoadReg { dtype: U<4>, rm: Reg, pg: PredLow, rn: Reg, zt: Reg },
    /// `ldff1 {Zt.T}, Pg/z, [Xn|SP, Xm, lsl #s]`: the same, first-faulting; an offset register 31 is zero.
    LoadFf { dtype: U<4>, rm: Reg, pg: PredLow, rn: Reg, zt: Reg },
    /// `ldnf1 {Zt.T}, Pg/z, [Xn|SP{, #0, mul vl}]`: a load as of `LoadImm`, non-faulting.
    LoadNf { dtype: U<4>, imm4: U<4>, pg: PredLow, rn: Reg, zt: Reg },
    /// `ldnt1 {Zt.T}, Pg/z, [Xn|SP{, #0, mul vl}]`: a non-temporal load of lanes of 2^msz bytes; imm4 is signed.
    LoadNtImm { msz: U<2>, imm4: U<4>, pg: PredLow, rn: Reg, zt: Reg },
    /// `ldnt1 {Zt.T}, Pg/z, [Xn|SP, Xm, lsl #s]`: the same, with an offset in a register.
    LoadNtReg { msz: U<2>, rm: Reg, pg: PredLow, rn: Reg, zt: Reg },
    /// `ld1rq {Zt.T}, Pg/z, [Xn|SP{, #0}]`: a load of 128 bits in lanes of 2^msz bytes, repeated in each 128 bits;
    /// imm4, signed, counts 16 bytes.
    LoadQuadImm { msz: U<2>, imm4: U<4>, pg: PredLow, rn: Reg, zt: Reg },
    /// `ld1rq {Zt.T}, Pg/z, [Xn|SP, Xm, lsl #s]`: the same, with an offset in a register.
    LoadQuadReg { msz: U<2>, rm: Reg, pg: PredLow, rn: Reg, zt: Reg },
    /// `ld2`, `ld3`, `ld4 {Zt.T, ..}, Pg/z, [Xn|SP{, #0, mul vl}]`: lanes of 2^msz bytes of two, three or four
    /// registers from zt on, their elements in turn; imm4, signed, counts all of them.
    LoadManyImm { op: LoadManyOp, msz: U<2>, imm4: U<4>, pg: PredLow, rn: Reg, zt: Reg },
    /// `ld2`, `ld3`, `ld4 {Zt.T, ..}, Pg/z, [Xn|SP, Xm, lsl #s]`: the same, with an offset in a register.
    LoadManyReg { op: LoadManyOp, msz: U<2>, rm: Reg, pg: PredLow, rn: Reg, zt: Reg },
    /// `ld1r {Zt.T}, Pg/z, [Xn|SP{, #0}]`: one element to all active lanes; dtypeh:dtypel is the dtype of `LoadImm`,
    /// and imm6 counts elements.
    LoadOne { dtypeh: U<2>, imm6: U<6>, dtypel: U<2>, pg: PredLow, rn: Reg, zt: Reg },
    /// `ldr Zt, [Xn|SP{, #0, mul vl}]`: a load of a whole vector register; imm9h:imm9l is signed.
    LoadZ { imm9h: U<6>, imm9l: U<3>, rn: Reg, zt: Reg },
    /// `ldr Pt, [Xn|SP{, #0, mul vl}]`: a load of a whole predicate register; imm9h:imm9l is signed.
    LoadP { imm9h: U<6>, imm9l: U<3>, rn: Reg, pt: Pred },
    /// `st1 {Zt.T}, Pg, [Xn|SP{, #0, mul vl}]`: a store of 2^msz bytes of each active lane of 2^size bytes; imm4 is
    /// signed.
    StoreImm { msz: U<2>, size: U<2>, imm4: U<4>, pg: PredLow, rn: Reg, zt: Reg },
    /// `st1 {Zt.T}, Pg, [Xn|SP, Xm, lsl #s]`: the same, with an offset in a register.
    StoreReg { msz: U<2>, size: U<2>, rm: Reg, pg: PredLow, rn: Reg, zt: Reg },
    /// `stnt1 {Zt.T}, Pg, [Xn|SP{, #0, mul vl}]`: a non-temporal store of lanes of 2^msz bytes; imm4 is signed.
    StoreNtImm { msz: U<2>, imm4: U<4>, pg: PredLow, rn: Reg, zt: Reg },
    /// `stnt1 {Zt.T}, Pg, [Xn|SP, Xm, lsl #s]`: the same, with an offset in a register.
    StoreNtReg { msz: U<2>, rm: Reg, pg: PredLow, rn: Reg, zt: Reg },
    /// `st2`, `st3`, `st4 {Zt.T, ..}, Pg, [Xn|SP{, #0, mul vl}]`: lanes of 2^msz bytes of two, three or four
    /// registers from zt on, their elements in turn; imm4, signed, counts all of them.
    StoreManyImm { op: StoreManyOp, msz: U<2>, imm4: U<4>, pg: PredLow, rn: Reg, zt: Reg },
    /// `st2`, `st3`, `st4 {Zt.T, ..}, Pg, [Xn|SP, Xm, lsl #s]`: the same, with an offset in a register.
    StoreManyReg { op: StoreManyOp, msz: U<2>, rm: Reg, pg: PredLow, rn: Reg, zt: Reg },
    /// `str Zt, [Xn|SP{, #0, mul vl}]`: a store of a whole vector register; imm9h:imm9l is signed.
    StoreZ { imm9h: U<6>, imm9l: U<3>, rn: Reg, zt: Reg },
    /// `str Pt, [Xn|SP{, #0, mul vl}]`: a store of a whole predicate register; imm9h:imm9l is signed.
    StoreP { imm9h: U<6>, imm9l: U<3>, rn: Reg, pt: Pred },
    /// `ld1`, `ldff1 {Zt.s}, Pg/z, [Xn|SP, Zm.s, uxtw]`: elements at the sums of Xn and the lanes of Zm, which are
    /// signed (sxtw) where xs is true.
    GatherSx { msz: U<2>, xs: bool, zm: Reg, u: bool, ff: bool, pg: PredLow, rn: Reg, zt: Reg },
    /// `ld1`, `ldff1 {Zt.s}, Pg/z, [Xn|SP, Zm.s, uxtw #s]`: the same with the lanes times 2^msz.
    GatherSxScaled { msz: U<2>, xs: bool, zm: Reg, u: bool, ff: bool, pg: PredLow, rn: Reg, zt: Reg },
    /// `ld1`, `ldff1 {Zt.d}, Pg/z, [Xn|SP, Zm.d, uxtw]`: elements at the sums of Xn and the low halves of the lanes
    /// of Zm, which are signed (sxtw) where xs is true.
    GatherDx { msz: U<2>, xs: bool, zm: Reg, u: bool, ff: bool, pg: PredLow, rn: Reg, zt: Reg },
    /// `ld1`, `ldff1 {Zt.d}, Pg/z, [Xn|SP, Zm.d, uxtw #s]`: the same with the low halves times 2^msz.
    GatherDxScaled { msz: U<2>, xs: bool, zm: Reg, u: bool, ff: bool, pg: PredLow, rn: Reg, zt: Reg },
    /// `ld1`, `ldff1 {Zt.d}, Pg/z, [Xn|SP, Zm.d]`: elements at the sums of Xn and the lanes of Zm.
    GatherD { msz: U<2>, zm: Reg, u: bool, ff: bool, pg: PredLow, rn: Reg, zt: Reg },
    /// `ld1`, `ldff1 {Zt.d}, Pg/z, [Xn|SP, Zm.d, lsl #s]`: the same with the lanes times 2^msz.
    GatherDScaled { msz: U<2>, zm: Reg, u: bool, ff: bool, pg: PredLow, rn: Reg, zt: Reg },
    /// `ld1`, `ldff1 {Zt.s}, Pg/z, [Zn.s{, #0}]`: elements at the lanes of Zn, which are unsigned, and imm5 elements
    /// on.
    GatherSv { msz: U<2>, imm5: U<5>, u: bool, ff: bool, pg: PredLow, zn: Reg, zt: Reg },
    /// `ld1`, `ldff1 {Zt.d}, Pg/z, [Zn.d{, #0}]`: elements at the lanes of Zn and imm5 elements on.
    GatherDv { msz: U<2>, imm5: U<5>, u: bool, ff: bool, pg: PredLow, zn: Reg, zt: Reg },
    /// `st1 {Zt.s}, Pg, [Xn|SP, Zm.s, uxtw]`: elements to the sums of Xn and the lanes of Zm, which are signed (sxtw)
    /// where xs is true.
    ScatterSx { msz: U<2>, zm: Reg, xs: bool, pg: PredLow, rn: Reg, zt: Reg },
    /// `st1 {Zt.s}, Pg, [Xn|SP, Zm.s, uxtw #s]`: the same with the lanes of Zm times 2^msz.
    ScatterSxScaled { msz: U<2>, zm: Reg, xs: bool, pg: PredLow, rn: Reg, zt: Reg },
    /// `st1 {Zt.d}, Pg, [Xn|SP, Zm.d, uxtw]`: elements to the sums of Xn and the low halves of the lanes of Zm, which
    /// are signed (sxtw) where xs is true.
    ScatterDx { msz: U<2>, zm: Reg, xs: bool, pg: PredLow, rn: Reg, zt: Reg },
    /// `st1 {Zt.d}, Pg, [Xn|SP, Zm.d, uxtw #s]`: the same with the low halves times 2^msz.
    ScatterDxScaled { msz: U<2>, zm: Reg, xs: bool, pg: PredLow, rn: Reg, zt: Reg },
    /// `st1 {Zt.d}, Pg, [Xn|SP, Zm.d]`: elements to the sums of Xn and the lanes of Zm.
    ScatterD { msz: U<2>, zm: Reg, pg: PredLow, rn: Reg, zt: Reg },
    /// `st1 {Zt.d}, Pg, [Xn|SP, Zm.d, lsl #s]`: the same with the lanes of Zm times 2^msz.
    ScatterDScaled { msz: U<2>, zm: Reg, pg: PredLow, rn: Reg, zt: Reg },
    /// `st1 {Zt.s}, Pg, [Zn.s{, #0}]`: elements to the lanes of Zn, which are unsigned, and imm5 elements on.
    ScatterSv { msz: U<2>, imm5: U<5>, pg: PredLow, zn: Reg, zt: Reg },
    /// `st1 {Zt.d}, Pg, [Zn.d{, #0}]`: elements to the lanes of Zn and imm5 elements on.
    ScatterDv { msz: U<2>, imm5: U<5>, pg: PredLow, zn: Reg, zt: Reg },
}

/// A form that meets its line's condition.
#[derive(Clone, Copy)]
pub struct Sve {
    form: SveForm,
}

impl Model for Sve {
    ghost use Rattle.std.specs.Prelude.{IsTrue};
    ghost use Rattle.sve_insn.specs.declared.form.SveForm.{SveForm};
    ghost use Rattle.sve_insn.specs.Rows.{meets_form};

    ghost Value = { SveForm };

    ghost view = { λ i. i.form };

    ghost invariant = { λ i. IsTrue (meets_form i.form) };

    ghost inverse = { λ f. record { form = f } };
}

impl Sve {
    /// The instruction of this form, or none where the form doesn't meet its line's condition.
    #[inline(always)]
    pub fn new(form: SveForm) -> Option<Self>
        ensures { MatchOption result (meets_form form ≡ false) (λ i. (meets_form form ≡ true) × (i ≡ form)) }
    {
        if meets(&form) {
            Some(Sve { form })
        } else {
            None
        }
    }

    /// Its form.
    pub fn form(&self) -> &SveForm
        ensures form { result.now ≡ self.now }
        ensures meets { meets_form self.now ≡ true }
    {
        &self.form
    }
}
