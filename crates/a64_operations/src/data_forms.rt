//! The operations of the data forms.
ghost use Rattle.std.specs.Prelude.{◌≡◌, ◌+◌, ◌-◌, ◌^◌, ◌<◌, ◌⊎◌, false, true, unwrap_or, nat_le, if◌then◌else◌};
ghost use Rattle.emu_bits.specs.Bitmask.{bitmask_of};
ghost use Rattle.emu_bits.specs.Fields.{bit};
ghost use Rattle.emu_bits.specs.Numbers.{width_of};
ghost use Rattle.emu_model.specs.State.{with_x};
ghost use Rattle.a64_insn.specs.declared.form.A64Form.{A64Form};
ghost use Rattle.a64_insn.specs.declared.ops.AddOp.{AddOp};
ghost use Rattle.a64_insn.specs.declared.ops.BitfieldOp.{BitfieldOp};
ghost use Rattle.a64_effects.specs.Scalar as table;
ghost use Rattle.a64_operations.specs.Groups.{is_on_registers};
ghost use Rattle.a64_operations.specs.Meaning.{joined};
ghost use Rattle.a64_operations.specs.Prepared.{Does, IsOf};

use crate::flow_forms::distance;
use crate::numbers::complement;
use crate::operation::Operation;
use crate::shifts::lsl;
use a64_insn::{
    AddOp, AdrOp, BitfieldOp, LogicImmOp, LogicRegOp, MoveWideOp, MulAddOp, SelectOp, TwoSourceOp,
};
use core_regs::{RegOrSp, Source, Target};
use emu_bits::{Cond, Reg, U, bitmask};

/// A number below 64.
pub(crate) fn amount(k: u32) -> U<6>
    requires { k < 64 }
    ensures { result ≡ k }
{
    U::at(k, 0)
}

/// A 12-bit immediate, shifted left by 12 where sh is set.
fn shifted_12(sh: bool, imm: U<12>) -> u32
    ensures { result ≡ table.shifted_12 sh imm }
{
    let imm = imm.get();
    if sh { imm << 12 } else { imm }
}

pub(crate) fn add_imm(op: AddOp, sf: bool, sh: bool, imm12: U<12>, rn: Reg, rd: Reg) -> Operation
    ensures answers { is_on_registers result ≡ true }
    ensures done { IsOf result (A64Form.AddImm op sf sh imm12 rn rd) }
{
    let imm = if sh { imm12.get() << 12 } else { imm12.get() };
    let n = RegOrSp::of(rn);
    match (op, sf) {
        (AddOp::Add, true) => Operation::AddImmX {
            d: RegOrSp::of(rd),
            n,
            imm,
        },
        (AddOp::Add, false) => Operation::AddImmW {
            d: RegOrSp::of(rd),
            n,
            imm,
        },
        (AddOp::Sub, true) => Operation::SubImmX {
            d: RegOrSp::of(rd),
            n,
            imm,
        },
        (AddOp::Sub, false) => Operation::SubImmW {
            d: RegOrSp::of(rd),
            n,
            imm,
        },
        (AddOp::Adds, true) => Operation::AddsImmX {
            d: Target::of(rd),
            n,
            imm,
        },
        (AddOp::Adds, false) => Operation::AddsImmW {
            d: Target::of(rd),
            n,
            imm,
        },
        (AddOp::Subs, true) => Operation::SubsImmX {
            d: Target::of(rd),
            n,
            imm,
        },
        (AddOp::Subs, false) => Operation::SubsImmW {
            d: Target::of(rd),
            n,
            imm,
        },
    }
}

pub(crate) fn add_reg(
    op: AddOp,
    sf: bool,
    shift: U<2>,
    rm: Reg,
    amount: U<6>,
    rn: Reg,
    rd: Reg,
) -> Operation
    ensures { IsOf result (A64Form.AddReg op sf shift rm amount rn rd) }
{
    let (d, n, m) = (Target::of(rd), Source::of(rn), Source::of(rm));
    if shift.get() == 1 {
        return match op {
            AddOp::Add => Operation::AddLsr {
                sf,
                d,
                n,
                m,
                amount,
            },
            AddOp::Sub | AddOp::Adds | AddOp::Subs => Operation::ByForm,
        };
    }
    if shift.get() != 0 {
        return Operation::ByForm;
    }
    match (op, sf) {
        (AddOp::Add, true) => Operation::AddRegX { d, n, m, amount },
        (AddOp::Add, false) => Operation::AddRegW { d, n, m, amount },
        (AddOp::Sub, true) => Operation::SubRegX { d, n, m, amount },
        (AddOp::Sub, false) => Operation::SubRegW { d, n, m, amount },
        (AddOp::Adds, true) => Operation::AddsRegX { d, n, m, amount },
        (AddOp::Adds, false) => Operation::AddsRegW { d, n, m, amount },
        (AddOp::Subs, true) => Operation::SubsRegX { d, n, m, amount },
        (AddOp::Subs, false) => Operation::SubsRegW { d, n, m, amount },
    }
}

pub(crate) fn add_ext(
    op: AddOp,
    sf: bool,
    rm: Reg,
    ext: U<3>,
    a: U<3>,
    rn: Reg,
    rd: Reg,
) -> Operation
    ensures { IsOf result (A64Form.AddExt op sf rm ext a rn rd) }
{
    match (op, sf) {
        (AddOp::Add, true) => add_extended(rm, ext, a, rn, rd),
        _ => Operation::ByForm,
    }
}

/// The sum of 64 bits with a word that is extended.
fn add_extended(rm: Reg, ext: U<3>, a: U<3>, rn: Reg, rd: Reg) -> Operation
    ensures { IsOf result (A64Form.AddExt AddOp.Add true rm ext a rn rd) }
{
    let (d, n, m, amount) = (
        RegOrSp::of(rd),
        RegOrSp::of(rn),
        Source::of(rm),
        amount(a.get()),
    );
    match ext.get() {
        2 => Operation::AddUxtw { d, n, m, amount },
        6 => Operation::AddSxtw { d, n, m, amount },
        _ => Operation::ByForm,
    }
}

pub(crate) fn logic_imm(
    op: LogicImmOp,
    sf: bool,
    n: bool,
    immr: U<6>,
    imms: U<6>,
    rn: Reg,
    rd: Reg,
) -> Operation
    ensures answers { is_on_registers result ≡ true }
    ensures done { IsOf result (A64Form.LogicImm op sf n immr imms rn rd) }
{
    let mask = mask_of(sf, n, immr, imms);
    if sf {
        logic_imm_x(op, mask, rn, rd)
    } else {
        logic_imm_w(op, mask as u32, rn, rd)
    }
}

/// The bitmask of a form. Each form has one.
fn mask_of(sf: bool, n: bool, immr: U<6>, imms: U<6>) -> u64
    ensures value { result ≡ unwrap_or (bitmask_of (width_of sf) (bit n) immr imms) 0 }
    ensures small { sf ≡ false → result < 2 ^ 32 }
{
    if sf {
        bitmask(n, immr.get(), imms.get(), 64).unwrap_or(0)
    } else {
        bitmask(n, immr.get(), imms.get(), 32).unwrap_or(0)
    }
}

/// The same at 64 bits.
fn logic_imm_x(op: LogicImmOp, mask: u64, rn: Reg, rd: Reg) -> Operation
    ensures answers { is_on_registers result ≡ true }
    ensures done { Does result (λ c. table.after_logic_imm op 64 rd (table.operand 64 c rn) mask c) }
{
    let n = Source::of(rn);
    let (low, high) = halves(mask);
    match op {
        LogicImmOp::And => Operation::AndImmX {
            d: RegOrSp::of(rd),
            n,
            low,
            high,
        },
        LogicImmOp::Orr => Operation::OrrImmX {
            d: RegOrSp::of(rd),
            n,
            low,
            high,
        },
        LogicImmOp::Eor => Operation::EorImmX {
            d: RegOrSp::of(rd),
            n,
            low,
            high,
        },
        LogicImmOp::Ands => Operation::AndsImmX {
            d: Target::of(rd),
            n,
            low,
            high,
        },
    }
}

/// The same at 32 bits.
fn logic_imm_w(op: LogicImmOp, mask: u32, rn: Reg, rd: Reg) -> Operation
    ensures answers { is_on_registers result ≡ true }
    ensures done { Does result (λ c. table.after_logic_imm op 32 rd (table.operand 32 c rn) mask c) }
{
    let n = Source::of(rn);
    match op {
        LogicImmOp::And => Operation::AndImmW {
            d: RegOrSp::of(rd),
            n,
            mask,
        },
        LogicImmOp::Orr => Operation::OrrImmW {
            d: RegOrSp::of(rd),
            n,
            mask,
        },
        LogicImmOp::Eor => Operation::EorImmW {
            d: RegOrSp::of(rd),
            n,
            mask,
        },
        LogicImmOp::Ands => Operation::AndsImmW {
            d: Target::of(rd),
            n,
            mask,
        },
    }
}

/// The low and the high 32 bits.
fn halves(v: u64) -> (u32, u32)
    ensures { joined result.0 result.1 ≡ v }
{
    ((v % 0x1_0000_0000) as u32, (v >> 32) as u32)
}

pub(crate) fn logic_reg(
    op: LogicRegOp,
    sf: bool,
    shift: U<2>,
    rm: Reg,
    amount: U<6>,
    rn: Reg,
    rd: Reg,
) -> Operation
    ensures { IsOf result (A64Form.LogicReg op sf shift rm amount rn rd) }
{
    let (d, n, m) = (Target::of(rd), Source::of(rn), Source::of(rm));
    if shift.get() == 1 && op == LogicRegOp::Eor && !sf {
        return Operation::EorLsrW { d, n, m, amount };
    }
    if shift.get() != 0 {
        return Operation::ByForm;
    }
    match (op, sf) {
        (LogicRegOp::And, true) => Operation::AndRegX { d, n, m, amount },
        (LogicRegOp::And, false) => Operation::AndRegW { d, n, m, amount },
        (LogicRegOp::Bic, true) => Operation::BicRegX { d, n, m, amount },
        (LogicRegOp::Bic, false) => Operation::BicRegW { d, n, m, amount },
        (LogicRegOp::Orr, true) => Operation::OrrRegX { d, n, m, amount },
        (LogicRegOp::Orr, false) => Operation::OrrRegW { d, n, m, amount },
        (LogicRegOp::Orn, true) => Operation::OrnRegX { d, n, m, amount },
        (LogicRegOp::Orn, false) => Operation::OrnRegW { d, n, m, amount },
        (LogicRegOp::Eor, true) => Operation::EorRegX { d, n, m, amount },
        (LogicRegOp::Eor, false) => Operation::EorRegW { d, n, m, amount },
        (LogicRegOp::Ands, true) => Operation::AndsRegX { d, n, m, amount },
        (LogicRegOp::Ands, false) => Operation::AndsRegW { d, n, m, amount },
        (LogicRegOp::Eon | LogicRegOp::Bics, _) => Operation::ByForm,
    }
}

pub(crate) fn move_wide(op: MoveWideOp, sf: bool, hw: U<2>, imm16: U<16>, rd: Reg) -> Operation
    ensures answers { is_on_registers result ≡ true }
    ensures done { IsOf result (A64Form.MoveWide op sf hw imm16 rd) }
{
    let w = if sf { 64 } else { 32 };
    let place = 16 * hw.get();
    let shifted = lsl(w, imm16.get() as u64, place);
    match op {
        MoveWideOp::Movn => moved(rd, complement(w, shifted)),
        MoveWideOp::Movz => moved(rd, shifted),
        MoveWideOp::Movk => Operation::Movk {
            sf,
            d: Target::of(rd),
            old: Source::of(rd),
            hw,
            imm: imm16.get() as u16,
        },
    }
}

/// A register with a number.
fn moved(rd: Reg, v: u64) -> Operation
    ensures answers { is_on_registers result ≡ true }
    ensures done { Does result (λ c. with_x c rd 64 v) }
{
    let (low, high) = halves(v);
    Operation::Mov {
        d: Target::of(rd),
        low,
        high,
    }
}

pub(crate) fn adr(op: AdrOp, immlo: U<2>, immhi: U<19>, rd: Reg) -> Operation
    ensures answers { is_on_registers result ≡ true }
    ensures done { IsOf result (A64Form.Adr op immlo immhi rd) }
{
    let by = distance(immhi.get() * 4 + immlo.get(), 21);
    let d = Target::of(rd);
    match op {
        AdrOp::Adr => Operation::Adr { d, by },
        AdrOp::Adrp => Operation::Adrp { d, by },
    }
}

pub(crate) fn bitfield(
    op: BitfieldOp,
    sf: bool,
    n: bool,
    r: U<6>,
    s: U<6>,
    rn: Reg,
    rd: Reg,
) -> Operation
    ensures { IsOf result (A64Form.Bitfield op sf n r s rn rd) }
{
    match op {
        BitfieldOp::Ubfm => unsigned_field(sf, r.get(), s.get(), rn, rd),
        BitfieldOp::Sbfm => signed_field(sf, r.get(), s.get(), rn, rd),
        BitfieldOp::Bfm => Operation::ByForm,
    }
}

/// A field with zeros above and below.
fn unsigned_field(sf: bool, r: u32, s: u32, rn: Reg, rd: Reg) -> Operation
    requires rotation { r < 64 }
    requires top { s < 64 }
    ensures { Does result (λ c. table.after_bitfield BitfieldOp.Ubfm (width_of sf) r s rn rd c) }
{
    let (d, n) = (Target::of(rd), Source::of(rn));
    if sf {
        let (left, right) = moves(64, r, s);
        Operation::UbfmX { d, n, left, right }
    } else if r < 32 && s < 32 {
        let (left, right) = moves(32, r, s);
        Operation::UbfmW { d, n, left, right }
    } else {
        Operation::ByForm
    }
}

/// A field at the lowest place, with copies of its top bit above.
fn signed_field(sf: bool, r: u32, s: u32, rn: Reg, rd: Reg) -> Operation
    requires rotation { r < 64 }
    requires top { s < 64 }
    ensures { Does result (λ c. table.after_bitfield BitfieldOp.Sbfm (width_of sf) r s rn rd c) }
{
    if r > s {
        return Operation::ByForm;
    }
    let (d, n) = (Target::of(rd), Source::of(rn));
    if sf {
        let (left, right) = moves(64, r, s);
        Operation::SbfmX { d, n, left, right }
    } else if s < 32 {
        let (left, right) = moves(32, r, s);
        Operation::SbfmW { d, n, left, right }
    } else {
        Operation::ByForm
    }
}

/// How far a field is moved left, until its top bit is the register's, and then right.
fn moves(w: u32, r: u32, s: u32) -> (U<6>, U<6>)
    requires width { (w ≡ 32) ⊎ (w ≡ 64) }
    requires r { r < w }
    requires s { s < w }
    ensures left { result.0 + s + 1 ≡ w }
    ensures right { result.1 ≡ (if nat_le r s then w - 1 - s + r else r - 1 - s) }
{
    let above = w - 1 - s;
    let right = if r <= s { above + r } else { r - 1 - s };
    (amount(above), amount(right))
}

pub(crate) fn select(op: SelectOp, sf: bool, rm: Reg, cond: U<4>, rn: Reg, rd: Reg) -> Operation
    ensures answers { is_on_registers result ≡ true }
    ensures done { IsOf result (A64Form.Select op sf rm cond rn rd) }
{
    let (d, n, m) = (Target::of(rd), Source::of(rn), Source::of(rm));
    let cond = Cond::of_number(cond);
    match (op, sf) {
        (SelectOp::Csel, true) => Operation::CselX { d, n, m, cond },
        (SelectOp::Csel, false) => Operation::CselW { d, n, m, cond },
        (SelectOp::Csinc, true) => Operation::CsincX { d, n, m, cond },
        (SelectOp::Csinc, false) => Operation::CsincW { d, n, m, cond },
        (SelectOp::Csinv, true) => Operation::CsinvX { d, n, m, cond },
        (SelectOp::Csinv, false) => Operation::CsinvW { d, n, m, cond },
        (SelectOp::Csneg, true) => Operation::CsnegX { d, n, m, cond },
        (SelectOp::Csneg, false) => Operation::CsnegW { d, n, m, cond },
    }
}

pub(crate) fn mul_add(op: MulAddOp, sf: bool, rm: Reg, ra: Reg, rn: Reg, rd: Reg) -> Operation
    ensures answers { is_on_registers result ≡ true }
    ensures done { IsOf result (A64Form.MulAdd op sf rm ra rn rd) }
{
    let (d, n, m, a) = (
        Target::of(rd),
        Source::of(rn),
        Source::of(rm),
        Source::of(ra),
    );
    match (op, sf) {
        (MulAddOp::Madd, true) => Operation::MaddX { d, n, m, a },
        (MulAddOp::Madd, false) => Operation::MaddW { d, n, m, a },
        (MulAddOp::Msub, true) => Operation::MsubX { d, n, m, a },
        (MulAddOp::Msub, false) => Operation::MsubW { d, n, m, a },
    }
}

pub(crate) fn two_source(op: TwoSourceOp, sf: bool, rm: Reg, rn: Reg, rd: Reg) -> Operation
    ensures { IsOf result (A64Form.TwoSource op sf rm rn rd) }
{
    let (d, n, m) = (Target::of(rd), Source::of(rn), Source::of(rm));
    match (op, sf) {
        (TwoSourceOp::Lslv, true) => Operation::LslvX { d, n, m },
        (TwoSourceOp::Lslv, false) => Operation::LslvW { d, n, m },
        (TwoSourceOp::Lsrv, true) => Operation::LsrvX { d, n, m },
        (TwoSourceOp::Lsrv, false) => Operation::LsrvW { d, n, m },
        (TwoSourceOp::Udiv, true) => Operation::UdivX { d, n, m },
        (TwoSourceOp::Udiv, false) => Operation::UdivW { d, n, m },
        _ => Operation::ByForm,
    }
}
