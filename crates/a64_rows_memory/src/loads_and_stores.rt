//! Words of loads and stores, read and made.
ghost use Rattle.std.specs.Prelude.{◌≡◌};
ghost use Rattle.emu_bits.specs.Rows.{encode, row_in};
ghost use Rattle.emu_bits.specs.RowLaws.{IsShape};
ghost use Rattle.a64_insn.specs.declared.form.A64Form.TheVariants.{
  LsUnsigned,
  LsUnscaled,
  LsPost,
  LsPre,
  LsReg,
  LsLiteral,
  Pair,
  StoreEx,
  LoadEx,
  Ordered,
  Atomic,
  CompareSwap,
};
ghost use Rattle.a64_insn.specs.Memory.{
  ls_unsigned,
  ls_unscaled,
  ls_post,
  ls_pre,
  ls_reg,
  ls_literal,
  pair,
  store_ex,
  load_ex,
  ordered,
  atomic,
  compare_swap,
};
ghost use Rattle.a64_insn.specs.Rows.{row_of};
ghost use Rattle.a64_rows_memory.specs.Seen.{seen};

use a64_insn::memory_words::{
    atomic_op, atomic_word, load_ex_op, load_ex_word, ordered_op, ordered_word, store_ex_op,
    store_ex_word,
};
use a64_insn::{A64, A64Form, AtomicOp, LoadExOp, OrderedOp, StoreExOp};
use emu_bits::{Reg, U, Word, flag};

/// The instruction of `LsUnsigned` that a word is.
#[tactic(auto, unfolding(a64_insn::specs::Memory::ls_unsigned))]
pub fn ls_unsigned(w: u32) -> Option<A64>
    ensures { seen result ≡ row_in ls_unsigned w }
{
    if w & 0x3b00_0000 != 0x3900_0000 {
        return None;
    }
    A64::new(A64Form::LsUnsigned {
        size: U::at(w, 30),
        v: flag(w, 26),
        opc: U::at(w, 22),
        imm12: U::at(w, 10),
        rn: Reg::at(w, 5),
        rt: Reg::at(w, 0),
    })
}

/// The word of `LsUnsigned` with these fields.
#[tactic(auto, unfolding(a64_insn::specs::Memory::ls_unsigned))]
pub fn ls_unsigned_bits(size: U<2>, v: bool, opc: U<2>, imm12: U<12>, rn: Reg, rt: Reg) -> u32
    ensures table { result ≡ encode (row_of (LsUnsigned size v opc imm12 rn rt)) }
    ensures shape { IsShape (row_of (LsUnsigned size v opc imm12 rn rt)) }
{
    Word { bits: 0x3900_0000 }
        .number(size, 30)
        .flag(v, 26)
        .number(opc, 22)
        .number(imm12, 10)
        .reg(rn, 5)
        .reg(rt, 0)
        .bits
}

/// The instruction of `LsUnscaled` that a word is.
#[tactic(auto, unfolding(a64_insn::specs::Memory::ls_unscaled))]
pub fn ls_unscaled(w: u32) -> Option<A64>
    ensures { seen result ≡ row_in ls_unscaled w }
{
    if w & 0x3b20_0c00 != 0x3800_0000 {
        return None;
    }
    A64::new(A64Form::LsUnscaled {
        size: U::at(w, 30),
        v: flag(w, 26),
        opc: U::at(w, 22),
        imm9: U::at(w, 12),
        rn: Reg::at(w, 5),
        rt: Reg::at(w, 0),
    })
}

/// The word of `LsUnscaled` with these fields.
#[tactic(auto, unfolding(a64_insn::specs::Memory::ls_unscaled))]
pub fn ls_unscaled_bits(size: U<2>, v: bool, opc: U<2>, imm9: U<9>, rn: Reg, rt: Reg) -> u32
    ensures table { result ≡ encode (row_of (LsUnscaled size v opc imm9 rn rt)) }
    ensures shape { IsShape (row_of (LsUnscaled size v opc imm9 rn rt)) }
{
    Word { bits: 0x3800_0000 }
        .number(size, 30)
        .flag(v, 26)
        .number(opc, 22)
        .number(imm9, 12)
        .reg(rn, 5)
        .reg(rt, 0)
        .bits
}

/// The instruction of `LsPost` that a word is.
#[tactic(auto, unfolding(a64_insn::specs::Memory::ls_post))]
pub fn ls_post(w: u32) -> Option<A64>
    ensures { seen result ≡ row_in ls_post w }
{
    if w & 0x3b20_0c00 != 0x3800_0400 {
        return None;
    }
    A64::new(A64Form::LsPost {
        size: U::at(w, 30),
        v: flag(w, 26),
        opc: U::at(w, 22),
        imm9: U::at(w, 12),
        rn: Reg::at(w, 5),
        rt: Reg::at(w, 0),
    })
}

/// The word of `LsPost` with these fields.
#[tactic(auto, unfolding(a64_insn::specs::Memory::ls_post))]
pub fn ls_post_bits(size: U<2>, v: bool, opc: U<2>, imm9: U<9>, rn: Reg, rt: Reg) -> u32
    ensures table { result ≡ encode (row_of (LsPost size v opc imm9 rn rt)) }
    ensures shape { IsShape (row_of (LsPost size v opc imm9 rn rt)) }
{
    Word { bits: 0x3800_0400 }
        .number(size, 30)
        .flag(v, 26)
        .number(opc, 22)
        .number(imm9, 12)
        .reg(rn, 5)
        .reg(rt, 0)
        .bits
}

/// The instruction of `LsPre` that a word is.
#[tactic(auto, unfolding(a64_insn::specs::Memory::ls_pre))]
pub fn ls_pre(w: u32) -> Option<A64>
    ensures { seen result ≡ row_in ls_pre w }
{
    if w & 0x3b20_0c00 != 0x3800_0c00 {
        return None;
    }
    A64::new(A64Form::LsPre {
        size: U::at(w, 30),
        v: flag(w, 26),
        opc: U::at(w, 22),
        imm9: U::at(w, 12),
        rn: Reg::at(w, 5),
        rt: Reg::at(w, 0),
    })
}

/// The word of `LsPre` with these fields.
#[tactic(auto, unfolding(a64_insn::specs::Memory::ls_pre))]
pub fn ls_pre_bits(size: U<2>, v: bool, opc: U<2>, imm9: U<9>, rn: Reg, rt: Reg) -> u32
    ensures table { result ≡ encode (row_of (LsPre size v opc imm9 rn rt)) }
    ensures shape { IsShape (row_of (LsPre size v opc imm9 rn rt)) }
{
    Word { bits: 0x3800_0c00 }
        .number(size, 30)
        .flag(v, 26)
        .number(opc, 22)
        .number(imm9, 12)
        .reg(rn, 5)
        .reg(rt, 0)
        .bits
}

/// The instruction of `LsReg` that a word is.
#[tactic(auto, unfolding(a64_insn::specs::Memory::ls_reg))]
pub fn ls_reg(w: u32) -> Option<A64>
    ensures { seen result ≡ row_in ls_reg w }
{
    if w & 0x3b20_0c00 != 0x3820_0800 {
        return None;
    }
    A64::new(A64Form::LsReg {
        size: U::at(w, 30),
        v: flag(w, 26),
        opc: U::at(w, 22),
        rm: Reg::at(w, 16),
        ext: U::at(w, 13),
        s: flag(w, 12),
        rn: Reg::at(w, 5),
        rt: Reg::at(w, 0),
    })
}

/// The word of `LsReg` with these fields.
#[tactic(auto, unfolding(a64_insn::specs::Memory::ls_reg))]
pub fn ls_reg_bits(
    size: U<2>,
    v: bool,
    opc: U<2>,
    rm: Reg,
    ext: U<3>,
    s: bool,
    rn: Reg,
    rt: Reg,
) -> u32
    ensures table { result ≡ encode (row_of (LsReg size v opc rm ext s rn rt)) }
    ensures shape { IsShape (row_of (LsReg size v opc rm ext s rn rt)) }
{
    Word { bits: 0x3820_0800 }
        .number(size, 30)
        .flag(v, 26)
        .number(opc, 22)
        .reg(rm, 16)
        .number(ext, 13)
        .flag(s, 12)
        .reg(rn, 5)
        .reg(rt, 0)
        .bits
}

/// The instruction of `LsLiteral` that a word is.
#[tactic(auto, unfolding(a64_insn::specs::Memory::ls_literal))]
pub fn ls_literal(w: u32) -> Option<A64>
    ensures { seen result ≡ row_in ls_literal w }
{
    if w & 0x3b00_0000 != 0x1800_0000 {
        return None;
    }
    A64::new(A64Form::LsLiteral {
        opc: U::at(w, 30),
        v: flag(w, 26),
        imm19: U::at(w, 5),
        rt: Reg::at(w, 0),
    })
}

/// The word of `LsLiteral` with these fields.
#[tactic(auto, unfolding(a64_insn::specs::Memory::ls_literal))]
pub fn ls_literal_bits(opc: U<2>, v: bool, imm19: U<19>, rt: Reg) -> u32
    ensures table { result ≡ encode (row_of (LsLiteral opc v imm19 rt)) }
    ensures shape { IsShape (row_of (LsLiteral opc v imm19 rt)) }
{
    Word { bits: 0x1800_0000 }
        .number(opc, 30)
        .flag(v, 26)
        .number(imm19, 5)
        .reg(rt, 0)
        .bits
}

/// The instruction of `Pair` that a word is.
#[tactic(auto, unfolding(a64_insn::specs::Memory::pair))]
pub fn pair(w: u32) -> Option<A64>
    ensures { seen result ≡ row_in pair w }
{
    if w & 0x3a00_0000 != 0x2800_0000 {
        return None;
    }
    A64::new(A64Form::Pair {
        opc: U::at(w, 30),
        v: flag(w, 26),
        mode: U::at(w, 23),
        l: flag(w, 22),
        imm7: U::at(w, 15),
        rt2: Reg::at(w, 10),
        rn: Reg::at(w, 5),
        rt: Reg::at(w, 0),
    })
}

/// The word of `Pair` with these fields.
#[tactic(auto, unfolding(a64_insn::specs::Memory::pair))]
pub fn pair_bits(
    opc: U<2>,
    v: bool,
    mode: U<2>,
    l: bool,
    imm7: U<7>,
    rt2: Reg,
    rn: Reg,
    rt: Reg,
) -> u32
    ensures table { result ≡ encode (row_of (Pair opc v mode l imm7 rt2 rn rt)) }
    ensures shape { IsShape (row_of (Pair opc v mode l imm7 rt2 rn rt)) }
{
    Word { bits: 0x2800_0000 }
        .number(opc, 30)
        .flag(v, 26)
        .number(mode, 23)
        .flag(l, 22)
        .number(imm7, 15)
        .reg(rt2, 10)
        .reg(rn, 5)
        .reg(rt, 0)
        .bits
}

/// The instruction of `StoreEx` that a word is.
#[tactic(auto, unfolding(a64_insn::specs::Memory::store_ex))]
pub fn store_ex(w: u32) -> Option<A64>
    ensures { seen result ≡ row_in store_ex w }
{
    let op = store_ex_op(w & 0x3fe0_fc00)?;
    A64::new(A64Form::StoreEx {
        op,
        size: U::at(w, 30),
        rs: Reg::at(w, 16),
        rn: Reg::at(w, 5),
        rt: Reg::at(w, 0),
    })
}

/// The word of `StoreEx` with these fields.
#[tactic(auto, unfolding(a64_insn::specs::Memory::store_ex))]
pub fn store_ex_bits(op: StoreExOp, size: U<2>, rs: Reg, rn: Reg, rt: Reg) -> u32
    ensures table { result ≡ encode (row_of (StoreEx op size rs rn rt)) }
    ensures shape { IsShape (row_of (StoreEx op size rs rn rt)) }
{
    store_ex_word(op)
        .number(size, 30)
        .reg(rs, 16)
        .reg(rn, 5)
        .reg(rt, 0)
        .bits
}

/// The instruction of `LoadEx` that a word is.
#[tactic(auto, unfolding(a64_insn::specs::Memory::load_ex))]
pub fn load_ex(w: u32) -> Option<A64>
    ensures { seen result ≡ row_in load_ex w }
{
    let op = load_ex_op(w & 0x3fff_fc00)?;
    A64::new(A64Form::LoadEx {
        op,
        size: U::at(w, 30),
        rn: Reg::at(w, 5),
        rt: Reg::at(w, 0),
    })
}

/// The word of `LoadEx` with these fields.
#[tactic(auto, unfolding(a64_insn::specs::Memory::load_ex))]
pub fn load_ex_bits(op: LoadExOp, size: U<2>, rn: Reg, rt: Reg) -> u32
    ensures table { result ≡ encode (row_of (LoadEx op size rn rt)) }
    ensures shape { IsShape (row_of (LoadEx op size rn rt)) }
{
    load_ex_word(op).number(size, 30).reg(rn, 5).reg(rt, 0).bits
}

/// The instruction of `Ordered` that a word is.
#[tactic(auto, unfolding(a64_insn::specs::Memory::ordered))]
pub fn ordered(w: u32) -> Option<A64>
    ensures { seen result ≡ row_in ordered w }
{
    let op = ordered_op(w & 0x3fff_fc00)?;
    A64::new(A64Form::Ordered {
        op,
        size: U::at(w, 30),
        rn: Reg::at(w, 5),
        rt: Reg::at(w, 0),
    })
}

/// The word of `Ordered` with these fields.
#[tactic(auto, unfolding(a64_insn::specs::Memory::ordered))]
pub fn ordered_bits(op: OrderedOp, size: U<2>, rn: Reg, rt: Reg) -> u32
    ensures table { result ≡ encode (row_of (Ordered op size rn rt)) }
    ensures shape { IsShape (row_of (Ordered op size rn rt)) }
{
    ordered_word(op).number(size, 30).reg(rn, 5).reg(rt, 0).bits
}

/// The instruction of `Atomic` that a word is.
#[tactic(auto, unfolding(a64_insn::specs::Memory::atomic))]
pub fn atomic(w: u32) -> Option<A64>
    ensures { seen result ≡ row_in atomic w }
{
    let op = atomic_op(w & 0x3f20_fc00)?;
    A64::new(A64Form::Atomic {
        op,
        size: U::at(w, 30),
        acquires: flag(w, 23),
        releases: flag(w, 22),
        rs: Reg::at(w, 16),
        rn: Reg::at(w, 5),
        rt: Reg::at(w, 0),
    })
}

/// The word of `Atomic` with these fields.
#[tactic(auto, unfolding(a64_insn::specs::Memory::atomic))]
pub fn atomic_bits(
    op: AtomicOp,
    size: U<2>,
    acquires: bool,
    releases: bool,
    rs: Reg,
    rn: Reg,
    rt: Reg,
) -> u32
    ensures table { result ≡ encode (row_of (Atomic op size acquires releases rs rn rt)) }
    ensures shape { IsShape (row_of (Atomic op size acquires releases rs rn rt)) }
{
    atomic_word(op)
        .number(size, 30)
        .flag(acquires, 23)
        .flag(releases, 22)
        .reg(rs, 16)
        .reg(rn, 5)
        .reg(rt, 0)
        .bits
}

/// The instruction of `CompareSwap` that a word is.
#[tactic(auto, unfolding(a64_insn::specs::Memory::compare_swap))]
pub fn compare_swap(w: u32) -> Option<A64>
    ensures { seen result ≡ row_in compare_swap w }
{
    if w & 0x3fa0_7c00 != 0x08a0_7c00 {
        return None;
    }
    A64::new(A64Form::CompareSwap {
        size: U::at(w, 30),
        acquires: flag(w, 22),
        releases: flag(w, 15),
        rs: Reg::at(w, 16),
        rn: Reg::at(w, 5),
        rt: Reg::at(w, 0),
    })
}

/// The word of `CompareSwap` with these fields.
#[tactic(auto, unfolding(a64_insn::specs::Memory::compare_swap))]
pub fn compare_swap_bits(
    size: U<2>,
    acquires: bool,
    releases: bool,
    rs: Reg,
    rn: Reg,
    rt: Reg,
) -> u32
    ensures table { result ≡ encode (row_of (CompareSwap size acquires releases rs rn rt)) }
    ensures shape { IsShape (row_of (CompareSwap size acquires releases rs rn rt)) }
{
    Word { bits: 0x08a0_7c00 }
        .number(size, 30)
        .flag(acquires, 22)
        .flag(releases, 15)
        .reg(rs, 16)
        .reg(rn, 5)
        .reg(rt, 0)
        .bits
}
