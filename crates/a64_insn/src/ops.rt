//! The names of the lines that have several.

/// PC-relative addresses.
#[derive(Clone, Copy)]
pub enum AdrOp {
    Adr,
    Adrp,
}

/// Sums and differences, those with an s set the flags.
#[derive(Clone, Copy)]
pub enum AddOp {
    Add,
    Adds,
    Sub,
    Subs,
}

/// Logical operations with an immediate; ands sets the flags.
#[derive(Clone, Copy)]
pub enum LogicImmOp {
    And,
    Orr,
    Eor,
    Ands,
}

/// Moves of a 16-bit immediate: its complement, itself, or into its place alone.
#[derive(Clone, Copy)]
pub enum MoveWideOp {
    Movn,
    Movz,
    Movk,
}

/// Bitfield moves: signed, into old bits, unsigned.
#[derive(Clone, Copy)]
pub enum BitfieldOp {
    Sbfm,
    Bfm,
    Ubfm,
}

/// Logical operations of registers; the second of each pair takes the complement of its last operand.
#[derive(Clone, Copy)]
pub enum LogicRegOp {
    And,
    Bic,
    Orr,
    Orn,
    Eor,
    Eon,
    Ands,
    Bics,
}

/// Sums and differences with carry.
#[derive(Clone, Copy)]
pub enum AddCarryOp {
    Adc,
    Adcs,
    Sbc,
    Sbcs,
}

/// Conditional compares: of a sum (ccmn) or a difference (ccmp).
#[derive(Clone, Copy)]
pub enum CondCompareOp {
    Ccmn,
    Ccmp,
}

/// Conditional selects: the other register, its increment, complement or negation.
#[derive(Clone, Copy)]
pub enum SelectOp {
    Csel,
    Csinc,
    Csinv,
    Csneg,
}

/// Products added or subtracted.
#[derive(Clone, Copy)]
pub enum MulAddOp {
    Madd,
    Msub,
}

/// Products of two 32-bit registers, signed or unsigned, added or subtracted.
#[derive(Clone, Copy)]
pub enum MulLongOp {
    Smaddl,
    Smsubl,
    Umaddl,
    Umsubl,
}

/// Upper halves of products, signed or unsigned.
#[derive(Clone, Copy)]
pub enum MulHighOp {
    Smulh,
    Umulh,
}

/// Quotients, unsigned or signed, and shifts by a register.
#[derive(Clone, Copy)]
pub enum TwoSourceOp {
    Udiv,
    Sdiv,
    Lslv,
    Lsrv,
    Asrv,
    Rorv,
}

/// Bits reversed, bytes of each 16 bits reversed, leading zeros, leading copies of the sign.
#[derive(Clone, Copy)]
pub enum OneSourceOp {
    Rbit,
    Rev16,
    Clz,
    Cls,
}

/// Bytes reversed: of 32 bits, of 64 bits, in each 32 of 64 bits.
#[derive(Clone, Copy)]
pub enum RevOp {
    RevW,
    RevX,
    Rev32,
}

/// Branches: plain, and with a link in x30.
#[derive(Clone, Copy)]
pub enum BranchOp {
    B,
    Bl,
}

/// Branches where a register is 0, or is not.
#[derive(Clone, Copy)]
pub enum CompareOp {
    Cbz,
    Cbnz,
}

/// Branches where a bit of a register is 0, or is 1.
#[derive(Clone, Copy)]
pub enum TestOp {
    Tbz,
    Tbnz,
}

/// Branches to a register: plain, with a link in x30, as a return.
#[derive(Clone, Copy)]
pub enum BranchRegOp {
    Br,
    Blr,
    Ret,
}

/// Exceptions: supervisor call, breakpoint, halt.
#[derive(Clone, Copy)]
pub enum ExceptOp {
    Svc,
    Brk,
    Hlt,
}

/// The exclusive monitor's clearing, and barriers of data (two kinds) and of instructions.
#[derive(Clone, Copy)]
pub enum BarrierOp {
    Clrex,
    Dsb,
    Dmb,
    Isb,
}

/// System registers that are read: the thread pointer, the flags, the block size of `dc zva`.
#[derive(Clone, Copy)]
pub enum ReadSysOp {
    Tpidr,
    Nzcv,
    Dczid,
}

/// System registers that are written: the thread pointer, the flags.
#[derive(Clone, Copy)]
pub enum WriteSysOp {
    Tpidr,
    Nzcv,
}

/// Exclusive stores; stlxr releases.
#[derive(Clone, Copy)]
pub enum StoreExOp {
    Stxr,
    Stlxr,
}

/// Exclusive loads; ldaxr acquires.
#[derive(Clone, Copy)]
pub enum LoadExOp {
    Ldxr,
    Ldaxr,
}

/// A store that releases, and a load that acquires.
#[derive(Clone, Copy)]
pub enum OrderedOp {
    Stlr,
    Ldar,
}

/// What a load and store as one step makes of the old bytes and of a register: their sum, the bytes without the bits of
/// the register, the exclusive or, the or, the greater and the smaller, signed and unsigned, and the register itself.
#[derive(Clone, Copy)]
pub enum AtomicOp {
    Ldadd,
    Ldclr,
    Ldeor,
    Ldset,
    Ldsmax,
    Ldsmin,
    Ldumax,
    Ldumin,
    Swp,
}

/// Copies of bits between general and vector registers, by destination and source.
#[derive(Clone, Copy)]
pub enum FMoveOp {
    WdSn,
    SdWn,
    XdDn,
    DdXn,
}
