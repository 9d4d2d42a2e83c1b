//! Condition flags, conditions and lane sizes.
ghost use Rattle.std.specs.Prelude.{◌≡◌};
ghost use Rattle.emu_bits.specs.Flags.{size_of, flags_of_number, cond_of, cond_holds};

use crate::fields::U;

/// The condition flags: negative, zero, carry, overflow (PSTATE.N, Z, C, V).
#[derive(Clone, Copy, PartialEq, Eq, Debug)]
pub struct Flags {
    pub n: bool,
    pub z: bool,
    pub c: bool,
    pub v: bool,
}

impl Flags {
    /// The flags of the number NZCV, N at the top, as a conditional compare's field and bits 31 to 28 of the system
    /// register have it.
    pub fn of_number(number: U<4>) -> Self
        ensures { result ≡ flags_of_number number }
    {
        let f = number.get();
        Flags {
            n: f / 8 % 2 == 1,
            z: f / 4 % 2 == 1,
            c: f / 2 % 2 == 1,
            v: f % 2 == 1,
        }
    }
}

/// The sixteen conditions, in the order of their numbers 0 to 15.
#[derive(Clone, Copy, PartialEq, Eq, Debug)]
pub enum Cond {
    Eq,
    Ne,
    Cs,
    Cc,
    Mi,
    Pl,
    Vs,
    Vc,
    Hi,
    Ls,
    Ge,
    Lt,
    Gt,
    Le,
    Al,
    Nv,
}

impl Cond {
    /// The condition of this number, as an instruction's field has it.
    pub fn of_number(number: U<4>) -> Self
        ensures { result ≡ cond_of number }
    {
        match number.get() {
            0 => Cond::Eq,
            1 => Cond::Ne,
            2 => Cond::Cs,
            3 => Cond::Cc,
            4 => Cond::Mi,
            5 => Cond::Pl,
            6 => Cond::Vs,
            7 => Cond::Vc,
            8 => Cond::Hi,
            9 => Cond::Ls,
            10 => Cond::Ge,
            11 => Cond::Lt,
            12 => Cond::Gt,
            13 => Cond::Le,
            14 => Cond::Al,
            _ => Cond::Nv,
        }
    }

    /// Whether it holds of these flags.
    pub fn holds(self, flags: Flags) -> bool
        ensures { result ≡ cond_holds self flags }
    {
        match self {
            Cond::Eq => flags.z,
            Cond::Ne => !flags.z,
            Cond::Cs => flags.c,
            Cond::Cc => !flags.c,
            Cond::Mi => flags.n,
            Cond::Pl => !flags.n,
            Cond::Vs => flags.v,
            Cond::Vc => !flags.v,
            Cond::Hi => flags.c && !flags.z,
            Cond::Ls => !flags.c || flags.z,
            Cond::Ge => flags.n == flags.v,
            Cond::Lt => flags.n != flags.v,
            Cond::Gt => !flags.z && flags.n == flags.v,
            Cond::Le => flags.z || flags.n != flags.v,
            Cond::Al | Cond::Nv => true,
        }
    }
}

/// The size of a lane: a byte, a halfword, a word or a doubleword.
#[derive(Clone, Copy, PartialEq, Eq, Debug)]
pub enum Esize {
    B,
    H,
    S,
    D,
}

impl Esize {
    /// The size in bits: 8, 16, 32 or 64.
    pub fn bits(self) -> u32
        ensures { result ≡ size_of self }
    {
        match self {
            Esize::B => 8,
            Esize::H => 16,
            Esize::S => 32,
            Esize::D => 64,
        }
    }
}
