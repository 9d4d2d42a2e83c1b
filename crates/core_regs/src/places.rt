//! Registers by their places, so that an operand is read or written with no test of register 31.
ghost use Rattle.std.specs.Prelude.{◌≡◌, ◌≢◌, ◌<◌, nat_eq};
ghost use Rattle.core_regs.specs.Places.{source_place, target_place};

use emu_bits::Reg;
use std::marker::Model;

/// A register that is read; register 31 reads 0.
#[derive(Clone, Copy, Debug)]
pub struct Source {
    place: u8,
}

impl Model for Source {
    ghost use Rattle.std.specs.Prelude.{ℕ, ◌<◌, ◌≢◌};
    ghost use Rattle.core_regs.specs.Places.{source_place, source_register};
    ghost use Rattle.core_regs.specs.PlaceLaws.{source_again};
    ghost use Rattle.std.proofs.Common.{ap};

    ghost Value = { ℕ };

    ghost view = { λ a. source_register a.place };

    ghost invariant = { λ a. (a.place < 33) × (a.place ≢ 31) };

    ghost inverse = { λ r. record { place = source_place r } };

    ghost inverse_ok = { λ a h. ap (λ (p : ℕ). record { place = p }) (source_again a.place h.1) };
}

impl Source {
    /// The register of this number.
    pub fn of(r: Reg) -> Source
        ensures { result ≡ r }
    {
        let n = r.get() as u8;
        Source {
            place: if n == 31 { 32 } else { n },
        }
    }

    /// Its place.
    #[inline(always)]
    pub(crate) fn place(self) -> usize
        ensures value { result ≡ source_place self }
        ensures small { self < 32 }
    {
        self.place as usize
    }
}

/// A register that is written; register 31 keeps nothing.
#[derive(Clone, Copy, Debug)]
pub struct Target {
    place: u8,
}

impl Model for Target {
    ghost use Rattle.std.specs.Prelude.{ℕ, ◌<◌, ◌≢◌};
    ghost use Rattle.core_regs.specs.Places.{target_place, target_register};
    ghost use Rattle.core_regs.specs.PlaceLaws.{target_again};
    ghost use Rattle.std.proofs.Common.{ap};

    ghost Value = { ℕ };

    ghost view = { λ a. target_register a.place };

    ghost invariant = { λ a. (a.place < 34) × ((a.place ≢ 31) × (a.place ≢ 32)) };

    ghost inverse = { λ r. record { place = target_place r } };

    ghost inverse_ok = { λ a h. ap (λ (p : ℕ). record { place = p }) (target_again a.place h.1.0) };
}

impl Target {
    /// The register of this number.
    pub fn of(r: Reg) -> Target
        ensures { result ≡ r }
    {
        let n = r.get() as u8;
        Target {
            place: if n == 31 { 33 } else { n },
        }
    }

    /// Its place.
    #[inline(always)]
    pub(crate) fn place(self) -> usize
        ensures value { result ≡ target_place self }
        ensures kept { result ≢ 32 }
        ensures small { self < 32 }
    {
        self.place as usize
    }
}

/// A register that is read or written; register 31 is SP.
#[derive(Clone, Copy, Debug)]
pub struct RegOrSp {
    number: u8,
}

impl Model for RegOrSp {
    ghost use Rattle.std.specs.Prelude.{ℕ, ◌<◌};

    ghost Value = { ℕ };

    ghost view = { λ a. a.number };

    ghost invariant = { λ a. a.number < 32 };

    ghost inverse = { λ r. record { number = r } };
}

impl RegOrSp {
    /// The register of this number.
    pub fn of(r: Reg) -> RegOrSp
        ensures { result ≡ r }
    {
        RegOrSp {
            number: r.get() as u8,
        }
    }

    /// Whether it is SP.
    #[inline(always)]
    pub fn is_sp(self) -> bool
        ensures { result ≡ nat_eq self 31 }
    {
        self.number == 31
    }

    /// Its number.
    #[inline(always)]
    pub(crate) fn place(self) -> usize
        ensures value { result ≡ self }
        ensures small { result < 32 }
    {
        self.number as usize
    }
}
