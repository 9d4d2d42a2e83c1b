//! The values of registers, lanes and places.
ghost use Rattle.std.specs.Prelude.{◌≡◌, ◌<◌, ◌≤◌, ◌^◌};
ghost use Rattle.emu_bits.specs.Fields.{bit};
ghost use Rattle.emu_bits.specs.Flags.{size_of};
ghost use Rattle.debug_names.specs.Registers.{register_bits};
ghost use Rattle.trace_lines.specs.Lines.{flag_number};
ghost use Rattle.debug_values.specs.Values.{address_of, base_value, lane_value, register_value};

use debug_names::{Lane, Register};
use debug_places::{Base, Place};
use emu_bits::{Flags, Reg};
use emu_machine::Machine;
use vec_regs::VecRegs;

/// A flag as a digit.
fn digit(set: bool) -> u64
    ensures value { result ≡ bit set }
    ensures small { result ≤ 1 }
{
    if set { 1 } else { 0 }
}

/// The condition flags as a number of four bits, N the highest.
fn flag_number(flags: Flags) -> u64
    ensures value { result ≡ flag_number flags }
    ensures small { result < 16 }
{
    8 * digit(flags.n) + 4 * digit(flags.z) + 2 * digit(flags.c) + digit(flags.v)
}

/// The value of a scalar register.
pub fn register_value(machine: &Machine, register: Register) -> u64
    ensures value { result ≡ register_value machine.now.parts register }
    ensures fits { result < 2 ^ register_bits register }
{
    let core = machine.core();
    match register {
        Register::X(r) => core.x(r),
        Register::W(r) => core.x(r) % 4_294_967_296,
        Register::Sp => core.x_sp(Reg::at(31, 0)),
        Register::Pc => core.pc(),
        Register::Nzcv => flag_number(core.flags()),
        Register::Tpidr => core.tpidr(),
        Register::Vl => u64::from(machine.vec().length().bits()),
    }
}

/// The value of a lane, and 0 behind the vector length.
pub fn lane_value(vec: &VecRegs, lane: Lane) -> u64
    ensures value { result ≡ lane_value vec.now lane }
    ensures fits { result < 2 ^ size_of lane.size }
{
    if lane.index < u64::from(vec.length().lanes(lane.size)) {
        vec.lane(lane.register, lane.size.bits(), lane.index as u32)
    } else {
        0
    }
}

/// The value of a place's base.
fn base_value(machine: &Machine, base: Base) -> u64
    ensures { result ≡ base_value machine.now.parts base }
{
    match base {
        Base::At(address) => address,
        Base::Of(register) => register_value(machine, register),
    }
}

/// The address of a place.
pub fn address_of(machine: &Machine, place: Place) -> u64
    ensures { result ≡ address_of machine.now.parts place }
{
    base_value(machine, place.base).wrapping_add(place.plus)
}
