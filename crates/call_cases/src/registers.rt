//! The registers before a call, and how they have to be behind it.
use core_regs::Core;
use emu_bits::{Flags, Pred, Reg};
use emu_model::Length;
use vec_regs::VecRegs;

/// x0 to x30.
pub type General = [u64; 31];

/// What no call changes: PC, SP, tpidr_el0, the flags.
const PC: u64 = 0x40_0070;

const SP: u64 = 0x7FFF_FFFF_EF00;

const TPIDR: u64 = 0x1234_5678_9ABC_DEF0;

const FLAGS: Flags = Flags {
    n: true,
    z: false,
    c: true,
    v: true,
};

/// The monitor before a call.
pub const MONITOR: Option<(u64, u32)> = Some((0x40_1000, 8));

/// Numbers that differ.
pub fn distinct() -> General {
    let mut general = [0; 31];
    for (k, x) in (1u64..).zip(general.iter_mut()) {
        *x = k.wrapping_mul(0x0101_0101_0101_0101);
    }
    general
}

/// The scalar registers before a call.
pub fn core_of(general: &General) -> Core {
    let mut core = Core::new();
    for (number, x) in (0u32..).zip(general.iter()) {
        core.set_x(Reg::at(number, 0), 64, *x);
    }
    core.set_x_sp(Reg::at(31, 0), 64, SP);
    core.set_pc(PC);
    core.set_tpidr(TPIDR);
    core.set_flags(FLAGS);
    core.set_monitor(MONITOR);
    core
}

/// Whether the scalar registers are as before a call, but for x0 and the monitor, which are these.
pub fn is_core(core: &Core, general: &General, x0: u64, monitor: Option<(u64, u32)>) -> bool {
    let mut same = core.x_sp(Reg::at(31, 0)) == SP
        && core.pc() == PC
        && core.tpidr() == TPIDR
        && core.flags() == FLAGS
        && core.monitor() == monitor;
    for (number, x) in (0u32..).zip(general.iter()) {
        let wanted = if number == 0 { x0 } else { *x };
        same = same && core.x(Reg::at(number, 0)) == wanted;
    }
    same
}

/// The vector registers before a call, of a starting and a present length: bytes that differ, and true flags; or behind
/// it, where only the low 16 bytes of each Z register are left.
pub fn vectors_of(most: Length, length: Length, is_behind: bool) -> VecRegs {
    let mut vec = VecRegs::new(most);
    if length.bits() <= most.bits() {
        vec.set_length(length);
    }
    let (bytes, flags) = if is_behind { (16, 0) } else { (256, 256) };
    for number in 0..32 {
        fill_vector(&mut vec, Reg::at(number, 0), bytes);
        fill_flags(&mut vec, Pred::new(number), flags);
    }
    vec
}

/// Sets the first bytes of a Z register, at most so many.
fn fill_vector(vec: &mut VecRegs, r: Reg, most: u32) {
    for k in 0..most {
        if k < vec.length().bits() / 8 {
            let byte = r.get().wrapping_mul(7).wrapping_add(k) % 255;
            vec.set_z_byte(r, k, byte as u8);
        }
    }
}

/// Sets the first flags of a predicate, or of FFR, at most so many.
fn fill_flags(vec: &mut VecRegs, of: Option<Pred>, most: u32) {
    for k in 0..most {
        if k < vec.length().bits() / 8 {
            match of {
                Some(r) => vec.set_p_bit(r, k, true),
                None => vec.set_ffr_bit(k, true),
            }
        }
    }
}

/// Whether the lengths and all vector registers are the same.
pub fn are_same(a: &VecRegs, b: &VecRegs) -> bool {
    let mut same = a.most() == b.most()
        && a.length() == b.length()
        && a.ffr_words() == b.ffr_words();
    for number in 0..32 {
        let r = Reg::at(number, 0);
        same = same && a.z_words(r) == b.z_words(r);
        if let Some(r) = Pred::new(number) {
            same = same && a.p_words(r) == b.p_words(r);
        }
    }
    same
}
