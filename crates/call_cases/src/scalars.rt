//! Conditions, and what was written to the scalar registers.
use crate::bits::low;
use crate::numbers::are_numbers;
use core_regs::Core;
use emu_bits::{Cond, Flags, Reg, U};

/// The number whose hexadecimal digits are NZCV of flags, N at the top.
pub fn nzcv(flags: Flags) -> u64 {
    u64::from(flags.n) << 12
        | u64::from(flags.z) << 8
        | u64::from(flags.c) << 4
        | u64::from(flags.v)
}

/// Whether an answer says at which of the sixteen values of NZCV a condition holds, of the flags and of the registers.
pub fn condition(numbers: [u64; 4], answer: &str) -> bool {
    let condition = Cond::of_number(U::at(low(numbers[0]), 0));
    let mut core = Core::new();
    let mut by_flags = 0u64;
    let mut by_registers = 0u64;
    for nzcv in (0..16u32).rev() {
        let flags = Flags::of_number(U::at(nzcv, 0));
        core.set_flags(flags);
        by_flags = by_flags << 1 | u64::from(condition.holds(flags));
        by_registers = by_registers << 1 | u64::from(core.holds(condition));
    }
    are_numbers(answer, &[by_flags, by_registers])
}

/// The same of what a register is read as at first, and behind a write of 64 bits and one of 32 bits.
pub fn register(numbers: [u64; 4], answer: &str) -> bool {
    let r = Reg::at(low(numbers[0]), 0);
    let mut core = Core::new();
    let (first, first_sp) = (core.x(r), core.x_sp(r));
    core.set_x(r, 64, numbers[1]);
    let wide = core.x(r);
    core.set_x(r, 32, numbers[2]);
    are_numbers(answer, &[first, first_sp, wide, core.x(r)])
}

/// The same of what register 31 is read as behind writes to SP.
pub fn stack(numbers: [u64; 4], answer: &str) -> bool {
    let last = Reg::at(31, 0);
    let mut core = Core::new();
    core.set_x_sp(last, 64, numbers[0]);
    let (zero, wide) = (core.x(last), core.x_sp(last));
    core.set_x_sp(last, 32, numbers[0]);
    are_numbers(answer, &[zero, wide, core.x_sp(last)])
}

/// The same of what the other registers are read as behind a write.
pub fn scalars(numbers: [u64; 4], answer: &str) -> bool {
    let mut core = Core::new();
    core.set_pc(numbers[0]);
    core.set_tpidr(numbers[1]);
    core.set_monitor(Some((numbers[2], low(numbers[3]))));
    let (address, size) = core.monitor().unwrap_or((0, 0));
    core.set_monitor(None);
    let (written, flags) = answer.split_once(" none ").unwrap_or((answer, ""));
    core.monitor().is_none()
        && are_numbers(
            written,
            &[core.pc(), core.tpidr(), address, u64::from(size)],
        )
        && are_numbers(flags, &[nzcv(core.flags())])
}
