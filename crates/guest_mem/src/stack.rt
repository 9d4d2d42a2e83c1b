//! The test of SP.
ghost use Rattle.std.specs.Prelude.{◌≡◌, ◌&&◌, ◌%◌, MatchResult, Bool, false, true, nat_eq, not};
ghost use Rattle.emu_model.specs.declared.trap.TrapKind.{TrapKind};

use core_regs::{Core, Trap, TrapKind};
use emu_bits::Reg;

/// Tests that SP is a multiple of 16, where it is to be. The trap has SP as its address.
pub fn test_sp(core: &Core, is_tested: bool) -> Result<(), Trap>
    ensures { let misaligned : Bool = is_tested && not (nat_eq (core.now.sp % 16) 0) in
        MatchResult result (λ x. misaligned ≡ false)
        (λ trap. (misaligned ≡ true) × (trap ≡ record { kind = TrapKind.SpAlign; address = core.now.sp })) }
{
    let sp = core.x_sp(Reg::at(31, 0));
    if is_tested && sp % 16 != 0 {
        return Err(Trap {
            kind: TrapKind::SpAlign,
            address: sp,
        });
    }
    Ok(())
}
