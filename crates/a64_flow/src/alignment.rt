//! The test of an address before an access.
ghost use Rattle.std.specs.Prelude.{◌≡◌, ◌≤◌, MatchResult, None, Some};
ghost use Rattle.emu_model.specs.declared.trap.TrapKind.{TrapKind};
ghost use Rattle.a64_effects.specs.LoadStore as table;

use core_regs::{Trap, TrapKind};

/// Tests that an address is a multiple of n.
pub(crate) fn test_multiple(address: u64, n: u32) -> Result<(), Trap>
    requires { 1 ≤ n }
    ensures { MatchResult result (λ x. table.unless_multiple address n ≡ None)
        (λ trap. (table.unless_multiple address n ≡ Some trap.address) × (trap.kind ≡ TrapKind.AccessAlign)) }
{
    if address % u64::from(n) != 0 {
        return Err(Trap {
            kind: TrapKind::AccessAlign,
            address,
        });
    }
    Ok(())
}
