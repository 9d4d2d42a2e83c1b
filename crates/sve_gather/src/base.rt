//! The test of SP before a gather or a scatter.
ghost use Rattle.std.specs.Prelude.{◌≡◌, ◌&&◌, ◌%◌, MatchResult, Bool, false, true, nat_eq, not};
ghost use Rattle.emu_model.specs.declared.trap.TrapKind.{TrapKind};
ghost use Rattle.sve_effects.specs.VectorElements.{elements_of};
ghost use Rattle.sve_effects.specs.VectorLoadStore.{tests_sp};
ghost use Rattle.element_loops.specs.Layouts.{IsPlan, layout_of};

use core_regs::{Core, Trap};
use element_loops::{Plan, tests_sp};
use guest_mem::element_access::test_sp;
use vec_regs::VecRegs;

/// Tests that SP is a multiple of 16, where a lane has an element and SP is the base. It isn't inlined, so that it
/// takes no time where another register is the base.
#[inline(never)]
fn test_stack(plan: &Plan, core: &Core, vec: &VecRegs) -> Result<(), Trap>
    requires { IsPlan plan.now vec.now }
    ensures { let misaligned : Bool = tests_sp plan.now.has_sp_base (elements_of (layout_of plan.now vec.now))
        && not (nat_eq (core.now.sp % 16) 0) in MatchResult result (λ x. misaligned ≡ false)
        (λ trap. (misaligned ≡ true) × (trap ≡ record { kind = TrapKind.SpAlign; address = core.now.sp })) }
{
    test_sp(core, tests_sp(plan, vec))
}

/// The same, at once where another register is the base.
#[inline(always)]
pub(crate) fn test_base(plan: &Plan, core: &Core, vec: &VecRegs) -> Result<(), Trap>
    requires { IsPlan plan.now vec.now }
    ensures { let misaligned : Bool = tests_sp plan.now.has_sp_base (elements_of (layout_of plan.now vec.now))
        && not (nat_eq (core.now.sp % 16) 0) in MatchResult result (λ x. misaligned ≡ false)
        (λ trap. (misaligned ≡ true) × (trap ≡ record { kind = TrapKind.SpAlign; address = core.now.sp })) }
{
    if plan.has_sp_base {
        return test_stack(plan, core, vec);
    }
    Ok(())
}
