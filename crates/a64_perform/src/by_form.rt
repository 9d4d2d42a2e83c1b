//! Forms that are done by their operations.
ghost use Rattle.std.specs.Prelude.{◌≡◌, IsSome, true};
ghost use Rattle.a64_effects.specs.Operations as table;
ghost use Rattle.a64_operations.specs.Groups.{IsQuiet, has_operation};

use crate::performed::perform;
use a64_insn::A64Form;
use a64_operations::operation_of;
use core_regs::{Core, Effect};

/// Does what a form does where its operation is one on scalar registers alone, and says how the step goes on. None for
/// any other, and then nothing is changed.
pub fn perform_form(core: &mut Core, form: &A64Form) -> Option<Effect>
    ensures answers { has_operation form.now ≡ true → IsSome result }
    ensures done { IsQuiet (table.operation_of form.now) result core.old core.new }
{
    perform::<A64Form>(core, &operation_of::<A64Form>(form))
}
