//! What a walk asks of each machine that it passes.
ghost use Rattle.std.specs.Prelude.{◌≡◌, ℕ, Bool, List};
ghost use Rattle.emu_model.specs.State.{Parts};
ghost use Rattle.emu_model.specs.declared.access.Access.{Access};

use emu_machine::Machine;

/// A test of a machine that a step led to.
pub trait Test {
    /// What it says of the address of the step's instruction, of the machine and of the step's accesses.
    ghost meets: { Self → ℕ → Parts → List Access → Bool };

    /// Whether a machine meets the test, behind a step of the instruction at an address.
    fn is_met(&self, from: u64, machine: &Machine) -> bool
        ensures { result ≡ meets self.now from machine.now.parts machine.now.accesses };
}
