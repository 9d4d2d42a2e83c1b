//! Laws of the definitions, each the contract of a function that does nothing.
ghost use Rattle.sve_insn.specs.declared.form.SveForm.{SveForm};
ghost use Rattle.emu_model.specs.Access.{Memory};
ghost use Rattle.emu_model.specs.SoundDone.{IsSoundDone};
ghost use Rattle.emu_model.specs.State.{Core, Vectors};
ghost use Rattle.emu_model.specs.SoundState.{IsSoundCore, IsSoundVectors, IsSoundMemory};
ghost use Rattle.sve_effects.specs.Rows.{performed};

/// What an SVE instruction leaves of a sound state is sound: each number and list keeps its range and its length.
pub fn effects_keep_soundness()
    ensures { (form : SveForm) (c : Core) (v : Vectors) (m : Memory) → IsSoundCore c → IsSoundVectors v
        → IsSoundMemory m → IsSoundDone (performed form c v m) }
{}
