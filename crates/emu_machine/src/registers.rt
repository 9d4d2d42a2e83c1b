//! The registers of a machine before they are set, and what it remembers beside them, each in memory of its own.
ghost use Rattle.std.specs.Prelude.{◌≡◌, IfOk};
ghost use Rattle.emu_model.specs.State.{zero_core, zero_vectors};

use core_regs::Core;
use emu_model::Length;
use guest_mem::AccessList;
use insn_decode::{DecodedWords, KnownOperations};
use std::alloc::{AllocError, Global};
use vec_regs::VecRegs;

/// The scalar and the vector registers, the words that were decoded, and room for the accesses of a step.
#[derive(Drop)]
pub(crate) struct Registers {
    pub(crate) core: Box<Core>,
    pub(crate) vec: Box<VecRegs>,
    pub(crate) words: DecodedWords,
    pub(crate) operations: KnownOperations,
    pub(crate) shown: AccessList,
}

impl Registers {
    /// All registers 0, with vectors of a length. The only error is want of memory.
    pub(crate) fn unset(alloc: Global, length: Length) -> Result<Registers, AllocError>
        ensures core { IfOk result (λ r. r.core.value ≡ zero_core) }
        ensures vectors { IfOk result (λ r. r.vec.value ≡ zero_vectors length) }
    {
        Ok(Registers {
            core: Box::new(alloc, Core::new())?,
            vec: Box::new(alloc, VecRegs::new(length))?,
            words: DecodedWords::new(alloc)?,
            operations: KnownOperations::new(alloc)?,
            shown: AccessList::new(alloc)?,
        })
    }
}
