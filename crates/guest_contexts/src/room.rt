//! Room for the registers of contexts that haven't started, taken before any does.
ghost use Rattle.std.specs.Prelude.{◌≡◌, IfOk, length as len};

use crate::context::{Context, Started};
use core_regs::Core;
use emu_model::Length;
use emu_run::Standing;
use std::alloc::{AllocError, Global};
use vec_regs::VecRegs;

/// Boxes for the registers of a context.
#[derive(Drop)]
pub struct Spare {
    core: Box<Core>,
    vec: Box<VecRegs>,
}

impl Spare {
    /// Boxes for vector registers of up to a length. The only error is want of memory.
    fn new(alloc: Global, length: Length) -> Result<Spare, AllocError> {
        Ok(Spare {
            core: Box::new(alloc, Core::new())?,
            vec: Box::new(alloc, VecRegs::new(length))?,
        })
    }

    /// A context, with its registers in these boxes.
    pub fn hold(self, started: Started) -> Context
        ensures { result ≡ started }
    {
        let Spare { mut core, mut vec } = self;
        let Started {
            core: scalars,
            vec: vectors,
            clear,
        } = started;
        *core = scalars;
        *vec = vectors;
        Context {
            core,
            vec,
            clear,
            standing: Standing::Ready,
        }
    }
}

/// Boxes for so many contexts, with vector registers of up to a length. The only error is want of memory.
pub fn spares(alloc: Global, length: Length, count: usize) -> Result<Vec<Spare>, AllocError>
    ensures { IfOk result (λ spares. len spares.items ≡ count) }
{
    let mut spares = Vec::with_capacity(alloc, count)?;
    for _turn in 0..count {
        spares.push_reserved(Spare::new(alloc, length)?);
    }
    Ok(spares)
}
