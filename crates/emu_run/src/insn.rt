//! Instructions of all the tables.
use a64_insn::A64;
use sve_insn::Sve;

/// An instruction: of the A64 base table, or of the Scalable Vector Extension's.
#[derive(Clone, Copy)]
pub enum Insn {
    A64(A64),
    Sve(Sve),
}
