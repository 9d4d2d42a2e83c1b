//! A64 instructions: one form for each line of the instruction table, made only where the line's condition holds.
#![tactic(auto)]

pub mod bit_move_words;
mod conditions;
pub mod data_words;
pub mod flow_words;
pub mod form;
pub mod lines;
pub mod memory_words;
pub mod ops;

pub use form::{A64, A64Form};
pub use lines::line_number;
pub use ops::{
    AddCarryOp, AddOp, AdrOp, AtomicOp, BarrierOp, BitfieldOp, BranchOp, BranchRegOp, CompareOp,
    CondCompareOp, ExceptOp, FMoveOp, LoadExOp, LogicImmOp, LogicRegOp, MoveWideOp, MulAddOp,
    MulHighOp, MulLongOp, OneSourceOp, OrderedOp, ReadSysOp, RevOp, SelectOp, StoreExOp, TestOp,
    TwoSourceOp, WriteSysOp,
};
