//! What the lines so far leave.
ghost use Rattle.std.specs.Prelude.{◌≤◌, ◌^◌, vec_len};

use crate::labels::{Labels, Place};
use asm_tokens::{Name, Target};
use listing_model::{ListingWhy, Section};
use std::alloc::{AllocError, Global};

/// What is to be filled in once all labels are known.
#[derive(Drop)]
pub enum Gap<I> {
    /// An instruction that is aimed at a target, in 4 bytes.
    Aim(I, Target),
    /// The address of a label, in 8 bytes.
    Address(Name),
    /// A label that has to stand somewhere, in no bytes.
    Mention(Name),
}

/// A gap of a line, at a place.
#[derive(Drop)]
pub struct Hole<I> {
    pub line: u32,
    pub place: Place,
    pub gap: Gap<I>,
}

/// Why a line can't be placed: it is refused, or memory is wanting.
#[derive(Clone, Copy, Debug, PartialEq, Eq)]
pub enum Stop {
    Refused(ListingWhy),
    OutOfMemory,
}

impl From<AllocError> for Stop {
    ghost use Rattle.std.specs.Prelude.{◌≡◌};
    ghost use Rattle.asm_image.specs.declared.draft.Stop.TheVariants.{OutOfMemory};

    ghost from_gives = { λ _ e. e ≡ OutOfMemory };

    fn from(_e: AllocError) -> Stop {
        Stop::OutOfMemory
    }
}

/// Bytes that a section may have.
pub const MOST: u64 = 1 << 24;

/// Bytes of memory that may stand behind the data.
pub const MOST_BSS: u64 = 1 << 30;

/// What the lines so far leave: the bytes of the sections, with zeros where something is to be filled in, and what is
/// to be filled in.
#[derive(Drop)]
pub struct Draft<I> {
    pub code: Vec<u8>,
    pub values: Vec<u8>,
    /// Bytes of memory behind the data.
    pub bss: u64,
    /// The section of the next line.
    pub section: Section,
    pub labels: Labels,
    /// The label of the entry.
    pub entry: Option<Name>,
    /// In the order of their lines.
    pub holes: Vec<Hole<I>>,
    ghost small_code: { vec_len code ≤ 2 ^ 24 },
    ghost small_values: { vec_len values ≤ 2 ^ 24 },
    ghost small_bss: { bss ≤ 2 ^ 30 },
}
