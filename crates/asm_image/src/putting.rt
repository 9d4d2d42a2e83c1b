//! Bytes and holes behind those of a draft.
ghost use Rattle.std.specs.Prelude.{◌≡◌, ◌+◌, ◌^◌, [], ◌∷◌, IfErr, OnOk, length, replicate};
ghost use Rattle.asm_image.specs.Draft.{place_in, hole_at, Puts, IsFull, IsEmptyDraft};

use crate::draft::{Draft, Gap, Hole, MOST, Stop};
use crate::labels::{Labels, Place};
use listing_model::{ListingWhy, Section};
use std::alloc::Global;

/// A draft of no lines.
pub fn new_draft<I: Drop>(alloc: Global) -> Draft<I>
    ensures { IsEmptyDraft result }
{
    Draft {
        code: Vec::new(alloc),
        values: Vec::new(alloc),
        bss: 0,
        section: Section::Code,
        labels: Labels::new(alloc),
        entry: None,
        holes: Vec::new(alloc),
    }
}

/// Where the next byte stands.
pub fn here<I>(draft: &Draft<I>) -> Place
    ensures section { result.section ≡ draft.now.section }
    ensures at { result.at ≡ place_in draft.now }
{
    let at = match draft.section {
        Section::Code => draft.code.len(),
        Section::Data => draft.values.len(),
    };
    Place {
        section: draft.section,
        at: at as u32,
    }
}

/// How many bytes more the section may have.
fn room<I>(draft: &Draft<I>) -> u64
    ensures { place_in draft.now + result ≡ 2 ^ 24 }
{
    MOST - u64::from(here(draft).at)
}

/// Puts bytes behind those of the section.
pub fn put<I: Drop>(draft: &mut Draft<I>, bytes: &[u8]) -> Result<(), Stop>
    ensures ok { OnOk result (Puts draft.old draft.new bytes.now []) }
    ensures full { IfErr result (IsFull (place_in draft.old) (length bytes.now)) }
{
    if bytes.len() as u64 > room(draft) {
        return Err(Stop::Refused(ListingWhy::TooLarge));
    }
    match draft.section {
        Section::Code => draft.code.extend_from_slice(bytes)?,
        Section::Data => draft.values.extend_from_slice(bytes)?,
    }
    Ok(())
}

/// Puts zeros behind the bytes of the section.
pub fn put_zeros<I: Drop>(draft: &mut Draft<I>, count: u64) -> Result<(), Stop>
    ensures ok { OnOk result (Puts draft.old draft.new (replicate count 0) []) }
    ensures full { IfErr result (IsFull (place_in draft.old) count) }
{
    if count > room(draft) {
        return Err(Stop::Refused(ListingWhy::TooLarge));
    }
    let count = count as usize;
    match draft.section {
        Section::Code => draft.code.resize(draft.code.len() + count, 0)?,
        Section::Data => draft.values.resize(draft.values.len() + count, 0)?,
    }
    Ok(())
}

/// Puts a hole of so many bytes behind those of the section.
pub fn put_hole<I: Drop>(
    draft: &mut Draft<I>,
    line: u32,
    gap: Gap<I>,
    count: u64,
) -> Result<(), Stop>
    ensures ok { OnOk result (Puts draft.old draft.new (replicate count 0) (hole_at line draft.old gap ∷ [])) }
    ensures full { IfErr result (IsFull (place_in draft.old) count) }
{
    let place = here(draft);
    put_zeros(draft, count)?;
    draft
        .holes
        .push(Hole { line, place, gap })
        .map_err(|_| Stop::OutOfMemory)
}
