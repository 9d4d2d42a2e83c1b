//! Holes filled, once all labels are known.
ghost use Rattle.std.specs.Prelude.{◌≡◌, ◌+◌, ◌≤◌, ◌^◌, List, length};
ghost use Rattle.asm_image.specs.Filling.{
  AllAimable,
  AllHaveRoom,
  ArePieces,
  FillsHole,
  FindsTarget,
  HasRoom,
  IsAimableGap,
  IsFilled,
  IsPatch,
  patch_bytes,
  piece_of,
  put_at,
  target_of,
};
ghost use Rattle.listing_model.specs.File.{rounded};
ghost use Rattle.listing_model.specs.Image.{address_of, base, contents_of, piece_bytes};
ghost use Rattle.listing_model.specs.Layout.{Placed};

use crate::draft::{Gap, Hole};
use crate::labels::{Labels, Place};
use asm_text::Instructions;
use asm_tokens::Target;
use emu_model::PAGE_SIZE;
use listing_model::{ListingFault, ListingWhy, Section};

/// Where code stands in memory.
pub const CODE_BASE: u64 = 0x40_0000;

/// Bytes of whole pages.
pub fn rounded_up(n: u64) -> u64
    requires { n ≤ 2 ^ 24 }
    ensures { result ≡ rounded n }
{
    (n + (PAGE_SIZE - 1)) / PAGE_SIZE * PAGE_SIZE
}

/// Where a place stands in memory, with so many bytes of code.
fn address_at(code_size: u64, place: Place) -> u64
    requires { code_size ≤ 2 ^ 24 }
    ensures { result ≡ base code_size place.section + place.at }
{
    let begin = match place.section {
        Section::Code => CODE_BASE,
        Section::Data => CODE_BASE + rounded_up(code_size),
    };
    begin + u64::from(place.at)
}

/// The address of a label, with so many bytes of code.
pub fn label_address(code_size: u64, labels: &Labels, name: &str) -> Option<u64>
    requires { code_size ≤ 2 ^ 24 }
    ensures { result ≡ address_of code_size labels.now name.now }
{
    Some(address_at(code_size, labels.find(name)?))
}

/// Puts bytes over those at a place.
fn overwrite(xs: &mut [u8], at: usize, bytes: &[u8])
    requires { at + length bytes.now ≤ length xs.old }
    ensures { xs.new ≡ put_at xs.old at bytes.now }
{
    xs[at..at + bytes.len()].copy_from_slice(bytes);
}

/// The address that a target is.
fn target_address(code_size: u64, labels: &Labels, target: &Target) -> Result<u64, ListingWhy>
    requires { code_size ≤ 2 ^ 24 }
    ensures { FindsTarget (target_of code_size labels.now target.now) result }
{
    match target {
        Target::Address(a) => Ok(*a),
        Target::Label(name) => match label_address(code_size, labels, name.text.as_str()) {
            None => Err(ListingWhy::UnknownLabel),
            Some(a) => Ok(a),
        },
    }
}

/// What fills a gap.
#[derive(Clone, Copy)]
enum Patch {
    /// The word of an instruction.
    Word(u32),
    /// The address of a label.
    Address(u64),
    Nothing,
}

/// What fills a gap at an address.
fn gap_patch<T: Instructions>(
    code_size: u64,
    labels: &Labels,
    pc: u64,
    gap: &Gap<T::Insn>,
) -> Result<Patch, ListingWhy>
    requires small { code_size ≤ 2 ^ 24 }
    requires aimable { IsAimableGap T.has_target gap.now }
    ensures { IsPatch result (piece_bytes T.statements (address_of code_size labels.now) pc (piece_of gap.now)) }
{
    match gap {
        Gap::Aim(insn, target) => {
            let address = target_address(code_size, labels, target)?;
            match T::aim(insn, pc, address) {
                None => Err(ListingWhy::TooFar),
                Some(aimed) => Ok(Patch::Word(T::word(&aimed))),
            }
        }
        Gap::Address(name) => match label_address(code_size, labels, name.text.as_str()) {
            None => Err(ListingWhy::UnknownLabel),
            Some(address) => Ok(Patch::Address(address)),
        },
        Gap::Mention(name) => match label_address(code_size, labels, name.text.as_str()) {
            None => Err(ListingWhy::UnknownLabel),
            Some(_) => Ok(Patch::Nothing),
        },
    }
}

/// Puts what fills a gap at a place.
fn put_patch(xs: &mut [u8], at: usize, patch: Patch)
    requires { at + length (patch_bytes patch) ≤ length xs.old }
    ensures { xs.new ≡ put_at xs.old at (patch_bytes patch) }
{
    match patch {
        Patch::Word(word) => overwrite(xs, at, &word.to_le_bytes()),
        Patch::Address(address) => overwrite(xs, at, &address.to_le_bytes()),
        Patch::Nothing => overwrite(xs, at, &[]),
    }
}

/// Fills a hole, whose bytes stand as zeros.
fn fill_hole<T: Instructions>(
    code: &mut [u8],
    values: &mut [u8],
    labels: &Labels,
    hole: &Hole<T::Insn>,
) -> Result<(), ListingFault>
    requires small { length code.old ≤ 2 ^ 24 }
    requires aimable { IsAimableGap T.has_target hole.now.gap }
    requires room { HasRoom (length code.old) (length values.old) hole.now }
    ensures { FillsHole T.statements labels.now hole.now code.old values.old code.new values.new result }
{
    let size = code.len() as u64;
    let pc = address_at(size, hole.place);
    match gap_patch::<T>(size, labels, pc, &hole.gap) {
        Err(why) => Err(ListingFault {
            line: hole.line,
            why,
        }),
        Ok(patch) => {
            match hole.place.section {
                Section::Code => put_patch(code, hole.place.at as usize, patch),
                Section::Data => put_patch(values, hole.place.at as usize, patch),
            }
            Ok(())
        }
    }
}

/// Fills the holes of pieces that stand one behind the other, up to the first that can't be filled.
pub fn fill<T: Instructions>(
    code: &mut [u8],
    values: &mut [u8],
    labels: &Labels,
    holes: &[Hole<T::Insn>],
) -> Result<(), ListingFault>
    requires small { length code.old ≤ 2 ^ 24 }
    requires room { AllHaveRoom (length code.old) (length values.old) holes.now }
    requires aimable { AllAimable T.has_target holes.now }
    ensures { (ps : List (Placed T.Insn)) → ArePieces ps code.old values.old holes.now → IsFilled result code.new
        values.new (contents_of T.statements (length code.old) (address_of (length code.old) labels.now) ps) }
{
    for hole in holes {
        match fill_hole::<T>(code, values, labels, hole) {
            Ok(()) => (),
            Err(fault) => return Err(fault),
        }
    }
    Ok(())
}
