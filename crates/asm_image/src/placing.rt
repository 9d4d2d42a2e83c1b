//! Lines put behind those before.
ghost use Rattle.std.specs.Prelude.{◌≡◌, ◌≤◌, [], ◌∷◌, None, Ok, is_some, map};
ghost use Rattle.asm_image.specs.Draft.{
  IsDraft,
  IsPut,
  IsPlaced,
  IsSized,
  IsSizedDirective,
  IsFirstEntry,
  ChecksPlace,
  AddsLabel,
  body_misplaced,
  misplaced_at,
  with_body,
  with_pieces,
};
ghost use Rattle.asm_text.specs.Aimable.{IsAimable};
ghost use Rattle.listing_model.specs.declared.directive.Directive.TheVariants as Directive;
ghost use Rattle.listing_model.specs.declared.line.Body.TheVariants as Body;
ghost use Rattle.listing_model.specs.Layout.{Layout, entry_of, padding, is_instruction, number_piece, placed_line};

use crate::draft::{Draft, Gap, MOST_BSS, Stop};
use crate::labels::Place;
use crate::putting::{here, put, put_hole, put_zeros};
use asm_text::Instructions;
use asm_tokens::{Name, Target};
use listing_model::{Body, Directive, Line, ListingWhy, Section};
use std::alloc::Global;

/// Bytes from a place up to a multiple of `to`.
fn filling_at(to: u32, place: u32) -> u32
    ensures { result ≡ padding to place }
{
    if to == 0 { 0 } else { (to - place % to) % to }
}

/// Puts a number of so many bytes, or the address of a label.
fn put_number<T: Instructions>(
    draft: &mut Draft<T::Insn>,
    line: u32,
    size: u32,
    target: Target,
) -> Result<(), Stop>
    requires { size ≤ 8 }
    ensures { (l : Layout T.Insn) → IsDraft T.has_target draft.old l
        → IsPut T.has_target result draft.new (with_pieces line (number_piece size target ∷ []) l) }
{
    match target {
        Target::Address(x) => put(draft, &x.to_le_bytes()[..size as usize]),
        Target::Label(name) => put_hole(draft, line, Gap::Address(name), 8),
    }
}

/// Puts numbers of so many bytes each.
fn put_numbers<T: Instructions>(
    draft: &mut Draft<T::Insn>,
    line: u32,
    size: u32,
    values: Vec<Target>,
) -> Result<(), Stop>
    requires { size ≤ 8 }
    ensures { (l : Layout T.Insn) → IsDraft T.has_target draft.old l
        → IsPut T.has_target result draft.new (with_pieces line (map (number_piece size) values.items) l) }
{
    for target in values {
        match put_number::<T>(draft, line, size, target) {
            Ok(()) => (),
            Err(stop) => return Err(stop),
        }
    }
    Ok(())
}

/// Adds memory behind the data.
fn add_bss<T: Instructions>(draft: &mut Draft<T::Insn>, line: u32, count: u64) -> Result<(), Stop>
    ensures { (l : Layout T.Insn) → IsDraft T.has_target draft.old l
        → IsPut T.has_target result draft.new (with_body T.statements line l (Body.Directive (Directive.Bss count))) }
{
    if count > MOST_BSS - draft.bss {
        return Err(Stop::Refused(ListingWhy::TooLarge));
    }
    draft.bss += count;
    Ok(())
}

/// Notes the entry, whose label has to stand somewhere.
fn put_entry<T: Instructions>(
    alloc: Global,
    draft: &mut Draft<T::Insn>,
    line: u32,
    name: Name,
) -> Result<(), Stop>
    requires { draft.old.entry ≡ None }
    ensures { (l : Layout T.Insn) → IsDraft T.has_target draft.old l
        → IsPut T.has_target result draft.new (with_body T.statements line l (Body.Directive (Directive.Entry name))) }
{
    draft.entry = Some(Name::of(alloc, name.text.as_str())?);
    put_hole(draft, line, Gap::Mention(name), 0)
}

/// Puts what a directive leaves.
fn put_directive<T: Instructions>(
    alloc: Global,
    draft: &mut Draft<T::Insn>,
    line: u32,
    directive: Directive,
) -> Result<(), Stop>
    requires sized { IsSizedDirective directive }
    requires first { IsFirstEntry draft.old (Body.Directive directive) }
    ensures { (l : Layout T.Insn) → IsDraft T.has_target draft.old l
        → IsPut T.has_target result draft.new (with_body T.statements line l (Body.Directive directive)) }
{
    match directive {
        Directive::Code => {
            draft.section = Section::Code;
            Ok(())
        }
        Directive::Data => {
            draft.section = Section::Data;
            Ok(())
        }
        Directive::Numbers(size, values) => put_numbers::<T>(draft, line, size, values.items),
        Directive::Ascii(text) => put(draft, text.text.as_bytes()),
        Directive::Zero(count) => put_zeros(draft, count),
        Directive::Align(to) => put_zeros(draft, u64::from(filling_at(to, here(draft).at))),
        Directive::Bss(count) => add_bss::<T>(draft, line, count),
        Directive::Entry(name) => put_entry::<T>(alloc, draft, line, name),
    }
}

/// Puts what the body of a line leaves.
fn put_body<T: Instructions>(
    alloc: Global,
    draft: &mut Draft<T::Insn>,
    line: u32,
    body: Body<T::Insn>,
) -> Result<(), Stop>
    requires sized { IsSized body }
    requires first { IsFirstEntry draft.old body }
    requires aimable { IsAimable T.has_target body }
    ensures { (l : Layout T.Insn) → IsDraft T.has_target draft.old l
        → IsPut T.has_target result draft.new (with_body T.statements line l body) }
{
    match body {
        Body::Nothing => Ok(()),
        Body::Plain(insn) => put(draft, &T::word(&insn).to_le_bytes()),
        Body::Aimed(insn, target) => put_hole(draft, line, Gap::Aim(insn, target), 4),
        Body::Directive(directive) => put_directive::<T>(alloc, draft, line, directive),
    }
}

/// Whether a body is an instruction.
fn is_insn<I>(body: &Body<I>) -> bool
    ensures { result ≡ is_instruction body.now }
{
    matches!(body, Body::Plain(_) | Body::Aimed(_, _))
}

/// Whether a body names an entry.
fn is_entry<I>(body: &Body<I>) -> bool
    ensures { result ≡ is_some (entry_of body.now) }
{
    matches!(body, Body::Directive(Directive::Entry(_)))
}

/// Why an instruction can't stand at a place.
fn check_place(place: Place) -> Result<(), Stop>
    ensures { ChecksPlace (misplaced_at place) result }
{
    match place.section {
        Section::Data => Err(Stop::Refused(ListingWhy::InstructionInData)),
        Section::Code => {
            if place.at % 4 == 0 {
                Ok(())
            } else {
                Err(Stop::Refused(ListingWhy::Misaligned))
            }
        }
    }
}

/// Why a body can't stand at a place.
fn check_body<I>(body: &Body<I>, place: Place) -> Result<(), Stop>
    ensures { ChecksPlace (body_misplaced body.now place) result }
{
    if is_insn(body) {
        check_place(place)
    } else {
        Ok(())
    }
}

/// Adds the label of a line at the next byte.
fn add_label<I: Drop>(draft: &mut Draft<I>, label: Option<Name>) -> Result<(), Stop>
    ensures { AddsLabel draft.old draft.new label result }
{
    if let Some(name) = label {
        let place = here(draft);
        if !draft.labels.add(name, place)? {
            return Err(Stop::Refused(ListingWhy::LabelTwice));
        }
    }
    Ok(())
}

/// Places a line behind those before.
pub fn place_line<T: Instructions>(
    alloc: Global,
    draft: &mut Draft<T::Insn>,
    number: u32,
    line: Line<T::Insn>,
) -> Result<(), Stop>
    requires sized { IsSized line.body }
    requires aimable { IsAimable T.has_target line.body }
    ensures { (l : Layout T.Insn) → IsDraft T.has_target draft.old l
        → IsPlaced T.has_target result draft.new (placed_line T.statements number l (Ok line)) }
{
    let Line { label, body } = line;
    if is_entry(&body) && draft.entry.is_some() {
        return Err(Stop::Refused(ListingWhy::SecondEntry));
    }
    add_label(draft, label)?;
    check_body(&body, here(draft))?;
    put_body::<T>(alloc, draft, number, body)
}
