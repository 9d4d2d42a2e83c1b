//! The lanes of registers beside each other.
ghost use Rattle.std.specs.Prelude.{◌≡◌, ◌≤◌, ◌<◌, ◌/◌, ◌++◌, string_bytes, flat_map, OnOk};
ghost use Rattle.std.specs.List.{list_all};
ghost use Rattle.emu_bits.specs.Flags.{size_of};
ghost use Rattle.emu_run.specs.Registers.{lines_of};
ghost use Rattle.debug_texts.specs.Lanes.{
  cell_text,
  column_name,
  flag_at,
  flag_number,
  has_active,
  index_text,
  lane_line,
  lane_text,
  lanes_text,
  number_at,
  or_own,
  own_size,
  same_lane,
  size_among,
  sized_lanes,
  spaces,
  star,
};

use crate::numbers::{push_decimal, push_digits};
use crate::registers::{push_ffr_name, push_p_name, push_z_name};
use debug_names::Thing;
use emu_bits::Esize;
use std::alloc::AllocError;
use vec_regs::VecRegs;

/// The size of lanes that a register has of its own.
fn own_size(thing: &Thing) -> Option<Esize>
    ensures { result ≡ own_size thing.now }
{
    match *thing {
        Thing::Z(_, own) | Thing::P(_, own) | Thing::Ffr(own) => own,
        Thing::Scalar(_) | Thing::OneLane(_) => None,
    }
}

/// The size that was found, or else that of a register.
fn or_own(found: Option<Esize>, thing: &Thing) -> Option<Esize>
    ensures { result ≡ or_own found thing.now }
{
    match found {
        Some(size) => Some(size),
        None => own_size(thing),
    }
}

/// The size of lanes that registers ask for: that of the first that has one.
fn size_among(things: &[Thing], size: Option<Esize>) -> Option<Esize>
    ensures { result ≡ size_among size things.now }
{
    let mut found = size;
    'things: for thing in things {
        found = or_own(found, thing);
    }
    found
}

/// Whether lane i of a predicate is active. None of a vector register, and of a lane that there isn't.
fn flag_at(vec: &VecRegs, size: Esize, i: u32, thing: &Thing) -> Option<bool>
    ensures { result ≡ flag_at vec.now (size_of size) i thing.now }
{
    let bits = size.bits();
    let within = i < vec.length().lanes(size);
    match *thing {
        Thing::P(k, _) if within => Some(vec.p_bit(k, i * (bits / 8))),
        Thing::Ffr(_) if within => Some(vec.ffr_bit(i * (bits / 8))),
        _ => None,
    }
}

/// Lane i of a vector register, and 0 of any other and of a lane that there isn't.
fn number_at(vec: &VecRegs, size: Esize, i: u32, thing: &Thing) -> u64
    ensures { result ≡ number_at vec.now (size_of size) i thing.now }
{
    match *thing {
        Thing::Z(k, _) if i < vec.length().lanes(size) => vec.lane(k, size.bits(), i),
        _ => 0,
    }
}

/// A flag as a number, and 2 where there is none.
fn flag_number(flag: Option<bool>) -> u32
    ensures { result ≡ flag_number flag }
{
    match flag {
        None => 2,
        Some(true) => 1,
        Some(false) => 0,
    }
}

/// Whether a lane is the same in two states.
fn same_lane(old: &VecRegs, now: &VecRegs, size: Esize, i: u32, thing: &Thing) -> bool
    ensures { result ≡ same_lane old.now now.now (size_of size) i thing.now }
{
    flag_number(flag_at(old, size, i, thing)) == flag_number(flag_at(now, size, i, thing))
        && number_at(old, size, i, thing) == number_at(now, size, i, thing)
}

/// Appends a flag, or the hexadecimal digits of a lane.
fn push_lane(text: &mut String, size: Esize, flag: Option<bool>, v: u64) -> Result<(), AllocError>
    ensures { OnOk result (string_bytes text.new ≡ string_bytes text.old ++ lane_text (size_of size) flag v) }
{
    match flag {
        Some(flag) => push_decimal(text, u64::from(flag)),
        None => push_digits(text, v, size.bits() / 4),
    }
}

/// What marks a lane that isn't the same.
fn star(same: bool) -> &'static str
    ensures { result.now ≡ star same }
{
    if same { " " } else { "*" }
}

/// Appends a lane, with a star where the last step changed it.
fn push_cell(
    text: &mut String,
    before: &VecRegs,
    now: &VecRegs,
    size: Esize,
    i: u32,
    thing: &Thing,
) -> Result<(), AllocError>
    ensures { OnOk result (string_bytes text.new ≡ string_bytes text.old
        ++ cell_text before.now now.now (size_of size) i thing.now) }
{
    text.push_str("  ")?;
    push_lane(
        text,
        size,
        flag_at(now, size, i, thing),
        number_at(now, size, i, thing),
    )?;
    text.push_str(star(same_lane(before, now, size, i, thing)))
}

/// Appends a lane of each register.
fn push_cells(
    text: &mut String,
    before: &VecRegs,
    now: &VecRegs,
    size: Esize,
    i: u32,
    things: &[Thing],
) -> Result<(), AllocError>
    ensures { OnOk result (string_bytes text.new ≡ string_bytes text.old
        ++ flat_map (cell_text before.now now.now (size_of size) i) things.now) }
{
    'things: for thing in things {
        push_cell(text, before, now, size, i, thing)?;
    }
    Ok(())
}

/// Whether a predicate has a lane active. Any other register has.
fn has_active(now: &VecRegs, size: Esize, i: u32, thing: &Thing) -> bool
    ensures { result ≡ has_active now.now (size_of size) i thing.now }
{
    flag_number(flag_at(now, size, i, thing)) != 0
}

/// Whether each predicate among the registers has a lane active.
fn is_active(now: &VecRegs, size: Esize, i: u32, things: &[Thing]) -> bool
    ensures { result ≡ list_all (has_active now.now (size_of size) i) things.now }
{
    things.iter().all(|thing| has_active(now, size, i, thing))
}

/// Appends the name of a register, and nothing where it has no lanes.
fn push_column(text: &mut String, size: Esize, thing: &Thing) -> Result<(), AllocError>
    ensures { OnOk result (string_bytes text.new ≡ string_bytes text.old ++ column_name size thing.now) }
{
    match *thing {
        Thing::Z(k, _) => {
            text.push_str("  ")?;
            push_z_name(text, k, size)
        }
        Thing::P(k, _) => {
            text.push_str("  ")?;
            push_p_name(text, k, size)
        }
        Thing::Ffr(_) => {
            text.push_str("  ")?;
            push_ffr_name(text, size)
        }
        Thing::Scalar(_) | Thing::OneLane(_) => Ok(()),
    }
}

/// Appends the names of the registers.
fn push_columns(text: &mut String, size: Esize, things: &[Thing]) -> Result<(), AllocError>
    ensures { OnOk result (string_bytes text.new ≡ string_bytes text.old ++ flat_map (column_name size) things.now) }
{
    'things: for thing in things {
        push_column(text, size, thing)?;
    }
    Ok(())
}

/// The spaces before a number of at most three digits.
fn spaces(i: u32) -> &'static str
    ensures { result.now ≡ spaces i }
{
    if i < 10 {
        "  "
    } else if i < 100 {
        " "
    } else {
        ""
    }
}

/// Appends the number of a lane, with a mark where it is active.
fn push_index(text: &mut String, i: u32, active: bool) -> Result<(), AllocError>
    ensures { OnOk result (string_bytes text.new ≡ string_bytes text.old ++ index_text i active) }
{
    text.push_str(if active { ">" } else { " " })?;
    text.push_str(spaces(i))?;
    push_decimal(text, u64::from(i))
}

/// Appends the line of a lane.
fn push_line(
    text: &mut String,
    before: &VecRegs,
    now: &VecRegs,
    size: Esize,
    things: &[Thing],
    i: u32,
) -> Result<(), AllocError>
    ensures { OnOk result (string_bytes text.new ≡ string_bytes text.old
        ++ lane_line before.now now.now (size_of size) things.now i) }
{
    push_index(text, i, is_active(now, size, i, things))?;
    push_cells(text, before, now, size, i, things)?;
    text.push_str("\n")
}

/// Appends the lines of all lanes, lane 0 first.
fn push_all(
    text: &mut String,
    before: &VecRegs,
    now: &VecRegs,
    size: Esize,
    things: &[Thing],
) -> Result<(), AllocError>
    ensures { OnOk result (string_bytes text.new ≡ string_bytes text.old
        ++ lines_of (now.now.bits / size_of size) (lane_line before.now now.now (size_of size) things.now)) }
{
    'lanes: for i in 0..now.length().lanes(size) {
        push_line(text, before, now, size, things, i)?;
    }
    Ok(())
}

/// Appends lanes of a size.
fn push_sized(
    text: &mut String,
    before: &VecRegs,
    now: &VecRegs,
    size: Esize,
    things: &[Thing],
) -> Result<(), AllocError>
    ensures { OnOk result (string_bytes text.new ≡ string_bytes text.old
        ++ sized_lanes before.now now.now size things.now) }
{
    text.push_str("lane")?;
    push_columns(text, size, things)?;
    text.push_str("\n")?;
    push_all(text, before, now, size, things)
}

/// Appends the lanes of registers beside each other, lane 0 first: those that each predicate among them has active are
/// marked, and so is what is other than in the registers before.
pub fn push_lanes(
    text: &mut String,
    before: &VecRegs,
    now: &VecRegs,
    size: Option<Esize>,
    things: &[Thing],
) -> Result<(), AllocError>
    ensures { OnOk result (string_bytes text.new ≡ string_bytes text.old
        ++ lanes_text before.now now.now size things.now) }
{
    let size = size_among(things, size).unwrap_or(Esize::B);
    push_sized(text, before, now, size, things)
}
