//! What the names of a person's line name of a machine.
ghost use Rattle.std.specs.Prelude.{◌≡◌, ◌++◌, string_bytes, OnOk};
ghost use Rattle.debug_shows.specs.Things.{lane_line, lane_noted, thing_text};

use debug_names::{Lane, Thing};
use debug_places::Notation;
use debug_texts::{push_ffr, push_lane_name, push_noted, push_p, push_register, push_z};
use debug_values::{lane_value, register_value};
use emu_bits::Esize;
use emu_machine::Machine;
use std::alloc::AllocError;
use vec_regs::VecRegs;

/// Appends the value of a lane.
fn push_lane_value(
    text: &mut String,
    notation: Option<Notation>,
    vec: &VecRegs,
    lane: &Lane,
) -> Result<(), AllocError>
    ensures { OnOk result (string_bytes text.new ≡ string_bytes text.old ++ lane_noted notation vec.now lane.now) }
{
    push_noted(text, notation, lane.size.bits(), lane_value(vec, *lane))
}

/// Appends a lane with its value.
fn push_lane(
    text: &mut String,
    notation: Option<Notation>,
    vec: &VecRegs,
    lane: &Lane,
) -> Result<(), AllocError>
    ensures { OnOk result (string_bytes text.new ≡ string_bytes text.old ++ lane_line notation vec.now lane.now) }
{
    push_lane_name(text, lane)?;
    text.push_str(" = ")?;
    push_lane_value(text, notation, vec, lane)?;
    text.push_str("\n")
}

/// Appends what a name names of a machine's registers.
pub fn push_thing(
    text: &mut String,
    notation: Option<Notation>,
    machine: &Machine,
    thing: &Thing,
) -> Result<(), AllocError>
    ensures { OnOk result
        (string_bytes text.new ≡ string_bytes text.old ++ thing_text notation machine.now.parts thing.now) }
{
    let vec = machine.vec();
    match thing {
        Thing::Scalar(register) => push_register(
            text,
            notation,
            register,
            register_value(machine, *register),
        ),
        Thing::OneLane(lane) => push_lane(text, notation, vec, lane),
        Thing::Z(k, size) => push_z(text, notation, vec, *k, size.unwrap_or(Esize::B)),
        Thing::P(k, size) => push_p(text, vec, *k, size.unwrap_or(Esize::B)),
        Thing::Ffr(size) => push_ffr(text, vec, size.unwrap_or(Esize::B)),
    }
}
