//! The line of a step.
ghost use Rattle.std.specs.Prelude.{◌++◌, [], if◌then◌else◌, OnOk};
ghost use Rattle.io_gate.specs.Pieces.{PutsAll};
ghost use Rattle.io_gate.specs.Streams.{HasCause};
ghost use Rattle.emu_model.specs.Access.{value};
ghost use Rattle.trace_lines.specs.Lines.{
  access_texts,
  head_text,
  scalar_changes,
  traced_line,
  vector_changes,
  HasGained,
};

use emu_machine::Machine;
use io_gate::{Failed, Sink};
use trace_lines::{put_accesses, put_end, put_head, put_scalars, put_vectors, word_at};
use trace_options::Shown;

/// Puts where a machine stands: the number of the next step, its address, its word and the word's text.
fn put_place<S: Sink>(machine: &Machine, sink: &mut S) -> Result<(), Failed>
    ensures bytes { PutsAll (S.held sink.old) (S.held sink.new) (head_text machine.now.parts.steps
        machine.now.parts.core.pc (value machine.now.parts.memory machine.now.parts.core.pc 4)) result }
    ensures cause { HasCause (S.faults sink.old) (S.faults sink.new) result }
{
    let pc = machine.core().pc();
    put_head(machine.steps(), pc, word_at(machine.mem(), pc), sink)
}

/// Puts the scalar registers that differ between two machines.
fn put_core<S: Sink>(
    shown: &Shown,
    old: &Machine,
    new: &Machine,
    sink: &mut S,
) -> Result<(), Failed>
    ensures bytes { OnOk result (HasGained (S.held sink.old) (S.held sink.new)
        (scalar_changes shown.now old.now.parts.core new.now.parts.core)) }
    ensures cause { HasCause (S.faults sink.old) (S.faults sink.new) result }
{
    put_scalars(shown, old.core(), new.core(), sink)
}

/// Puts the vector length and the vector registers that differ between two machines.
fn put_vec<S: Sink>(shown: &Shown, old: &Machine, new: &Machine, sink: &mut S) -> Result<(), Failed>
    ensures bytes { OnOk result (HasGained (S.held sink.old) (S.held sink.new)
        (vector_changes shown.now old.now.parts.vectors new.now.parts.vectors)) }
    ensures cause { HasCause (S.faults sink.old) (S.faults sink.new) result }
{
    put_vectors(shown, old.vec(), new.vec(), sink)
}

/// Puts the accesses of the step between two machines, where they are told.
fn put_touched<S: Sink>(
    told: bool,
    old: &Machine,
    new: &Machine,
    sink: &mut S,
) -> Result<(), Failed>
    ensures bytes { OnOk result (HasGained (S.held sink.old) (S.held sink.new) (if told
        then access_texts old.now.parts.memory new.now.parts.memory new.now.accesses else [])) }
    ensures cause { HasCause (S.faults sink.old) (S.faults sink.new) result }
{
    put_accesses(told, new.accesses(), old.mem(), new.mem(), sink)
}

/// Puts what the step between two machines changed and touched.
fn put_changes<S: Sink>(
    shown: &Shown,
    old: &Machine,
    new: &Machine,
    sink: &mut S,
) -> Result<(), Failed>
    ensures bytes { OnOk result (HasGained (S.held sink.old) (S.held sink.new)
        ((scalar_changes shown.now old.now.parts.core new.now.parts.core
        ++ vector_changes shown.now old.now.parts.vectors new.now.parts.vectors)
        ++ (if shown.now.memory then access_texts old.now.parts.memory new.now.parts.memory new.now.accesses
        else []))) }
    ensures cause { HasCause (S.faults sink.old) (S.faults sink.new) result }
{
    put_core(shown, old, new, sink)?;
    put_vec(shown, old, new, sink)?;
    put_touched(shown.memory, old, new, sink)?;
    Ok(())
}

/// Puts the line of a step, by a machine before it and one behind it.
pub fn put_step_line<S: Sink>(
    shown: &Shown,
    old: &Machine,
    new: &Machine,
    sink: &mut S,
) -> Result<(), Failed>
    ensures bytes { OnOk result (HasGained (S.held sink.old) (S.held sink.new)
        (traced_line shown.now old.now.parts new.now.parts new.now.accesses)) }
    ensures cause { HasCause (S.faults sink.old) (S.faults sink.new) result }
{
    put_place(old, sink)?;
    put_changes(shown, old, new, sink)?;
    put_end(sink)?;
    Ok(())
}
