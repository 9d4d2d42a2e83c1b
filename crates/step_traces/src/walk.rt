//! A run whose steps are told.
ghost use Rattle.std.specs.Prelude.{◌≡◌, ◌<◌, ◌+◌, ◌-◌, ◌^◌, IfOk, OnOk, drop, false};
ghost use Rattle.io_gate.specs.Streams.{HasCause};
ghost use Rattle.emu_run.specs.Step as model;
ghost use Rattle.emu_machine.specs.Ends.{step_end};
ghost use Rattle.emu_machine.specs.Machines.{has_ended};
ghost use Rattle.trace_lines.specs.Lines.{HasGained};
ghost use Rattle.trace_options.specs.Windows.{first_stage};
ghost use Rattle.step_traces.specs.Traces.{lines_of_steps, machine_left, is_left, is_told, stage_before, told_lines, told_line};

use crate::discard::Discard;
use crate::step::put_step_line;
use emu_machine::{Machine, StepEnd};
use io_gate::{Failed, Sink, SliceSource};
use trace_options::{Shown, Stage, Window, behind, is_in_range, is_over, stage_at};

/// Takes one step over an input that never fails. What the program writes is dropped.
fn take_step(machine: &mut Machine, source: &mut SliceSource) -> StepEnd
    requires going { has_ended machine.old ≡ false }
    requires room { machine.old.parts.steps < 2 ^ 64 - 1 }
    ensures parts { machine.new.parts
        ≡ (model.step_from machine.old.parts (drop source.old.place source.old.bytes)).parts }
    ensures input { drop source.new.place source.new.bytes
        ≡ (model.step_from machine.old.parts (drop source.old.place source.old.bytes)).input }
    ensures end { result ≡ step_end machine.new.parts.ended }
    ensures counted { result ≡ StepEnd.Going → machine.new.parts.steps ≡ machine.old.parts.steps + 1 }
    ensures failed { machine.new.failed ≡ false }
    ensures accesses { machine.new.accesses ≡ model.accesses machine.old.parts }
{
    let mut output = Discard;
    let mut errors = Discard;
    machine.step(source, &mut output, &mut errors)
}

/// Whether the step between two machines is told where the trace tells steps: it was counted, and stands in the range.
fn is_told(window: &Window, old: &Machine, new: &Machine) -> bool
    ensures { result ≡ is_told window.now old.now.parts new.now.parts }
{
    is_in_range(window.within, old.core().pc()) && old.steps() < new.steps()
}

/// Puts the line of the step between two machines, where it is told.
fn put_told<S: Sink>(
    shown: &Shown,
    window: &Window,
    old: &Machine,
    new: &Machine,
    sink: &mut S,
) -> Result<(), Failed>
    ensures bytes { OnOk result (HasGained (S.held sink.old) (S.held sink.new)
        (told_line shown.now window.now old.now.parts new.now.parts new.now.accesses)) }
    ensures cause { HasCause (S.faults sink.old) (S.faults sink.new) result }
{
    if is_told(window, old, new) {
        put_step_line(shown, old, new, sink)
    } else {
        Ok(())
    }
}

/// Puts the line of the step between two machines, where the stage tells steps.
fn put_at<S: Sink>(
    shown: &Shown,
    window: &Window,
    stage: Stage,
    old: &Machine,
    new: &Machine,
    sink: &mut S,
) -> Result<(), Failed>
    ensures bytes { OnOk result (HasGained (S.held sink.old) (S.held sink.new)
        (told_lines shown.now window.now stage old.now.parts new.now.parts new.now.accesses)) }
    ensures cause { HasCause (S.faults sink.old) (S.faults sink.new) result }
{
    match stage {
        Stage::Waiting(_) => Ok(()),
        Stage::Telling(_) => put_told(shown, window, old, new, sink),
        Stage::Over => Ok(()),
    }
}

/// How far the trace has come at a machine, by how far it came before.
fn stage_before(window: &Window, stage: Stage, machine: &Machine) -> Stage
    ensures { result ≡ stage_before window.now stage machine.now.parts }
{
    stage_at(window, stage, machine.steps(), machine.core().pc())
}

/// Takes a step of each of two machines that are the same, over inputs of which the same is left, and between them puts
/// the line of the step, where it is told.
fn take_both<S: Sink>(
    shown: &Shown,
    window: &Window,
    stage: Stage,
    machine: &mut Machine,
    source: &mut SliceSource,
    ahead: &mut Machine,
    source_ahead: &mut SliceSource,
    sink: &mut S,
) -> Result<StepEnd, Failed>
    requires going { has_ended machine.old ≡ false }
    requires whole { has_ended ahead.old ≡ false }
    requires room { machine.old.parts.steps < 2 ^ 64 - 1 }
    requires same { ahead.old.parts ≡ machine.old.parts }
    requires rest { drop source_ahead.old.place source_ahead.old.bytes ≡ drop source.old.place source.old.bytes }
    ensures bytes { OnOk result (HasGained (S.held sink.old) (S.held sink.new) (told_lines shown.now window.now stage
        machine.old.parts (model.step_from machine.old.parts (drop source.old.place source.old.bytes)).parts
        (model.accesses machine.old.parts))) }
    ensures parts { OnOk result (machine.new.parts
        ≡ (model.step_from machine.old.parts (drop source.old.place source.old.bytes)).parts) }
    ensures input { OnOk result (drop source.new.place source.new.bytes
        ≡ (model.step_from machine.old.parts (drop source.old.place source.old.bytes)).input) }
    ensures same { OnOk result (ahead.new.parts ≡ machine.new.parts) }
    ensures rest { OnOk result
        (drop source_ahead.new.place source_ahead.new.bytes ≡ drop source.new.place source.new.bytes) }
    ensures end { IfOk result (λ end. end ≡ step_end machine.new.parts.ended) }
    ensures counted { IfOk result
        (λ end. end ≡ StepEnd.Going → machine.new.parts.steps ≡ machine.old.parts.steps + 1) }
    ensures failed { OnOk result (machine.new.failed ≡ false) }
    ensures failed_ahead { OnOk result (ahead.new.failed ≡ false) }
    ensures cause { HasCause (S.faults sink.old) (S.faults sink.new) result }
{
    take_step(ahead, source_ahead);
    put_at(shown, window, stage, machine, ahead, sink)?;
    Ok(take_step(machine, source))
}

/// Tells the steps of a run over the whole of an input, as far as the window reaches, until the machine has ended or
/// has counted `budget` steps in all. The second machine is the same as the first: it goes a step ahead, so that both
/// sides of a step are there. What the program writes is dropped. Whether the window was left before.
pub fn trace<S: Sink>(
    shown: &Shown,
    window: &Window,
    machine: &mut Machine,
    ahead: &mut Machine,
    budget: u64,
    input: &[u8],
    sink: &mut S,
) -> Result<bool, Failed>
    requires going { has_ended machine.old ≡ false }
    requires whole { has_ended ahead.old ≡ false }
    requires same { ahead.old.parts ≡ machine.old.parts }
    ensures bytes { OnOk result (HasGained (S.held sink.old) (S.held sink.new)
        (lines_of_steps shown.now window.now (first_stage window.now)
        machine.old.parts input.now (budget - machine.old.parts.steps))) }
    ensures left { IfOk result (λ left. left ≡ is_left window.now (first_stage window.now)
        machine.old.parts input.now (budget - machine.old.parts.steps)) }
    ensures parts { OnOk result (machine.new.parts ≡ machine_left window.now (first_stage window.now)
        machine.old.parts input.now (budget - machine.old.parts.steps)) }
    ensures cause { HasCause (S.faults sink.old) (S.faults sink.new) result }
{
    let mut source = SliceSource::new(input);
    let mut source_ahead = SliceSource::new(input);
    let mut stage = Stage::Waiting(window.call);
    'walk: while machine.steps() < budget {
        stage = stage_before(window, stage, machine);
        if is_over(stage) {
            return Ok(true);
        }
        let end = take_both(
            shown,
            window,
            stage,
            machine,
            &mut source,
            ahead,
            &mut source_ahead,
            sink,
        )?;
        stage = behind(stage);
        match end {
            StepEnd::Going => {}
            _ => return Ok(false),
        }
    }
    Ok(false)
}
