//! The run of a machine that counts its steps by their words.
ghost use Rattle.std.specs.Prelude.{◌≡◌, ◌<◌, ◌≤◌, ◌-◌, ◌^◌, ℕ, OnOk, drop, false};
ghost use Rattle.emu_system.specs.Start.{with_input};
ghost use Rattle.emu_run.specs.Run.{run};
ghost use Rattle.emu_run.specs.Step as model;
ghost use Rattle.emu_machine.specs.Ends.{step_end};
ghost use Rattle.emu_machine.specs.Machines.{has_ended};
ghost use Rattle.word_counts.specs.Counts.{count_at};
ghost use Rattle.run_counts.specs.Visits.{visits};

use crate::discard::Discard;
use emu_machine::{Machine, StepEnd};
use io_gate::SliceSource;
use std::alloc::AllocError;
use word_counts::WordCounts;

/// Takes one step over an input that never fails. What the program writes is dropped.
#[inline(always)]
fn take_step(machine: &mut Machine, source: &mut SliceSource) -> StepEnd
    requires going { has_ended machine.old ≡ false }
    requires room { machine.old.parts.steps < 2 ^ 64 - 1 }
    ensures parts { machine.new.parts
        ≡ (model.step (with_input machine.old.parts (drop source.old.place source.old.bytes))).parts }
    ensures input { drop source.new.place source.new.bytes
        ≡ (model.step (with_input machine.old.parts (drop source.old.place source.old.bytes))).input }
    ensures end { result ≡ step_end machine.new.parts.ended }
    ensures failed { machine.new.failed ≡ false }
{
    let mut output = Discard;
    let mut errors = Discard;
    machine.step(source, &mut output, &mut errors)
}

/// Takes steps until the machine has ended or has counted `budget` steps in all, as `Machine::run` does, over the whole
/// of an input, and counts each step by the word that it began at. The step that exits is counted, and one that traps
/// isn't. What the program writes is dropped. Err is want of memory for the counts of a page that is executed for the
/// first time.
pub fn run_counted(
    machine: &mut Machine,
    budget: u64,
    input: &[u8],
    counts: &mut WordCounts,
) -> Result<(), AllocError>
    requires going { has_ended machine.old ≡ false }
    requires within { machine.old.parts.steps ≤ budget }
    requires none { (word : ℕ) → count_at counts.old word ≡ 0 }
    ensures parts { OnOk result
        (machine.new.parts ≡ (run (with_input machine.old.parts input.now) budget).parts) }
    ensures counts { OnOk result ((word : ℕ) → count_at counts.new word
        ≡ visits word (with_input machine.old.parts input.now) (machine.new.parts.steps - machine.old.parts.steps)) }
{
    let mut source = SliceSource::new(input);
    'walk: while machine.steps() < budget {
        let word = machine.core().pc() / 4;
        match take_step(machine, &mut source) {
            StepEnd::Going => counts.add(word)?,
            StepEnd::Exit(_) => {
                counts.add(word)?;
                return Ok(());
            }
            _ => return Ok(()),
        }
    }
    Ok(())
}
