//! Where a machine with marks stands in its input, and what its marks keep beside it.
ghost use Rattle.std.specs.Prelude.{◌≡◌, ◌<◌, ◌-◌, ◌^◌, ℕ, List, length as len, get_or, false, is_some};
ghost use Rattle.std.specs.List.{count_by};
ghost use Rattle.emu_model.specs.State.{State};
ghost use Rattle.emu_system.specs.Start.{with_input};
ghost use Rattle.emu_machine.specs.Machines.{has_ended};
ghost use Rattle.dbg_model.specs.Session.{Course, begun};
ghost use Rattle.dbg_back.specs.Walks.{IsWalk};

use crate::marks::free_mark;
use emu_machine::Machine;

/// So many steps behind a mark the next one is due.
const STRIDE: u64 = 4096;

/// How far a session has come beside its machine. Each array has a place for each mark of the machine.
#[derive(Drop)]
pub struct Trail {
    /// How many bytes of the input were taken.
    pub place: usize,
    /// The furthest number of steps that was counted.
    pub top: u64,
    /// The number of steps from which on a mark is due.
    pub due: u64,
    /// How many steps the machine of each mark has counted.
    pub steps: [u64; 16],
    /// How many bytes of the input were taken at each mark.
    pub places: [usize; 16],
}

impl Trail {
    /// The beginning of a session: the first mark keeps the machine, which has counted no step.
    pub fn begin(machine: &mut Machine) -> Trail
        requires marks { len machine.old.marks ≡ 16 }
        requires places { len machine.old.saved ≡ 16 }
        requires none { count_by is_some machine.old.marks ≡ 0 }
        requires steps { machine.old.parts.steps ≡ 0 }
        requires going { has_ended machine.old ≡ false }
        ensures { (input : List ℕ) → IsWalk (with_input machine.old.parts input) input
            (begun (with_input machine.old.parts input)) machine.new result }
    {
        let _spare = machine.spare();
        machine.mark(0);
        Trail {
            place: 0,
            top: 0,
            due: STRIDE,
            steps: [0; 16],
            places: [0; 16],
        }
    }

    /// Marks the machine as it is, where a mark is due.
    pub fn keep(&mut self, machine: &mut Machine)
        requires marks { len machine.old.marks ≡ 16 }
        requires places { len machine.old.saved ≡ 16 }
        requires going { has_ended machine.old ≡ false }
        requires room { machine.old.parts.steps < 2 ^ 64 - 1 }
        ensures walks { (start : State) (input : List ℕ) (c : Course) → IsWalk start input c machine.old self.old →
            IsWalk start input c machine.new self.new }
        ensures steps { machine.new.parts.steps ≡ machine.old.parts.steps }
        ensures going { has_ended machine.new ≡ false }
        ensures due { machine.new.parts.steps < self.new.due }
    {
        if machine.steps() < self.due {
            return;
        }
        let k = free_mark(machine);
        machine.mark(k);
        self.steps[k as usize] = machine.steps();
        self.places[k as usize] = self.place;
        self.due = machine.steps().saturating_add(STRIDE);
    }

    /// Stands where a mark was made: the machine is as the mark has it.
    pub fn stand_at(&mut self, k: u32)
        requires { k < 16 }
        ensures place { self.new.place ≡ get_or self.old.places k 0 }
        ensures top { self.new.top ≡ self.old.top }
        ensures steps { self.new.steps ≡ self.old.steps }
        ensures places { self.new.places ≡ self.old.places }
    {
        self.place = self.places[k as usize];
        self.due = self.steps[k as usize].saturating_add(STRIDE);
    }
}
