//! Which steps of a run are told.
ghost use Rattle.std.specs.Prelude.{◌≡◌};
ghost use Rattle.trace_options.specs.Windows.{behind, begins_at, ends_at, is_over, is_in_range, stage_at};

/// So many bytes from an address on.
#[derive(Clone, Copy, Debug, PartialEq, Eq)]
pub struct Range {
    pub start: u64,
    pub size: u64,
}

/// Which steps of a run are told: from one on as far as another, and of these those of a range.
#[derive(Clone, Copy, Debug, PartialEq, Eq)]
pub struct Window {
    /// None of so many first steps is told, and no arrival among them is counted.
    pub after: u64,
    /// The first step that is told stands at this address, or anywhere.
    pub from: Option<u64>,
    /// At which arrival there, counted from 1, the first step is told.
    pub call: u64,
    /// The trace ends behind so many steps from the first one on.
    pub steps: u64,
    /// It ends before a later step at this address.
    pub until: Option<u64>,
    /// Only steps at addresses in this range are told.
    pub within: Option<Range>,
}

/// How far a trace has come: it awaits the first step, with so many arrivals still to come; it tells steps, of which so
/// many are left; or it has ended.
#[derive(Clone, Copy, Debug, PartialEq, Eq)]
pub enum Stage {
    Waiting(u64),
    Telling(u64),
    Over,
}

/// Whether the first step may stand at an address.
fn begins_at(from: Option<u64>, pc: u64) -> bool
    ensures { result ≡ begins_at from pc }
{
    match from {
        None => true,
        Some(address) => address == pc,
    }
}

/// Whether a trace ends before a step at an address.
fn ends_at(until: Option<u64>, pc: u64) -> bool
    ensures { result ≡ ends_at until pc }
{
    match until {
        None => false,
        Some(address) => address == pc,
    }
}

/// Whether a step at an address is among those that are told.
pub fn is_in_range(within: Option<Range>, pc: u64) -> bool
    ensures { result ≡ is_in_range within pc }
{
    match within {
        None => true,
        Some(range) => range.start <= pc && pc - range.start < range.size,
    }
}

/// How far the trace has come at a machine that has counted so many steps and stands at an address, by how far it came
/// before.
pub fn stage_at(window: &Window, stage: Stage, steps: u64, pc: u64) -> Stage
    ensures { result ≡ stage_at window.now stage steps pc }
{
    match stage {
        Stage::Over => Stage::Over,
        Stage::Telling(left) => {
            if left == 0 || ends_at(window.until, pc) {
                Stage::Over
            } else {
                Stage::Telling(left)
            }
        }
        Stage::Waiting(calls) => {
            if steps < window.after || !begins_at(window.from, pc) {
                Stage::Waiting(calls)
            } else if calls > 1 {
                Stage::Waiting(calls - 1)
            } else {
                Stage::Telling(window.steps)
            }
        }
    }
}

/// How far it has come behind a step.
pub fn behind(stage: Stage) -> Stage
    ensures { result ≡ behind stage }
{
    match stage {
        Stage::Waiting(calls) => Stage::Waiting(calls),
        Stage::Telling(left) => Stage::Telling(left.saturating_sub(1)),
        Stage::Over => Stage::Over,
    }
}

/// Whether it has ended.
pub fn is_over(stage: Stage) -> bool
    ensures { result ≡ is_over stage }
{
    match stage {
        Stage::Over => true,
        Stage::Waiting(_) | Stage::Telling(_) => false,
    }
}
