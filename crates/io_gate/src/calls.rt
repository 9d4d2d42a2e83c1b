//! The calls of an object in memory that are to fail.
ghost use Rattle.std.specs.Prelude.{◌≡◌, ◌<◌, ◌^◌, is_err, nat_eq};
ghost use Rattle.std.specs.List.{list_any};
ghost use Rattle.io_gate.specs.Calls.{is_due, uncalled, with_fault, after_call};

use crate::streams::Failed;
use std::marker::Model;

/// The numbers of the calls that are to fail, how many calls were made, and how many failed.
#[derive(Drop)]
pub struct FailingCalls {
    fails: Vec<u64>,
    made: u128,
    faults: u64,
}

impl Model for FailingCalls {
    ghost use Rattle.io_gate.specs.Calls.{Calls, coded_calls};

    ghost Value = { Calls };

    ghost coded = { coded_calls };

    ghost view = { λ c. record { fails = c.fails.items; made = c.made; faults = c.faults } };
}

impl FailingCalls {
    /// No call was made.
    pub fn new(fails: Vec<u64>) -> Self
        ensures { result ≡ uncalled fails.items }
    {
        FailingCalls {
            fails,
            made: 0,
            faults: 0,
        }
    }

    /// One call more, which fails where its number is to.
    pub fn call(&mut self) -> Result<(), Failed>
        ensures after { self.new ≡ after_call (is_err result) self.old }
        ensures fails { is_err result ≡ is_due self.old }
        ensures fits { self.old.faults < 2 ^ 64 }
    {
        let faults = self.faults;
        let is_due = stands_in(self.made, &self.fails);
        self.made = self.made.saturating_add(1);
        if is_due {
            self.faults = faults.saturating_add(1);
            return Err(Failed);
        }
        Ok(())
    }

    /// A fault of another cause.
    pub fn count_fault(&mut self)
        ensures { self.new ≡ with_fault self.old }
    {
        self.faults = self.faults.saturating_add(1);
    }
}

/// Whether the number is among these.
fn stands_in(number: u128, numbers: &[u64]) -> bool
    ensures { result ≡ list_any (λ n. nat_eq n number) numbers.now }
{
    numbers.iter().any(|n| u128::from(*n) == number)
}
