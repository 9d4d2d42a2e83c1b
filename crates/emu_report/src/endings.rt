//! The line of a run's ending, of a machine or of a world of contexts.
ghost use Rattle.std.specs.Prelude.{◌≡◌, ◌≤◌, ◌+◌, ◌++◌, codes, length};
ghost use Rattle.io_gate.specs.Streams.{HasCause};
ghost use Rattle.io_gate.specs.Pieces.{PutsAll};
ghost use Rattle.emu_run.specs.Reports.{
  address_text,
  after_steps,
  exit_text,
  spent_text,
  trap_text,
};

use crate::names::trap_name;
use crate::text::Text;
use emu_model::Trap;
use io_gate::{Failed, Sink};

/// Puts the line of a program that ended by a call, as `exit 7 after 3 steps`.
pub fn put_exit<S: Sink>(code: u8, steps: u64, sink: &mut S) -> Result<(), Failed>
    ensures bytes { PutsAll (S.held sink.old) (S.held sink.new) (exit_text code ++ after_steps steps) result }
    ensures cause { HasCause (S.faults sink.old) (S.faults sink.new) result }
{
    let mut text = Text::new();
    push_exit(&mut text, code);
    push_after_steps(&mut text, steps);
    text.put(sink)
}

/// Puts the line of a program that trapped at the address `pc`, as
/// `trap undefined 0x0000000000400000 at 0x0000000000400000 after 0 steps`.
pub fn put_trap<S: Sink>(t: &Trap, pc: u64, steps: u64, sink: &mut S) -> Result<(), Failed>
    ensures bytes { PutsAll (S.held sink.old) (S.held sink.new) (trap_text t.now pc ++ after_steps steps) result }
    ensures cause { HasCause (S.faults sink.old) (S.faults sink.new) result }
{
    let mut text = Text::new();
    push_trap(&mut text, t, pc);
    push_after_steps(&mut text, steps);
    text.put(sink)
}

/// Puts the line of a program whose budget is spent, as `spent after 2 steps`.
pub fn put_spent<S: Sink>(steps: u64, sink: &mut S) -> Result<(), Failed>
    ensures bytes { PutsAll (S.held sink.old) (S.held sink.new) (spent_text ++ after_steps steps) result }
    ensures cause { HasCause (S.faults sink.old) (S.faults sink.new) result }
{
    let mut text = Text::new();
    push_spent(&mut text);
    push_after_steps(&mut text, steps);
    text.put(sink)
}

/// Puts the line of a program of which no context is ready, as `stuck after 6 steps`.
pub fn put_stuck<S: Sink>(steps: u64, sink: &mut S) -> Result<(), Failed>
    ensures bytes { PutsAll (S.held sink.old) (S.held sink.new) (codes "stuck" ++ after_steps steps) result }
    ensures cause { HasCause (S.faults sink.old) (S.faults sink.new) result }
{
    let mut text = Text::new();
    text.push(b"stuck");
    push_after_steps(&mut text, steps);
    text.put(sink)
}

/// Appends how a program ended by a call, as `exit 7`.
pub fn push_exit(text: &mut Text, code: u8)
    requires { length text.old + 25 ≤ 2048 }
    ensures text { text.new ≡ text.old ++ exit_text code }
    ensures len { length text.new ≤ length text.old + 25 }
{
    text.push(b"exit ");
    text.push_decimal(u64::from(code));
}

/// Appends how a program trapped at the address `pc`, as `trap undefined 0x0000000000400000 at 0x0000000000400000`.
pub fn push_trap(text: &mut Text, t: &Trap, pc: u64)
    requires { length text.old + 60 ≤ 2048 }
    ensures text { text.new ≡ text.old ++ trap_text t.now pc }
    ensures len { length text.new ≤ length text.old + 60 }
{
    text.push(b"trap ");
    text.push(trap_name(t.kind).as_bytes());
    text.push(b" ");
    push_address(text, t.address);
    text.push(b" at ");
    push_address(text, pc);
}

/// Appends that a budget is spent, as `spent`.
pub fn push_spent(text: &mut Text)
    requires { length text.old + 5 ≤ 2048 }
    ensures text { text.new ≡ text.old ++ spent_text }
    ensures len { length text.new ≡ length text.old + 5 }
{
    text.push(b"spent");
}

/// Appends an address with 16 hexadecimal digits.
pub(crate) fn push_address(text: &mut Text, address: u64)
    requires { length text.old + 18 ≤ 2048 }
    ensures text { text.new ≡ text.old ++ address_text address }
    ensures len { length text.new ≡ length text.old + 18 }
{
    text.push(b"0x");
    text.push_hex(address, 16);
}

/// Appends ` after N steps` and a newline.
fn push_after_steps(text: &mut Text, steps: u64)
    requires { length text.old + 34 ≤ 2048 }
    ensures { text.new ≡ text.old ++ after_steps steps }
{
    text.push(b" after ");
    text.push_decimal(steps);
    text.push(b" steps\n");
}
