//! Whether the next step of a machine makes a call.
ghost use Rattle.std.specs.Prelude.{◌≡◌, Some};
ghost use Rattle.emu_run.specs.declared.insn.Insn.TheVariants as model_insn;
ghost use Rattle.emu_run.specs.Step as model;
ghost use Rattle.emu_run.specs.Threads as threads;

use crate::held::Held;
use a64_insn::{A64Form, ExceptOp};
use emu_machine::Machine;
use emu_model::Kind;
use insn_decode::{decode_a64_word, may_be_sve};

/// Whether a word is `svc`.
fn is_svc(word: u32) -> bool
    ensures { result ≡ threads.is_svc (model.decode word) }
{
    if may_be_sve(word) {
        return false;
    }
    match decode_a64_word::<Held>(word) {
        None => false,
        Some(insn) => is_svc_form(insn.form()),
    }
}

/// Whether a form is that of `svc`.
fn is_svc_form(form: &A64Form) -> bool
    ensures { result ≡ threads.is_svc (Some (model_insn.A64 form.now)) }
{
    match form {
        A64Form::Except {
            op: ExceptOp::Svc,
            ..
        } => true,
        _ => false,
    }
}

/// Whether the word at the program counter can be fetched, and is `svc`.
pub fn makes_call(machine: &mut Machine) -> bool
    ensures machine { machine.new ≡ machine.old }
    ensures call { result ≡ threads.makes_call machine.old.parts }
{
    let pc = machine.core().pc();
    if pc % 4 != 0 {
        return false;
    }
    match machine.load(pc, 4, Kind::Fetch) {
        Err(_) => false,
        Ok(word) => is_svc(word as u32),
    }
}
