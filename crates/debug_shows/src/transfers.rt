//! Which lanes the elements of a load or store are: by the text of its instruction, where that begins with the name of
//! a transfer of the active lanes of one register, as `st1w {z2.s}, p0, [x5, x3, lsl #2]`.

use arrayvec::ArrayString;
use debug_names::{Lane, Thing, vector_of};
use dis_text::print;
use emu_bits::{Esize, Pred, Reg};
use insn_decode::decode;
use vec_regs::VecRegs;

/// A transfer of the active lanes of a register.
#[derive(Clone, Copy)]
pub struct Transfer {
    pub register: Reg,
    pub size: Esize,
    pub governing: Pred,
}

/// Whether a name is that of a transfer of one register whose active lanes each have an element.
fn is_transfer(name: &str) -> bool {
    let stores = name.starts_with("st1") || name.starts_with("stnt1");
    let loads = name.starts_with("ld1") || name.starts_with("ldff1") || name.starts_with("ldnf1");
    stores || (loads && !name.starts_with("ld1r")) || name.starts_with("ldnt1")
}

/// The transfer of a register with a size and a predicate, if both are there.
fn transfer_with(register: &Option<Thing>, governing: &Option<Thing>) -> Option<Transfer> {
    match register {
        Some(Thing::Z(register, Some(size))) => match governing {
            Some(Thing::P(governing, _)) => Some(Transfer {
                register: *register,
                size: *size,
                governing: *governing,
            }),
            _ => None,
        },
        _ => None,
    }
}

/// The transfer of a register and a predicate by their names.
fn transfer_by(register: &str, governing: &str) -> Option<Transfer> {
    let register = vector_of(register);
    let governing = vector_of(governing);
    transfer_with(&register, &governing)
}

/// The transfer that the text of an instruction tells.
fn transfer_in(text: &str) -> Option<Transfer> {
    let (name, rest) = text.split_once(' ')?;
    if !is_transfer(name) {
        return None;
    }
    let (register, behind) = rest.split_once('}')?;
    let (_, register) = register.split_once('{')?;
    let (_, behind) = behind.split_once(' ')?;
    let (governing, _) = behind.split_once(',')?;
    let (governing, _) = governing.split_once('/').unwrap_or((governing, ""));
    transfer_by(register, governing)
}

/// The transfer that a word is.
pub fn transfer_of(word: u32) -> Option<Transfer> {
    match decode(word) {
        None => None,
        Some(insn) => {
            let mut line = ArrayString::new();
            print(&insn, 0, &mut line);
            transfer_in(line.as_str())
        }
    }
}

/// The active lane in front of which stand so many active ones.
pub fn active_lane(vec: &VecRegs, transfer: &Transfer, before: usize) -> Option<Lane> {
    let bits = transfer.size.bits();
    let mut active = 0;
    'lanes: for i in 0..vec.length().lanes(transfer.size) {
        if vec.is_active(transfer.governing, bits, i) {
            if active == before {
                return Some(Lane {
                    register: transfer.register,
                    size: transfer.size,
                    index: u64::from(i),
                });
            }
            active += 1;
        }
    }
    None
}
