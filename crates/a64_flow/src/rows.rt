//! The rows that load or store registers. Each tests SP where it is the base, then the address where the row asks for
//! alignment, and then its elements one after the other. What comes behind is done where none was refused.
ghost use Rattle.std.specs.Prelude.{◌≡◌, []};
ghost use Rattle.a64_effects.specs.Groups.{load_store};
ghost use Rattle.a64_flow.specs.Ends.{ended};

use crate::atomic::{atomic, compare_swap};
use crate::exclusive::{load_exclusive, ordered, store_exclusive};
use crate::fields::access_bytes;
use crate::numbers::{indexed, near, scaled_near};
use crate::pairs::pair;
use crate::singles::{ls_literal, single_at};
use a64_insn::{A64, A64Form};
use core_regs::{Core, Trap};
use guest_mem::{AccessLog, Mem};
use vec_regs::VecRegs;

/// A row that loads or stores registers; another row does nothing here.
pub(crate) fn access(
    core: &mut Core,
    vec: &mut VecRegs,
    mem: &mut Mem,
    log: &mut AccessLog,
    i: &A64,
) -> Result<(), Trap>
    requires { log.old.items ≡ [] }
    ensures done { load_store i.now core.old vec.old mem.old.memory
        ≡ ended result core.new vec.new mem.new.memory log.new.items }
    ensures marks { mem.new.marks ≡ mem.old.marks }
{
    match *i.form() {
        // imm12 counts accesses
        A64Form::LsUnsigned {
            size,
            v,
            opc,
            imm12,
            rn,
            rt,
        } => {
            let at = scaled_near(core, rn, access_bytes(v, size, opc), imm12);
            single_at(core, vec, mem, log, v, size, opc, rn, rt, at, None)
        }
        A64Form::LsUnscaled {
            size,
            v,
            opc,
            imm9,
            rn,
            rt,
        } => {
            let at = near(core, rn, imm9);
            single_at(core, vec, mem, log, v, size, opc, rn, rt, at, None)
        }
        // the extended register counts accesses where s is set, else bytes
        A64Form::LsReg {
            size,
            v,
            opc,
            rm,
            ext,
            s,
            rn,
            rt,
        } => {
            let at = indexed(core, rn, rm, ext, s, access_bytes(v, size, opc));
            single_at(core, vec, mem, log, v, size, opc, rn, rt, at, None)
        }
        A64Form::LsPost {
            size,
            v,
            opc,
            imm9,
            rn,
            rt,
        } => {
            let at = core.x_sp(rn);
            let back = near(core, rn, imm9);
            single_at(core, vec, mem, log, v, size, opc, rn, rt, at, Some(back))
        }
        A64Form::LsPre {
            size,
            v,
            opc,
            imm9,
            rn,
            rt,
        } => {
            let at = near(core, rn, imm9);
            single_at(core, vec, mem, log, v, size, opc, rn, rt, at, Some(at))
        }
        A64Form::LsLiteral { opc, v, imm19, rt } => ls_literal(
            core, vec, mem, log, opc, v, imm19, rt,
        ),
        A64Form::Pair {
            opc,
            v,
            mode,
            l,
            imm7,
            rt2,
            rn,
            rt,
        } => pair(core, vec, mem, log, opc, v, mode, l, imm7, rt2, rn, rt),
        A64Form::StoreEx {
            size,
            rs,
            rn,
            rt,
            ..
        } => store_exclusive(core, vec, mem, log, size, rs, rn, rt),
        A64Form::LoadEx { size, rn, rt, .. } => {
            load_exclusive(core, vec, mem, log, size, rn, rt)
        }
        A64Form::Ordered { op, size, rn, rt } => ordered(core, vec, mem, log, op, size, rn, rt),
        A64Form::Atomic {
            op,
            size,
            rs,
            rn,
            rt,
            ..
        } => atomic(core, mem, log, op, size, rs, rn, rt),
        A64Form::CompareSwap {
            size,
            rs,
            rn,
            rt,
            ..
        } => compare_swap(core, mem, log, size, rs, rn, rt),
        _ => Ok(()),
    }
}
