//! Gathers and scatters as their loops read them: which lanes are active, and where the elements are.
ghost use Rattle.std.specs.Prelude.{◌≡◌, ◌<◌, true};
ghost use Rattle.element_loops.specs.Layouts.{IsPlan, layout_of};
ghost use Rattle.element_loops.specs.declared.plan.OnLanes.{OnLanes};
ghost use Rattle.sve_gather.specs.Indexing.{
  AreOffsets,
  IsIndex,
  IsIndexed,
  IsUsual,
  has_offsets,
  has_predicate,
  offset_of,
};

use element_loops::place::word;
use element_loops::sizes::scaled;
use element_loops::{OnLanes, Places, Plan};
use emu_bits::{Pred, Reg};
use vec_regs::VecRegs;

/// How much of a lane is its offset.
#[derive(Clone, Copy)]
pub enum Width {
    /// All of it.
    Lane,
    /// Its low 32 bits, signed or unsigned.
    Word { is_signed: bool },
}

/// Places of elements: at a base and the offsets that the lanes of a register hold, times `scale` bytes.
#[derive(Clone, Copy)]
pub struct Offsets {
    pub base: u64,
    pub register: Reg,
    pub width: Width,
    pub scale: u32,
}

/// The active lanes by a governing predicate, each with an element at an offset of its own.
#[derive(Clone, Copy)]
pub struct Index {
    pub pg: Pred,
    pub offsets: Offsets,
}

/// Whether elements have 1, 2, 4 or 8 bytes, and no more than their lanes.
fn is_usual(plan: &Plan) -> bool
    ensures { result ≡ true → IsUsual plan.now.bits plan.now.bytes }
{
    match plan.bytes {
        1 | 2 | 4 => true,
        8 => plan.bits == 64,
        _ => false,
    }
}

/// Whether the lanes that have an element are the active ones.
fn has_predicate(on: OnLanes) -> bool
    ensures { result ≡ has_predicate on }
{
    match on {
        OnLanes::All => false,
        OnLanes::Active(_) => true,
        OnLanes::Only(_) => false,
    }
}

/// Whether places are at offsets that lanes hold.
fn has_offsets(places: Places) -> bool
    ensures { result ≡ has_offsets places }
{
    match places {
        Places::Consecutive(_) => false,
        Places::Bytes(_) => false,
        Places::Single(_) => false,
        Places::Words { .. } => true,
        Places::Offsets { .. } => true,
        Places::Vector { .. } => true,
    }
}

/// Whether a plan has the loops of this crate: active lanes, elements at offsets, and usual sizes.
#[inline(always)]
pub(crate) fn is_indexed(plan: &Plan) -> bool
    ensures { result ≡ true → IsIndexed plan.now }
{
    if !is_usual(plan) {
        return false;
    }
    if !has_predicate(plan.on) {
        return false;
    }
    has_offsets(plan.places)
}

/// The predicate of the lanes.
#[inline(always)]
fn predicate(on: OnLanes) -> Pred
    requires { has_predicate on ≡ true }
    ensures { on ≡ OnLanes.Active result }
{
    match on {
        OnLanes::All => unreachable!(),
        OnLanes::Active(pg) => pg,
        OnLanes::Only(_) => unreachable!(),
    }
}

/// The offsets of places.
#[inline(always)]
fn offsets_of(places: Places) -> Offsets
    requires { has_offsets places ≡ true }
    ensures { AreOffsets result places }
{
    match places {
        Places::Words {
            base,
            is_signed,
            zm,
            scale,
        } => Offsets {
            base,
            register: zm,
            width: Width::Word { is_signed },
            scale,
        },
        Places::Offsets { base, zm, scale } => Offsets {
            base,
            register: zm,
            width: Width::Lane,
            scale,
        },
        Places::Vector { zn, offset } => Offsets {
            base: u64::from(offset),
            register: zn,
            width: Width::Lane,
            scale: 1,
        },
        Places::Consecutive(_) => unreachable!(),
        Places::Bytes(_) => unreachable!(),
        Places::Single(_) => unreachable!(),
    }
}

/// A plan as its loop reads it.
#[inline(always)]
pub(crate) fn index_of(plan: &Plan) -> Index
    requires { IsIndexed plan.now }
    ensures { IsIndex result plan.now }
{
    Index {
        pg: predicate(plan.on),
        offsets: offsets_of(plan.places),
    }
}

/// The offset in a lane.
#[inline(always)]
fn offset(width: Width, lane: u64) -> u64
    ensures { result ≡ offset_of width lane }
{
    match width {
        Width::Lane => lane,
        Width::Word { is_signed } => word(is_signed, lane),
    }
}

/// Whether a lane of e bits has an element.
#[inline(always)]
pub(crate) fn is_on(plan: &Plan, index: &Index, vec: &VecRegs, e: u32, k: u32) -> bool
    requires plan { IsPlan plan.now vec.now }
    requires index { IsIndex index.now plan.now }
    requires bits { e ≡ plan.now.bits }
    requires within { k < plan.now.lanes }
    ensures { let l = layout_of plan.now vec.now in result ≡ l.is_on k }
{
    vec.is_active(index.pg, e, k)
}

/// The address of the element of a lane of e bits.
#[inline(always)]
pub(crate) fn address(plan: &Plan, index: &Index, vec: &VecRegs, e: u32, k: u32) -> u64
    requires plan { IsPlan plan.now vec.now }
    requires index { IsIndex index.now plan.now }
    requires bits { e ≡ plan.now.bits }
    requires within { k < plan.now.lanes }
    ensures { let l = layout_of plan.now vec.now in result ≡ l.address k 0 }
{
    let offsets = index.offsets;
    let lane = vec.lane(offsets.register, e, k);
    scaled(offsets.base, offset(offsets.width, lane), offsets.scale)
}
