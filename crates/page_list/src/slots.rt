//! The slots of lists, and the frames that they hold.
ghost use Rattle.std.specs.Prelude.{
  ◌≡◌,
  ◌≤◌,
  ◌<◌,
  ◌+◌,
  ◌-◌,
  ◌^◌,
  ◌++◌,
  ◌∷◌,
  ℕ,
  List,
  [],
  true,
  false,
  length,
  set,
  take,
  drop,
  IfSome,
  IsSome,
  Some,
  None,
  option_map,
};
ghost use Rattle.std.specs.Bool.{OnTrue};
ghost use Rattle.std.specs.Vec.{vec_len, vec_capacity};
ghost use Rattle.emu_model.specs.Access.{page_size};
ghost use Rattle.emu_model.specs.Pages.{zeros};
ghost use Rattle.emu_model.specs.SoundState.{AreBytes};
ghost use Rattle.frame_arena.specs.Frames.{IsLive, Takes, bytes_of, count_of};
ghost use Rattle.page_list.specs.declared.slots.Slot.{Slot};
ghost use Rattle.page_list.specs.declared.slots.Hold.TheVariants.{Own};
ghost use Rattle.page_list.specs.Slots.{
  AreAtHand,
  AreBeside,
  AreHeld,
  AreOwn,
  Changes,
  HasRoom,
  block_bytes,
  bytes_in,
  code_after,
  emptied_slot,
  entries_in,
  frame_at,
  given_if,
  hand_of,
  hold_frame,
  holders,
  is_own,
  is_sole,
  owned_hold,
  owned_slot,
  shared_hold,
  shared_if,
  shared_slot,
  shared_slots,
  slot_at,
  sole_in,
  zeroed_slots,
};

use crate::code::CodePage;
use crate::hand::Hand;
use emu_model::{PAGE_BYTES, Rights};
use frame_arena::{Frame, FrameArena};
use std::mem;

/// What a page has of a frame.
#[derive(Drop)]
pub(crate) enum Hold {
    /// None: its bytes are 0.
    Bare,
    /// A frame that alone names its block.
    Own(Frame),
    /// A frame whose block others may name too.
    Shared(Frame),
}

/// A page: its number, its rights and the frame in whose block its bytes lie. It has none until its first write.
#[derive(Drop)]
pub(crate) struct Slot {
    pub(crate) number: u64,
    pub(crate) rights: Rights,
    pub(crate) hold: Hold,
}

/// A mark: slots of its own whose frames name blocks beside those of the pages. One that isn't set is empty.
#[derive(Drop)]
pub(crate) struct Mark {
    pub(crate) slots: Vec<Slot>,
    pub(crate) set: bool,
}

/// The bytes of each page that has no frame.
static ZEROS: [u8; PAGE_BYTES] = [0; PAGE_BYTES];

#[inline(always)]
fn zero_bytes() -> &'static [u8]
    ensures bytes { result.now ≡ zeros page_size }
    ensures length { length result.now ≡ page_size }
{
    &ZEROS
}

/// The same slice; its clause says that each of its values is a byte.
#[inline(always)]
pub(crate) fn told_bytes(bytes: &[u8]) -> &[u8]
    ensures same { result.now ≡ bytes.now }
    ensures bytes { AreBytes bytes.now }
{
    bytes
}

/// The 4,096 bytes of a page.
#[inline(always)]
pub(crate) fn page_bytes<'a>(slot: &'a Slot, arena: &'a FrameArena) -> &'a [u8]
    requires { IfSome (hold_frame slot.now.hold) (λ f. IsLive arena.now f) }
    ensures bytes { result.now ≡ bytes_in arena.now.live (hold_frame slot.now.hold) }
    ensures length { length result.now ≡ page_size }
{
    match &slot.hold {
        Hold::Own(frame) => told_bytes(arena.bytes(frame)),
        Hold::Shared(frame) => told_bytes(arena.bytes(frame)),
        Hold::Bare => zero_bytes(),
    }
}

/// The 4,096 bytes of a page that has this frame, or none.
#[inline(always)]
pub(crate) fn frame_bytes(arena: &FrameArena, frame: Option<u32>) -> &[u8]
    requires { IfSome frame (λ f. IsLive arena.now f) }
    ensures bytes { result.now ≡ bytes_in arena.now.live frame }
    ensures length { length result.now ≡ page_size }
{
    match frame {
        Some(number) => told_bytes(arena.bytes_at(number)),
        None => zero_bytes(),
    }
}

/// Whether the slot at place `i` says that its frame alone names its block.
#[inline(always)]
pub(crate) fn has_own(slots: &Vec<Slot>, i: usize) -> bool
    requires { i < length slots.now.items }
    ensures { result ≡ is_own (slot_at slots.now.items i) }
{
    match &slots[i].hold {
        Hold::Own(_) => true,
        Hold::Shared(_) => false,
        Hold::Bare => false,
    }
}

/// Whether the page at place `i` has no frame.
#[inline(always)]
fn is_bare(slots: &Vec<Slot>, i: usize) -> bool
    requires { i < length slots.now.items }
    ensures { OnTrue result (frame_at slots.now.items i ≡ None) }
{
    match &slots[i].hold {
        Hold::Own(_) => false,
        Hold::Shared(_) => false,
        Hold::Bare => true,
    }
}

/// The frame of the page at place `i`, which alone names its block.
#[inline(always)]
pub(crate) fn own_frame(slots: &Vec<Slot>, i: usize) -> &Frame
    requires place { i < length slots.now.items }
    requires own { is_own (slot_at slots.now.items i) ≡ true }
    ensures { frame_at slots.now.items i ≡ Some result.now }
{
    match &slots[i].hold {
        Hold::Own(frame) => frame,
        Hold::Shared(_) => unreachable!(),
        Hold::Bare => unreachable!(),
    }
}

/// Whether the page at place `i` has a block that it alone names.
fn has_sole(slots: &Vec<Slot>, arena: &FrameArena, i: usize) -> bool
    requires place { i < length slots.now.items }
    requires held { AreHeld arena.now.live slots.now.items }
    ensures { result ≡ is_sole arena.now.live (frame_at slots.now.items i) }
{
    match &slots[i].hold {
        Hold::Own(frame) => arena.sole(frame),
        Hold::Shared(frame) => arena.sole(frame),
        Hold::Bare => false,
    }
}

/// A frame with the bytes of a page.
fn new_frame(arena: &mut FrameArena, hold: &Hold) -> Frame
    requires live { IfSome (hold_frame hold.now) (λ f. IsLive arena.old f) }
    requires spare { 1 ≤ arena.old.spare }
    ensures { Takes arena.old result (block_bytes arena.old.live (hold_frame hold.now)) arena.new }
{
    let taken = match hold {
        Hold::Own(frame) => arena.copy(frame),
        Hold::Shared(frame) => arena.copy(frame),
        Hold::Bare => arena.take(),
    };
    match taken {
        Some(frame) => frame,
        None => unreachable!(),
    }
}

/// Gives a frame back where there is one.
fn give_if(arena: &mut FrameArena, hold: Hold)
    requires { IfSome (hold_frame hold) (λ f. IsLive arena.old f) }
    ensures { arena.new ≡ given_if arena.old (hold_frame hold) }
{
    match hold {
        Hold::Own(frame) => arena.give(frame),
        Hold::Shared(frame) => arena.give(frame),
        Hold::Bare => {}
    }
}

/// Puts a frame of its own in at place `i`, and hands out what was there.
fn put_frame(slots: &mut Vec<Slot>, i: usize, frame: Frame) -> Hold
    requires { i < length slots.old.items }
    ensures frame { hold_frame result ≡ frame_at slots.old.items i }
    ensures slots { slots.new.items ≡ set slots.old.items i (record (slot_at slots.old.items i) { hold = Own frame }) }
    ensures capacity { vec_capacity slots.new ≡ vec_capacity slots.old }
{
    mem::replace(&mut slots[i].hold, Hold::Own(frame))
}

/// Says of the page at place `i` that its frame alone names its block.
fn own_again(slots: &mut Vec<Slot>, i: usize)
    requires { i < length slots.old.items }
    ensures slots { slots.new.items ≡ set slots.old.items i (owned_slot (slot_at slots.old.items i)) }
    ensures capacity { vec_capacity slots.new ≡ vec_capacity slots.old }
{
    let slot = &mut slots[i];
    slot.hold = as_own(mem::replace(&mut slot.hold, Hold::Bare));
}

fn as_own(hold: Hold) -> Hold
    ensures { result ≡ owned_hold hold }
{
    match hold {
        Hold::Own(frame) => Hold::Own(frame),
        Hold::Shared(frame) => Hold::Own(frame),
        Hold::Bare => Hold::Bare,
    }
}

fn as_shared(hold: Hold) -> Hold
    ensures { result ≡ shared_hold hold }
{
    match hold {
        Hold::Own(frame) => Hold::Shared(frame),
        Hold::Shared(frame) => Hold::Shared(frame),
        Hold::Bare => Hold::Bare,
    }
}

/// The number of a page's frame, if it has one.
pub(crate) fn frame_number(slot: &Slot) -> Option<u32>
    ensures { result ≡ hold_frame slot.now.hold }
{
    match &slot.hold {
        Hold::Own(frame) => Some(frame.number()),
        Hold::Shared(frame) => Some(frame.number()),
        Hold::Bare => None,
    }
}

/// The numbers of a page and its frame, where it has one.
pub(crate) fn code_of(slot: &Slot) -> Option<CodePage>
    ensures { result ≡ option_map (λ f. record { number = slot.now.number; frame = f }) (hold_frame slot.now.hold) }
{
    match &slot.hold {
        Hold::Own(frame) => Some(CodePage {
            number: slot.number,
            frame: frame.number(),
        }),
        Hold::Shared(frame) => Some(CodePage {
            number: slot.number,
            frame: frame.number(),
        }),
        Hold::Bare => None,
    }
}

/// The page at hand where the page of a slot gets another frame.
pub(crate) fn code_with(code: CodePage, slot: &Slot, frame: &Frame) -> CodePage
    ensures { result ≡ code_after code slot.now frame.now }
{
    if slot.number == code.number && slot.rights.x {
        CodePage {
            number: code.number,
            frame: frame.number(),
        }
    } else {
        code
    }
}

/// Gives the page at place `i` a block of its own in the place of none, or of one that others name too.
fn replace_frame(slots: &mut Vec<Slot>, arena: &mut FrameArena, hand: &mut Hand, i: usize)
    requires place { i < length slots.old.items }
    requires shared { is_sole arena.old.live (frame_at slots.old.items i) ≡ false }
    requires room { length slots.old.items ≤ arena.old.spare + sole_in arena.old.live slots.old.items }
    requires held { AreHeld arena.old.live slots.old.items }
    requires own { AreOwn arena.old.live slots.old.items }
    ensures entries { entries_in arena.new.live slots.new.items ≡ entries_in arena.old.live slots.old.items }
    ensures here { is_own (slot_at slots.new.items i) ≡ true }
    ensures hand { hand_of hand.new ≡ hand_of hand.old }
    ensures at_hand { AreAtHand slots.old.items hand.old → AreAtHand slots.new.items hand.new }
    ensures changes { Changes arena.old arena.new slots.old.items slots.new.items }
    ensures own { AreOwn arena.new.live slots.new.items }
    ensures room { arena.old.spare + sole_in arena.old.live slots.old.items
        ≤ arena.new.spare + sole_in arena.new.live slots.new.items }
    ensures length { length slots.new.items ≡ length slots.old.items }
    ensures capacity { vec_capacity slots.new ≡ vec_capacity slots.old }
{
    let frame = new_frame(arena, &slots[i].hold);
    hand.turn(&slots[i], i, &frame);
    let old = put_frame(slots, i, frame);
    give_if(arena, old);
}

/// Gives the page at place `i` a block that it alone names.
#[cold]
#[inline(never)]
fn make_own(slots: &mut Vec<Slot>, arena: &mut FrameArena, hand: &mut Hand, i: usize)
    requires place { i < length slots.old.items }
    requires room { length slots.old.items ≤ arena.old.spare + sole_in arena.old.live slots.old.items }
    requires held { AreHeld arena.old.live slots.old.items }
    requires own { AreOwn arena.old.live slots.old.items }
    ensures entries { entries_in arena.new.live slots.new.items ≡ entries_in arena.old.live slots.old.items }
    ensures here { is_own (slot_at slots.new.items i) ≡ true }
    ensures hand { hand_of hand.new ≡ hand_of hand.old }
    ensures at_hand { AreAtHand slots.old.items hand.old → AreAtHand slots.new.items hand.new }
    ensures changes { Changes arena.old arena.new slots.old.items slots.new.items }
    ensures own { AreOwn arena.new.live slots.new.items }
    ensures room { arena.old.spare + sole_in arena.old.live slots.old.items
        ≤ arena.new.spare + sole_in arena.new.live slots.new.items }
    ensures length { length slots.new.items ≡ length slots.old.items }
    ensures capacity { vec_capacity slots.new ≡ vec_capacity slots.old }
{
    if has_sole(slots, arena, i) {
        own_again(slots, i);
    } else {
        replace_frame(slots, arena, hand, i);
    }
}

/// Gives the page at place `i` a block that it alone names, unless its slot says that it has one.
#[inline(always)]
pub(crate) fn ensure_own(slots: &mut Vec<Slot>, arena: &mut FrameArena, hand: &mut Hand, i: usize)
    requires place { i < length slots.old.items }
    requires room { length slots.old.items ≤ arena.old.spare + sole_in arena.old.live slots.old.items }
    requires held { AreHeld arena.old.live slots.old.items }
    requires own { AreOwn arena.old.live slots.old.items }
    ensures entries { entries_in arena.new.live slots.new.items ≡ entries_in arena.old.live slots.old.items }
    ensures here { is_own (slot_at slots.new.items i) ≡ true }
    ensures sole { is_sole arena.new.live (frame_at slots.new.items i) ≡ true }
    ensures hand { hand_of hand.new ≡ hand_of hand.old }
    ensures at_hand { AreAtHand slots.old.items hand.old → AreAtHand slots.new.items hand.new }
    ensures changes { Changes arena.old arena.new slots.old.items slots.new.items }
    ensures own { AreOwn arena.new.live slots.new.items }
    ensures room { arena.old.spare + sole_in arena.old.live slots.old.items
        ≤ arena.new.spare + sole_in arena.new.live slots.new.items }
    ensures length { length slots.new.items ≡ length slots.old.items }
    ensures capacity { vec_capacity slots.new ≡ vec_capacity slots.old }
{
    if !has_own(slots, i) {
        make_own(slots, arena, hand, i);
    }
}

/// Takes the last slot away, and gives its frame back where it has one.
fn pop_given(slots: &mut Vec<Slot>, arena: &mut FrameArena)
    requires some { 1 ≤ length slots.old.items }
    requires held { AreHeld arena.old.live slots.old.items }
    ensures slots { slots.new.items ≡ take (length slots.new.items) slots.old.items }
    ensures changes { Changes arena.old arena.new slots.old.items slots.new.items }
    ensures room { (others : List Slot) → AreBeside arena.old.live slots.old.items others
        → HasRoom arena.old arena.new slots.old.items slots.new.items others }
    ensures length { length slots.new.items + 1 ≡ length slots.old.items }
    ensures capacity { vec_capacity slots.new ≡ vec_capacity slots.old }
{
    let Some(slot) = slots.pop() else {
        unreachable!()
    };
    let Slot {
        number: _,
        rights: _,
        hold,
    } = slot;
    give_if(arena, hold);
}

/// Puts `count` zeroed pages from page `first` on at the end. They have no frames.
pub(crate) fn push_all(slots: &mut Vec<Slot>, first: u64, count: u64, rights: Rights)
    requires ends { first + count ≤ 2 ^ 35 }
    requires room { length slots.old.items + count ≤ vec_capacity slots.old }
    ensures slots { slots.new.items ≡ slots.old.items ++ zeroed_slots first count rights }
    ensures length { length slots.new.items ≡ length slots.old.items + count }
    ensures capacity { vec_capacity slots.new ≡ vec_capacity slots.old }
{
    for number in first..first + count {
        slots.push_reserved(Slot {
            number,
            rights,
            hold: Hold::Bare,
        });
    }
}

/// Takes the last `count` slots away.
pub(crate) fn pop_all(slots: &mut Vec<Slot>, arena: &mut FrameArena, count: usize)
    requires some { count ≤ length slots.old.items }
    requires held { AreHeld arena.old.live slots.old.items }
    ensures slots { slots.new.items ≡ take (length slots.new.items) slots.old.items }
    ensures changes { Changes arena.old arena.new slots.old.items slots.new.items }
    ensures room { (others : List Slot) → AreBeside arena.old.live slots.old.items others
        → HasRoom arena.old arena.new slots.old.items slots.new.items others }
    ensures length { length slots.new.items + count ≡ length slots.old.items }
    ensures capacity { vec_capacity slots.new ≡ vec_capacity slots.old }
{
    for _turn in 0..count {
        pop_given(slots, arena);
    }
}

/// Another frame that names the same block, where there is one.
fn share_if(arena: &mut FrameArena, hold: &Hold) -> Hold
    requires live { IfSome (hold_frame hold.now) (λ f. IsLive arena.old f) }
    requires few { IfSome (hold_frame hold.now) (λ f. count_of arena.old.live f + 1 < 2 ^ 32) }
    ensures same { result ≡ shared_hold hold.now }
    ensures arena { arena.new ≡ shared_if arena.old (hold_frame hold.now) }
{
    match hold {
        Hold::Own(frame) => Hold::Shared(arena.share(frame)),
        Hold::Shared(frame) => Hold::Shared(arena.share(frame)),
        Hold::Bare => Hold::Bare,
    }
}

/// A slot as the one at place `i`, which has no frame.
#[inline(always)]
fn bare_slot(slots: &Vec<Slot>, i: usize) -> Slot
    requires place { i < length slots.now.items }
    requires bare { frame_at slots.now.items i ≡ None }
    ensures { result ≡ shared_slot (slot_at slots.now.items i) }
{
    let slot = &slots[i];
    Slot {
        number: slot.number,
        rights: slot.rights,
        hold: Hold::Bare,
    }
}

/// A slot as the one at place `i`, which from now on shares its frame.
#[inline(always)]
fn share_slot(slots: &mut Vec<Slot>, arena: &mut FrameArena, i: usize) -> Slot
    requires place { i < length slots.old.items }
    requires live { IfSome (frame_at slots.old.items i) (λ f. IsLive arena.old f) }
    requires few { IfSome (frame_at slots.old.items i) (λ f. count_of arena.old.live f + 1 < 2 ^ 32) }
    ensures slot { result ≡ shared_slot (slot_at slots.old.items i) }
    ensures slots { slots.new.items ≡ set slots.old.items i (shared_slot (slot_at slots.old.items i)) }
    ensures arena { arena.new ≡ shared_if arena.old (frame_at slots.old.items i) }
    ensures capacity { vec_capacity slots.new ≡ vec_capacity slots.old }
{
    let slot = &mut slots[i];
    let other = Slot {
        number: slot.number,
        rights: slot.rights,
        hold: share_if(arena, &slot.hold),
    };
    slot.hold = as_shared(mem::replace(&mut slot.hold, Hold::Bare));
    other
}

/// Puts a slot as the one at place `i` of a list at the end of another. From now on they share its frame, where it has
/// one.
#[inline(always)]
fn share_next(from: &mut Vec<Slot>, to: &mut Vec<Slot>, arena: &mut FrameArena, i: usize)
    requires place { i < length from.old.items }
    requires room { length to.old.items < vec_capacity to.old }
    requires live { IfSome (frame_at from.old.items i) (λ f. IsLive arena.old f) }
    requires few { IfSome (frame_at from.old.items i) (λ f. count_of arena.old.live f + 1 < 2 ^ 32) }
    ensures from { from.new.items ≡ set from.old.items i (shared_slot (slot_at from.old.items i)) }
    ensures to { to.new.items ≡ to.old.items ++ shared_slot (slot_at from.old.items i) ∷ [] }
    ensures arena { arena.new ≡ shared_if arena.old (frame_at from.old.items i) }
    ensures capacity { vec_capacity from.new ≡ vec_capacity from.old }
    ensures capacity_to { vec_capacity to.new ≡ vec_capacity to.old }
{
    // most pages have no frame, and then nothing is shared
    if is_bare(from, i) {
        to.push_reserved(bare_slot(from, i));
    } else {
        to.push_reserved(share_slot(from, arena, i));
    }
}

/// Fills an empty list with slots as those of another, whose frames are from now on shared.
pub(crate) fn share_all(from: &mut Vec<Slot>, to: &mut Vec<Slot>, arena: &mut FrameArena)
    requires empty { to.old.items ≡ [] }
    requires room { length from.old.items ≤ vec_capacity to.old }
    requires held { AreHeld arena.old.live from.old.items }
    requires few { (f : ℕ) → count_of arena.old.live f + length from.old.items < 2 ^ 32 }
    ensures from { from.new.items ≡ shared_slots from.old.items }
    ensures to { to.new.items ≡ shared_slots from.old.items }
    ensures counts { (f : ℕ) → count_of arena.new.live f ≡ count_of arena.old.live f + holders f from.old.items }
    ensures bytes { (f : ℕ) → bytes_of arena.new.live f ≡ bytes_of arena.old.live f }
    ensures spare { arena.new.spare ≡ arena.old.spare }
    ensures total { arena.new.total ≡ arena.old.total }
    ensures capacity { vec_capacity from.new ≡ vec_capacity from.old }
    ensures capacity_to { vec_capacity to.new ≡ vec_capacity to.old }
{
    for i in 0..from.len() {
        share_next(from, to, arena, i);
    }
}

/// Gives the frame of the page at place `i` back, where it has one, and leaves the page without.
#[inline(always)]
fn give_frame(slots: &mut Vec<Slot>, arena: &mut FrameArena, i: usize)
    requires place { i < length slots.old.items }
    requires live { IfSome (frame_at slots.old.items i) (λ f. IsLive arena.old f) }
    ensures slots { slots.new.items ≡ set slots.old.items i (emptied_slot (slot_at slots.old.items i)) }
    ensures arena { arena.new ≡ given_if arena.old (frame_at slots.old.items i) }
    ensures capacity { vec_capacity slots.new ≡ vec_capacity slots.old }
{
    if !is_bare(slots, i) {
        let hold = mem::replace(&mut slots[i].hold, Hold::Bare);
        give_if(arena, hold);
    }
}

/// Takes all slots away.
pub(crate) fn pop_every(slots: &mut Vec<Slot>, arena: &mut FrameArena)
    requires { AreHeld arena.old.live slots.old.items }
    ensures none { slots.new.items ≡ [] }
    ensures changes { Changes arena.old arena.new slots.old.items [] }
    ensures room { (others : List Slot) → AreBeside arena.old.live slots.old.items others
        → HasRoom arena.old arena.new slots.old.items [] others }
    ensures capacity { vec_capacity slots.new ≡ vec_capacity slots.old }
{
    for i in 0..slots.len() {
        give_frame(slots, arena, i);
    }
    slots.clear();
}

/// Sets an empty mark to slots, whose frames are from now on shared.
pub(crate) fn fill_mark(slots: &mut Vec<Slot>, mark: &mut Mark, arena: &mut FrameArena)
    requires empty { mark.old.slots.items ≡ [] }
    requires room { length slots.old.items ≤ vec_capacity mark.old.slots }
    requires held { AreHeld arena.old.live slots.old.items }
    requires few { (f : ℕ) → count_of arena.old.live f + length slots.old.items < 2 ^ 32 }
    ensures from { slots.new.items ≡ shared_slots slots.old.items }
    ensures to { mark.new.slots.items ≡ shared_slots slots.old.items }
    ensures set { mark.new.set ≡ true }
    ensures counts { (f : ℕ) → count_of arena.new.live f ≡ count_of arena.old.live f + holders f slots.old.items }
    ensures bytes { (f : ℕ) → bytes_of arena.new.live f ≡ bytes_of arena.old.live f }
    ensures spare { arena.new.spare ≡ arena.old.spare }
    ensures total { arena.new.total ≡ arena.old.total }
    ensures capacity { vec_capacity slots.new ≡ vec_capacity slots.old }
    ensures capacity_to { vec_capacity mark.new.slots ≡ vec_capacity mark.old.slots }
{
    share_all(slots, &mut mark.slots, arena);
    mark.set = true;
}

/// Makes a mark none.
pub(crate) fn clear_mark(mark: &mut Mark, arena: &mut FrameArena)
    requires { AreHeld arena.old.live mark.old.slots.items }
    ensures none { mark.new.slots.items ≡ [] }
    ensures unset { mark.new.set ≡ false }
    ensures changes { Changes arena.old arena.new mark.old.slots.items [] }
    ensures room { (others : List Slot) → AreBeside arena.old.live mark.old.slots.items others
        → HasRoom arena.old arena.new mark.old.slots.items [] others }
    ensures capacity { vec_capacity mark.new.slots ≡ vec_capacity mark.old.slots }
{
    pop_every(&mut mark.slots, arena);
    mark.set = false;
}

/// Moves the last `count` slots to place `at`.
pub(crate) fn move_back(slots: &mut Vec<Slot>, at: usize, count: usize)
    requires { at + count ≤ length slots.old.items }
    ensures slots { slots.new.items ≡ take at slots.old.items ++ (drop (length slots.old.items - at - count)
        (drop at slots.old.items) ++ take (length slots.old.items - at - count) (drop at slots.old.items)) }
    ensures capacity { vec_capacity slots.new ≡ vec_capacity slots.old }
{
    slots[at..].rotate_right(count);
}

/// Moves `count` slots from place `at` on to the end.
pub(crate) fn move_to_end(slots: &mut Vec<Slot>, at: usize, count: usize)
    requires { at + count ≤ length slots.old.items }
    ensures slots { slots.new.items
        ≡ take at slots.old.items ++ (drop count (drop at slots.old.items) ++ take count (drop at slots.old.items)) }
    ensures capacity { vec_capacity slots.new ≡ vec_capacity slots.old }
{
    slots[at..].rotate_left(count);
}
