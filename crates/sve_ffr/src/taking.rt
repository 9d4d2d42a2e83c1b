//! The loop over lanes that loads the elements of a list, but for those that are refused.
ghost use Rattle.std.specs.Prelude.{◌≡◌, ◌≤◌, ◌<◌, ◌+◌, ℕ, [], Some, true};
ghost use Rattle.arrayvec.specs.ArrayVec.{array_vec_len};
ghost use Rattle.emu_model.specs.LaneSizes.{IsLaneSize};
ghost use Rattle.std.specs.Option.{option_or};
ghost use Rattle.element_loops.specs.Listed.{listed};
ghost use Rattle.sve_ffr.specs.Taking.{AreFrom, AreTaken, lane_numbers, rest_of, starts_at};

use arrayvec::ArrayVec;
use guest_mem::element_access::load_u64;
use guest_mem::{AccessLog, ElementList, Mem};
use vec_regs::extended;

/// What has been taken.
#[derive(Drop)]
pub struct Taken {
    /// What each lane gets: its element, extended, and 0 where it is refused or there is none.
    pub values: ArrayVec<u64, 256>,
    /// How many elements of the list have been looked at.
    pub next: usize,
    /// The lane of the first that was refused.
    pub suppressed: Option<u32>,
}

/// Whether the next element is that of lane k.
fn is_next(list: &ElementList, next: usize, k: u32) -> bool
    // of whatever register the elements are
    ensures value { (r : ℕ) → result ≡ starts_at (rest_of r list.now next) k }
    ensures within { result ≡ true → next < array_vec_len list.now.lanes }
{
    next < list.lanes.len() && list.lanes[next].0 == k
}

/// The first of the lane that was found before and of lane k.
fn first_of(found: Option<u32>, k: u32) -> Option<u32>
    ensures { result ≡ option_or found (Some k) }
{
    match found {
        Some(before) => Some(before),
        None => Some(k),
    }
}

/// Loads the next element if it is that of lane k, and puts what the lane gets.
fn take_lane(
    mem: &mut Mem,
    log: &mut AccessLog,
    list: &ElementList,
    e: u32,
    k: u32,
    taken: &mut Taken,
)
    requires size { IsLaneSize e }
    requires some { 1 ≤ list.now.bytes }
    requires most { list.now.bytes ≤ 8 }
    requires within { k < 256 }
    requires count { array_vec_len taken.old.values ≡ k }
    requires room { array_vec_len log.old ≤ k }
    // of whatever register the elements are, and however many lanes there are
    ensures lane { (r n : ℕ) → AreTaken r e n list.now mem.old.memory k taken.old log.old.items
        → AreTaken r e n list.now mem.old.memory (k + 1) taken.new log.new.items }
    ensures memory { mem.new ≡ mem.old }
    ensures count { array_vec_len taken.new.values ≡ k + 1 }
    ensures room { array_vec_len log.new ≤ k + 1 }
{
    if !is_next(list, taken.next, k) {
        taken.values.push(0);
        return;
    }
    let at = list.lanes[taken.next].1;
    taken.next += 1;
    match load_u64(mem, log, at, list.bytes) {
        Ok(v) => taken.values.push(extended(list.signed, e, list.bytes, v)),
        Err(_) => {
            taken.values.push(0);
            taken.suppressed = first_of(taken.suppressed, k);
        }
    }
}

/// Goes over n lanes of e bits and loads the elements of a list, but for those that are refused.
pub(crate) fn take(mem: &mut Mem, log: &mut AccessLog, list: &ElementList, e: u32, n: u32) -> Taken
    requires size { IsLaneSize e }
    requires some { 1 ≤ list.now.bytes }
    requires most { list.now.bytes ≤ 8 }
    requires few { n ≤ 256 }
    requires empty { log.old.items ≡ [] }
    // of whatever register the elements are
    ensures taken { (r : ℕ) → AreFrom 0 n (lane_numbers (listed r list.now))
        → AreTaken r e n list.now mem.old.memory n result log.new.items }
    ensures count { array_vec_len result.values ≡ n }
    ensures memory { mem.new ≡ mem.old }
{
    let mut taken = Taken {
        values: ArrayVec::new(),
        next: 0,
        suppressed: None,
    };
    for k in 0..n {
        take_lane(mem, log, list, e, k, &mut taken);
    }
    taken
}
