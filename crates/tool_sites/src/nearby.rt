//! The mapped pages that are next to an address without one.
ghost use Rattle.std.specs.Prelude.{◌≡◌, ◌≤◌, is_some};
ghost use Rattle.emu_model.specs.Access.{page_of};
ghost use Rattle.tool_sites.specs.Nearby as model;

use emu_model::PAGE_SIZE;
use guest_mem::Mem;
use tool_texts::Beside;

/// Pages that are farther away aren't told.
const NEAR_PAGES: u64 = 256;

/// The most pages that a program can have.
const MOST_PAGES: u64 = 1_048_576;

/// Whether the page of an address is mapped.
fn is_mapped(memory: &Mem, address: u64) -> bool
    ensures { result ≡ is_some (page_of memory.now.memory address) }
{
    memory.peek(address).is_some()
}

/// The number k where the page that is k pages below an address is mapped, else 0.
fn place_below(memory: &Mem, address: u64, k: u64) -> u64
    requires { k ≤ 256 }
    ensures value { result ≡ model.place_below memory.now.memory address k }
    ensures most { result ≤ k }
{
    let bytes = PAGE_SIZE * k;
    if bytes <= address && is_mapped(memory, address - bytes) {
        k
    } else {
        0
    }
}

/// The number k where the page that is k pages above an address is mapped, else 0.
fn place_above(memory: &Mem, address: u64, k: u64) -> u64
    requires { k ≤ 256 }
    ensures value { result ≡ model.place_above memory.now.memory address k }
    ensures most { result ≤ k }
{
    let bytes = PAGE_SIZE * k;
    if bytes <= u64::MAX - address && is_mapped(memory, address + bytes) {
        k
    } else {
        0
    }
}

/// A number that was found, or else another one.
fn first_of(found: u64, k: u64) -> u64
    requires found { found ≤ 256 }
    requires k { k ≤ 256 }
    ensures value { result ≡ model.first_of found k }
    ensures most { result ≤ 256 }
{
    if found == 0 { k } else { found }
}

/// The number of pages to the nearest mapped one below an address; 0 where none is near.
#[tactic(auto, using(crate::proofs::Steps::below_steps))]
pub fn least_below(memory: &Mem, address: u64) -> u64
    ensures value { result ≡ model.least_below memory.now.memory address 256 }
    ensures most { result ≤ 256 }
{
    let mut found = 0;
    for k in 0..NEAR_PAGES {
        found = first_of(found, place_below(memory, address, k + 1));
    }
    found
}

/// The number of pages to the nearest mapped one above an address; 0 where none is near.
#[tactic(auto, using(crate::proofs::Steps::above_steps))]
pub fn least_above(memory: &Mem, address: u64) -> u64
    ensures value { result ≡ model.least_above memory.now.memory address 256 }
    ensures most { result ≤ 256 }
{
    let mut found = 0;
    for k in 0..NEAR_PAGES {
        found = first_of(found, place_above(memory, address, k + 1));
    }
    found
}

/// How far an address is behind the last byte of the page that is so many pages below, in bytes.
pub fn behind_page(address: u64, below: u64) -> u64
    requires { below ≤ 256 }
    ensures { result ≡ model.behind_page address below }
{
    address % PAGE_SIZE + PAGE_SIZE * below.saturating_sub(1) + 1
}

/// How far an address is below the first byte of the page that is so many pages above, in bytes.
fn below_page(address: u64, above: u64) -> u64
    requires { above ≤ 256 }
    ensures { result ≡ model.below_page address above }
{
    (PAGE_SIZE * above).saturating_sub(address % PAGE_SIZE)
}

/// Whether so many pages in a row are mapped, from an address on.
#[tactic(auto, using(crate::proofs::Steps::mapped_steps))]
fn all_mapped(memory: &Mem, from: u64, count: u64) -> bool
    requires { count ≤ 1048576 }
    ensures { result ≡ model.all_mapped memory.now.memory from count }
{
    let mut all = true;
    for k in 0..count {
        all = all & is_mapped(memory, from.wrapping_add(PAGE_SIZE * k));
    }
    all
}

/// The address of the page behind those of a segment that ends before an address.
fn next_page(end: u64) -> u64
    ensures { result ≡ model.next_page end }
{
    end.saturating_add(4095) / PAGE_SIZE * PAGE_SIZE
}

/// Whether so many pages behind one, and that one, are mapped.
fn are_mapped(memory: &Mem, from: u64, more: u64) -> bool
    ensures { result ≡ model.are_mapped memory.now.memory from more }
{
    if more < MOST_PAGES {
        all_mapped(memory, from, more + 1)
    } else {
        false
    }
}

/// Whether the page at an address is one of those that follow a segment's end without a gap.
pub fn follows(memory: &Mem, end: u64, top: u64) -> bool
    ensures { result ≡ model.follows memory.now.memory end top }
{
    let next = next_page(end);
    0 < end && next <= top && are_mapped(memory, next, top.saturating_sub(next) / PAGE_SIZE)
}

/// Next to a mapping, by the numbers of pages to those below and above, which are 0 where none is near.
pub fn beside_mapping(address: u64, below: u64, above: u64) -> Beside
    requires below { below ≤ 256 }
    requires above { above ≤ 256 }
    ensures { result ≡ model.beside_mapping address below above }
{
    if 0 < below && (above == 0 || below <= above) {
        return Beside::BehindMapping(behind_page(address, below));
    }
    if 0 < above {
        Beside::BelowMapping(below_page(address, above))
    } else {
        Beside::Nowhere
    }
}
