//! The log of the accesses that an instruction makes, and the elements that one is about to load.
ghost use Rattle.std.specs.Prelude.{◌≡◌, ◌<◌, ◌≤◌, ◌+◌, ◌*◌, [], ◌∷◌, ◌++◌, IfOk, length};
ghost use Rattle.std.specs.Vec.{vec_capacity, vec_len};
ghost use Rattle.arrayvec.specs.ArrayVec.{array_vec_len};
ghost use Rattle.emu_model.specs.Access.{address};
ghost use Rattle.emu_model.specs.Lists.{each};
ghost use Rattle.guest_mem.specs.Logs.{run_of};

use arrayvec::ArrayVec;
use emu_model::access::Access;
use std::alloc::{AllocError, Global};
use std::marker::Model;

/// The most bytes that each access of a run has.
const MOST_BYTES: u32 = 255;

/// The accesses of one step, in order, lower first. 1,024 is the most that an instruction makes (`ld4b` at 2,048 bits).
/// Those of a run that comes first take a few stores whatever their number, and each other one has a cell. Contracts
/// see it as they see an `ArrayVec`.
#[derive(Drop)]
pub struct AccessLog {
    cells: [Access; 1024],
    // a run of accesses before those in the cells: so many, of so many bytes each, one behind the other from here on
    base: u64,
    // these and how many are in the cells are one word of the host, so that one store sets or empties them all
    bytes: u8,
    write: bool,
    count: u16,
    len: u32,
}

impl Model for AccessLog {
    ghost use Rattle.std.specs.Prelude.{◌≡◌, ◌≤◌, ◌+◌, ◌++◌, length, take};
    ghost use Rattle.arrayvec.specs.ArrayVec.{ArrayVec as Items, array_vec_code};
    ghost use Rattle.emu_model.specs.declared.access.Access.{Access};
    ghost use Rattle.guest_mem.specs.Logs.{coded_access, run_of};

    ghost Value = { Items Access };

    ghost coded = { array_vec_code coded_access };

    ghost view = { λ a. record { items = run_of a.base a.bytes a.count a.write ++ take a.len a.cells } };

    ghost invariant = { λ a. (a.count + a.len ≤ 1024) × (length a.cells ≡ 1024) };
}

impl AccessLog {
    /// No access.
    pub fn new() -> AccessLog
        ensures { result.items ≡ [] }
    {
        AccessLog {
            cells: [Access {
                address: 0,
                bytes: 0,
                write: false,
            }; 1024],
            base: 0,
            bytes: 0,
            write: false,
            count: 0,
            len: 0,
        }
    }

    /// How many accesses.
    pub fn len(&self) -> usize
        ensures { result ≡ array_vec_len self.now }
    {
        self.count as usize + self.len as usize
    }

    /// Forgets them all.
    pub fn clear(&mut self)
        ensures { self.new.items ≡ [] }
    {
        let _ = &self.cells;
        self.bytes = 0;
        self.write = false;
        self.count = 0;
        self.len = 0;
    }

    /// Appends an access. There must be room.
    #[inline]
    pub fn push(&mut self, access: Access)
        requires { array_vec_len self.old < 1024 }
        ensures items { self.new.items ≡ self.old.items ++ access ∷ [] }
        ensures len { array_vec_len self.new ≡ array_vec_len self.old + 1 }
    {
        let len = self.len;
        self.cells[len as usize] = access;
        self.len = len + 1;
    }

    /// Becomes so many accesses of n bytes each, one behind the other.
    #[inline(always)]
    pub fn set_run(&mut self, base: u64, n: u32, count: u32, write: bool)
        requires { count ≤ 1024 }
        ensures items { self.new.items ≡ each count
            (λ i. record { address = address (base + i * n); bytes = n; write = write }) }
    {
        if n <= MOST_BYTES {
            let _ = &self.cells;
            self.base = base;
            self.bytes = n as u8;
            self.write = write;
            self.count = count as u16;
            self.len = 0;
        } else {
            self.clear();
            self.push_cells(base, n, count, write);
        }
    }

    /// Appends so many accesses of n bytes each, one behind the other. There must be room.
    #[inline(always)]
    pub fn push_run(&mut self, base: u64, n: u32, count: u32, write: bool)
        requires { array_vec_len self.old + count ≤ 1024 }
        ensures items { self.new.items ≡ self.old.items ++ each count
            (λ i. record { address = address (base + i * n); bytes = n; write = write }) }
        ensures len { array_vec_len self.new ≡ array_vec_len self.old + count }
    {
        let len = u32::from(self.count) + self.len;
        if n <= MOST_BYTES && len == 0 {
            self.base = base;
            self.bytes = n as u8;
            self.write = write;
            self.count = count as u16;
        } else {
            self.push_cells(base, n, count, write);
        }
    }

    /// The same, with a cell for each.
    #[inline(always)]
    fn push_cells(&mut self, base: u64, n: u32, count: u32, write: bool)
        requires { array_vec_len self.old + count ≤ 1024 }
        ensures items { self.new.items ≡ self.old.items ++ each count
            (λ i. record { address = address (base + i * n); bytes = n; write = write }) }
        ensures len { array_vec_len self.new ≡ array_vec_len self.old + count }
    {
        let first = self.len as usize;
        fill(
            &mut self.cells[first..first + count as usize],
            base,
            n,
            write,
        );
        self.len += count;
    }
}

/// The accesses of a step, in order, as a slice. Contracts see it as they see an `ArrayVec`.
#[derive(Drop)]
pub struct AccessList {
    // with room for as many as a log has
    accesses: Vec<Access>,
}

impl Model for AccessList {
    ghost use Rattle.std.specs.Prelude.{◌≤◌};
    ghost use Rattle.std.specs.Vec.{vec_capacity};
    ghost use Rattle.arrayvec.specs.ArrayVec.{ArrayVec as Items, array_vec_code};
    ghost use Rattle.emu_model.specs.declared.access.Access.{Access};
    ghost use Rattle.guest_mem.specs.Logs.{coded_access};

    ghost Value = { Items Access };

    ghost coded = { array_vec_code coded_access };

    ghost view = { λ a. record { items = a.accesses.items } };

    ghost invariant = { λ a. 1024 ≤ vec_capacity a.accesses };
}

impl AccessList {
    /// No access. The only error is want of memory.
    pub fn new(alloc: Global) -> Result<AccessList, AllocError>
        ensures { IfOk result (λ list. list.items ≡ []) }
    {
        let accesses = Vec::with_capacity(alloc, 1024)?;
        Ok(AccessList { accesses })
    }

    /// The accesses.
    pub fn as_slice(&self) -> &[Access]
        ensures { result.now ≡ self.now.items }
    {
        self.accesses.as_slice()
    }

    /// Forgets them all.
    pub fn clear(&mut self)
        ensures { self.new.items ≡ [] }
    {
        self.accesses.clear();
    }

    /// Becomes those of a log. It wants no memory. None, or one, is set where it is called.
    #[inline(always)]
    pub fn set(&mut self, log: &AccessLog)
        ensures { self.new.items ≡ log.now.items }
    {
        // first what most steps have; both numbers are one word of the host
        if log.count == 0 && log.len == 0 {
            self.accesses.clear();
        } else if log.count == 0 && log.len == 1 {
            self.accesses.clear();
            self.accesses.push_reserved(log.cells[0]);
        } else {
            self.set_all(log);
        }
    }

    /// Becomes those of a log.
    #[inline(never)]
    fn set_all(&mut self, log: &AccessLog)
        ensures { self.new.items ≡ log.now.items }
    {
        self.accesses.clear();
        put_run(
            &mut self.accesses,
            log.base,
            u32::from(log.bytes),
            u32::from(log.count),
            log.write,
        );
        put_all(&mut self.accesses, &log.cells[..log.len as usize]);
    }
}

/// Appends so many accesses of n bytes each, one behind the other. There must be room.
fn put_run(accesses: &mut Vec<Access>, base: u64, n: u32, count: u32, write: bool)
    requires { vec_len accesses.old + count ≤ vec_capacity accesses.old }
    ensures items { accesses.new.items ≡ accesses.old.items ++ run_of base n count write }
    ensures len { vec_len accesses.new ≡ vec_len accesses.old + count }
    ensures capacity { vec_capacity accesses.new ≡ vec_capacity accesses.old }
{
    let mut at = base;
    for _i in 0..count {
        accesses.push_reserved(Access {
            address: at,
            bytes: n,
            write,
        });
        at = at.wrapping_add(u64::from(n));
    }
}

/// Appends these. There must be room.
fn put_all(accesses: &mut Vec<Access>, from: &[Access])
    requires { vec_len accesses.old + length from.now ≤ vec_capacity accesses.old }
    ensures items { accesses.new.items ≡ accesses.old.items ++ from.now }
    ensures capacity { vec_capacity accesses.new ≡ vec_capacity accesses.old }
{
    for access in from {
        accesses.push_reserved(*access);
    }
}

/// Makes all of these accesses of n bytes each, one behind the other.
#[inline(never)]
fn fill(cells: &mut [Access], base: u64, n: u32, write: bool)
    ensures { cells.new ≡ each (length cells.old)
        (λ i. record { address = address (base + i * n); bytes = n; write = write }) }
{
    let mut at = base;
    for i in 0..cells.len() {
        cells[i] = Access {
            address: at,
            bytes: n,
            write,
        };
        at = at.wrapping_add(u64::from(n));
    }
}

/// The elements of a first-faulting or non-faulting load, of one vector register.
#[derive(Drop)]
pub struct ElementList {
    /// The bytes of each.
    pub bytes: u32,
    /// Whether the sign of an element is extended to its lane.
    pub signed: bool,
    /// The lane and the address of each, in order of lanes.
    pub lanes: ArrayVec<(u32, u64), 256>,
}
