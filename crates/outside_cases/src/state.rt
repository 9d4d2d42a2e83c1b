//! The state of a case: registers, pages and a trap, read from items `name=value`.
use crate::digits::{byte_at, count_of, letter_and_number, number, small};
use core_regs::{Core, Trap, TrapKind};
use emu_bits::{Flags, Pred, Reg};
use emu_model::PAGE_SIZE;
use guest_mem::Mem;
use guest_pages::{Pages, Rights};
use std::alloc::Global;
use vec_regs::{Length, VecRegs};

/// The greatest number of pages of a case.
const MOST_PAGES: usize = 16;
/// The number of page numbers.
const PAGE_NUMBERS: u64 = 1 << 35;

/// The state before or after a step.
#[derive(Drop)]
pub struct State {
    pub core: Core,
    pub vec: VecRegs,
    pub memory: Mem,
    /// The numbers of the mapped pages, and then zeros: no page has the number 0.
    mapped: [u64; MOST_PAGES],
    /// The trap of the step, after one that trapped.
    pub trap: Option<Trap>,
    /// How many elements the step loaded or stored, where that was counted, or where the case has it.
    pub accesses: Option<usize>,
    /// Whether the last items that were set name the monitor.
    has_monitor: bool,
    /// Whether all items were in the form of a case, and the step made no call.
    pub is_well: bool,
}

impl State {
    /// The state before a step of this word at a vector length: its items, with registers that aren't given 0, and the
    /// page of the word, which may be read and executed. None where there is no memory for it.
    pub fn read(alloc: Global, word: u32, length: Length, items: &str) -> Option<State> {
        let Ok(pages) = Pages::new(alloc, MOST_PAGES as u32) else {
            return None;
        };
        let mut state = State {
            core: Core::new(),
            vec: VecRegs::new(length),
            memory: Mem::new(pages),
            mapped: [0; MOST_PAGES],
            trap: None,
            accesses: None,
            has_monitor: false,
            is_well: true,
        };
        state.set_all(items);
        let pc = state.core.pc();
        state.map(pc, "rx");
        for k in 0..4u32 {
            let byte = (word >> (8 * k)) % 256;
            state.put_byte(pc.wrapping_add(u64::from(k)), byte as u8);
        }
        Some(state)
    }

    /// Sets what the items name.
    pub fn set_all(&mut self, items: &str) {
        self.has_monitor = false;
        for item in items.split(' ') {
            match item.split_once('=') {
                Some((name, value)) => self.set(name, value),
                None => self.is_well = self.is_well && item.is_empty(),
            }
        }
    }

    /// Sets what a name names.
    fn set(&mut self, name: &str, value: &str) {
        let (first, second) = value.split_once(':').unwrap_or((value, ""));
        match name {
            "page" => {
                let address = number(first, &mut self.is_well);
                self.map(address, second);
            }
            "mem" => {
                let address = number(first, &mut self.is_well);
                self.put_bytes(address, second.as_bytes());
            }
            "monitor" => self.set_monitor(first, second),
            "accesses" => self.accesses = Some(small(value, &mut self.is_well) as usize),
            "trap" => self.set_trap(first, second),
            "ffr" => set_bits(&mut self.vec, None, value.as_bytes(), &mut self.is_well),
            _ => self.set_register(name, value),
        }
    }

    /// Sets the monitor to `ADDRESS:BYTES`, or to `none`.
    fn set_monitor(&mut self, address: &str, size: &str) {
        self.has_monitor = true;
        let monitor = if address == "none" {
            None
        } else {
            let address = number(address, &mut self.is_well);
            Some((address, small(size, &mut self.is_well)))
        };
        self.core.set_monitor(monitor);
    }

    /// Sets the trap to `KIND:ADDRESS`.
    fn set_trap(&mut self, kind: &str, address: &str) {
        let address = number(address, &mut self.is_well);
        match trap_kind(kind) {
            Some(kind) => self.trap = Some(Trap { kind, address }),
            None => self.is_well = false,
        }
    }

    /// Sets a register that has a name of its own. Flags are four binary digits, read as hexadecimal ones.
    fn set_register(&mut self, name: &str, value: &str) {
        match name {
            "nzcv" => self
                .core
                .set_flags(flags_of(number(value, &mut self.is_well))),
            "pc" => self.core.set_pc(number(value, &mut self.is_well)),
            "tpidr" => self.core.set_tpidr(number(value, &mut self.is_well)),
            "sp" => {
                let sp = number(value, &mut self.is_well);
                self.core.set_x_sp(Reg::at(31, 0), 64, sp);
            }
            _ => self.set_numbered(name, value),
        }
    }

    /// Sets the register that a letter and a number name.
    fn set_numbered(&mut self, name: &str, value: &str) {
        let (letter, r) = letter_and_number(name.as_bytes());
        if letter == b'x' && r < 32 {
            let x = number(value, &mut self.is_well);
            self.core.set_x(Reg::at(r, 0), 64, x);
        } else if letter == b'z' && r < 32 {
            set_vector(
                &mut self.vec,
                Reg::at(r, 0),
                value.as_bytes(),
                &mut self.is_well,
            );
        } else if letter == b'p' && r < 16 {
            set_bits(
                &mut self.vec,
                Pred::new(r),
                value.as_bytes(),
                &mut self.is_well,
            );
        } else {
            self.is_well = false;
        }
    }

    /// Maps the page of an address.
    fn map(&mut self, address: u64, rights: &str) {
        let page = address / PAGE_SIZE;
        let place = self.memory.pages().mapped() as usize;
        let rights = rights_of(rights, &mut self.is_well);
        if page == 0 || page >= PAGE_NUMBERS || place >= MOST_PAGES {
            self.is_well = false;
            return;
        }
        match self.memory.pages_mut().map(page, 1, rights) {
            Ok(()) => self.mapped[place] = page,
            Err(_) => self.is_well = false,
        }
    }

    /// Puts the bytes of pairs of hexadecimal digits.
    fn put_bytes(&mut self, address: u64, digits: &[u8]) {
        for k in 0..count_of(digits, &mut self.is_well) {
            let byte = byte_at(digits, k, &mut self.is_well);
            self.put_byte(address.wrapping_add(u64::from(k)), byte);
        }
    }

    /// Puts a byte of a page, whatever the page's rights are.
    fn put_byte(&mut self, address: u64, byte: u8) {
        let page = address / PAGE_SIZE;
        self.is_well = self.is_well && self.memory.pages().is_mapped(page);
        self.memory
            .pages_mut()
            .write(page, (address % PAGE_SIZE) as usize, &[byte]);
    }

    /// Whether both states are well and all registers, the flags, the trap and the pages are the same, these with their
    /// rights and all of their bytes; the monitor is the same where the items of the other state name it last, and the
    /// accesses are as many as the other state has, where it has their number.
    pub fn is_same(&self, other: &State) -> bool {
        self.is_well
            && other.is_well
            && self.trap == other.trap
            && (other.accesses.is_none() || self.accesses == other.accesses)
            && (!other.has_monitor || self.core.monitor() == other.core.monitor())
            && are_same(&self.core, &other.core)
            && are_same_vectors(&self.vec, &other.vec)
            && self.has_pages_of(other)
    }

    /// Whether the same pages are mapped, with the same rights and bytes.
    fn has_pages_of(&self, other: &State) -> bool {
        let mut same = self.mapped == other.mapped;
        for page in &self.mapped {
            same = same && self.memory.pages().find(*page) == other.memory.pages().find(*page);
        }
        same
    }
}

/// Sets the bytes of a Z register from pairs of hexadecimal digits, the most significant first.
fn set_vector(vec: &mut VecRegs, r: Reg, digits: &[u8], is_well: &mut bool) {
    let count = count_of(digits, is_well);
    for k in 0..count {
        let byte = byte_at(digits, count - 1 - k, is_well);
        if k < vec.length().bits() / 8 {
            vec.set_z_byte(r, k, byte);
        } else {
            *is_well = false;
        }
    }
}

/// Sets the bits of a predicate, or of FFR, from pairs of hexadecimal digits, the most significant first.
fn set_bits(vec: &mut VecRegs, of: Option<Pred>, digits: &[u8], is_well: &mut bool) {
    let count = count_of(digits, is_well);
    for place in 0..count * 8 {
        let byte = byte_at(digits, count - 1 - place / 8, is_well);
        let set = byte >> (place % 8) & 1 == 1;
        if place >= vec.length().bits() / 8 {
            *is_well = false;
            return;
        }
        match of {
            Some(r) => vec.set_p_bit(r, place, set),
            None => vec.set_ffr_bit(place, set),
        }
    }
}

/// The flags of four binary digits that were read as hexadecimal ones.
fn flags_of(v: u64) -> Flags {
    Flags {
        n: v & 0x1000 != 0,
        z: v & 0x100 != 0,
        c: v & 0x10 != 0,
        v: v & 1 != 0,
    }
}

/// The rights of `r`, `rw` or `rx`; not well where it is none of them.
fn rights_of(letters: &str, is_well: &mut bool) -> Rights {
    let (w, x) = (letters == "rw", letters == "rx");
    *is_well = *is_well && (w || x || letters == "r");
    Rights { r: true, w, x }
}

fn trap_kind(name: &str) -> Option<TrapKind> {
    match name {
        "halt" => Some(TrapKind::Halt),
        "break" => Some(TrapKind::Break),
        "sp-align" => Some(TrapKind::SpAlign),
        "access-align" => Some(TrapKind::AccessAlign),
        "read" => Some(TrapKind::Read),
        "write" => Some(TrapKind::Write),
        _ => None,
    }
}

fn are_same(a: &Core, b: &Core) -> bool {
    let mut same = a.flags() == b.flags() && a.pc() == b.pc() && a.tpidr() == b.tpidr();
    for number in 0..32 {
        let r = Reg::at(number, 0);
        same = same && a.x(r) == b.x(r) && a.x_sp(r) == b.x_sp(r);
    }
    same
}

fn are_same_vectors(a: &VecRegs, b: &VecRegs) -> bool {
    let mut same = a.ffr_words() == b.ffr_words();
    for number in 0..32 {
        let (r, p) = (Reg::at(number, 0), Pred::at(number, 0));
        same = same && a.z_words(r) == b.z_words(r) && a.p_words(p) == b.p_words(p);
    }
    same
}
