//! The stack of a program before its first step.
ghost use Rattle.std.specs.Prelude.{◌≡◌, ◌+◌, ◌*◌, ◌-◌, ◌≤◌, ◌^◌, length, map, string_bytes};
ghost use Rattle.emu_model.specs.Pages.{with_bytes};
ghost use Rattle.emu_system.specs.ArgumentLimits.{AreArguments};
ghost use Rattle.emu_system.specs.Image.{stack_page_count};
ghost use Rattle.emu_system.specs.Stack.{
  aligned,
  argument_addresses,
  argument_bytes,
  first_stack_page,
  last_words,
  random_bytes,
  stack_page,
  start_words,
  word_bytes,
};
ghost use Rattle.elf_image.specs.Images.{seen_image};
ghost use Rattle.guest_pages.specs.MapFault.{map_fault};
ghost use Rattle.emu_machine.specs.Layouts.{IsLayout};
ghost use Rattle.emu_machine.specs.Loads.{HasPages};

use crate::load::copy;
use elf_image::Image;
use emu_model::PAGE_SIZE;
use guest_pages::{Pages, Rights};

/// The address behind the stack's highest byte.
const TOP: u64 = 0x7FFF_FFFF_F000;
/// The number of its pages.
const PAGE_COUNT: u64 = 256;
/// The number of its lowest page.
const FIRST_PAGE: u64 = TOP / PAGE_SIZE - PAGE_COUNT;
/// Its pages may be read and written.
const RIGHTS: Rights = Rights {
    r: true,
    w: true,
    x: false,
};

/// The bytes of a program header.
const PROGRAM_HEADER_SIZE: u64 = 56;
/// The number of the user and of the group.
const USER: u64 = 1000;
/// The bit of AT_HWCAP that says that the processor has SVE.
const HWCAP_SVE: u64 = 0x40_0000;

// The tags of the auxiliary vector.
const AT_NULL: u64 = 0;

const AT_PHDR: u64 = 3;

const AT_PHENT: u64 = 4;

const AT_PHNUM: u64 = 5;

const AT_PAGESZ: u64 = 6;

const AT_ENTRY: u64 = 9;

const AT_UID: u64 = 11;

const AT_EUID: u64 = 12;

const AT_GID: u64 = 13;

const AT_EGID: u64 = 14;

const AT_HWCAP: u64 = 16;

const AT_SECURE: u64 = 23;

const AT_RANDOM: u64 = 25;

/// Where the parts of the stack stand: the addresses of their first bytes.
#[derive(Clone, Copy, Debug)]
pub struct Layout {
    /// The arguments, which end at the top of the stack.
    pub arguments: u64,
    /// The bytes to which AT_RANDOM points.
    pub random: u64,
    /// The words to whose first one SP points.
    pub words: u64,
}

impl Layout {
    /// Where they stand with these arguments.
    pub fn of(args: &[String]) -> Layout
        requires { AreArguments (map string_bytes args.now) }
        ensures { IsLayout (map string_bytes args.now) result }
    {
        let arguments = TOP - argument_length(args);
        let random = aligned(arguments - 16);
        Layout {
            arguments,
            random,
            words: aligned(random - 8 * (args.len() as u64 + 29)),
        }
    }
}

/// The number of bytes of the arguments, each followed by a byte 0.
fn argument_length(args: &[String]) -> u64
    requires { AreArguments (map string_bytes args.now) }
    ensures value { result ≡ length (argument_bytes (map string_bytes args.now)) }
    ensures small { result ≤ 33068 }
{
    let mut length = 0;
    for arg in args {
        length += arg.len() as u64 + 1;
    }
    length
}

/// An address, rounded down to a multiple of 16.
fn aligned(address: u64) -> u64
    ensures { result ≡ aligned address }
{
    address - address % 16
}

/// Maps the pages of the stack, which are free, with the words, the bytes of AT_RANDOM and the arguments in their
/// places and 0 elsewhere.
pub fn load_stack(pages: &mut Pages, image: &Image, args: &[String], layout: Layout)
    requires arguments { AreArguments (map string_bytes args.now) }
    requires layout { IsLayout (map string_bytes args.now) layout }
    requires free { map_fault pages.old.memory first_stack_page stack_page_count ≡ None }
    ensures pages { HasPages first_stack_page stack_page_count
        (stack_page (seen_image image.now) (map string_bytes args.now)) pages.old.memory pages.new.memory }
    ensures marks { pages.new.marks ≡ pages.old.marks }
{
    // nothing refuses it
    let _ = pages.map(FIRST_PAGE, PAGE_COUNT, RIGHTS);
    put_arguments(pages, layout.arguments, args);
    copy(pages, layout.random, &random_bytes());
    put_start_words(pages, image, args, layout);
}

/// The bytes to which AT_RANDOM points.
#[tactic(auto, unfolding(emu_system::specs::Stack::random_bytes))]
fn random_bytes() -> [u8; 16]
    ensures { result ≡ random_bytes }
{
    [0, 1, 2, 3, 4, 5, 6, 7, 8, 9, 10, 11, 12, 13, 14, 15]
}

/// Writes the arguments from an address on, each followed by a byte 0.
fn put_arguments(pages: &mut Pages, address: u64, args: &[String])
    requires { address + length (argument_bytes (map string_bytes args.now)) ≤ 2 ^ 47 }
    ensures bytes { pages.new.memory
        ≡ with_bytes pages.old.memory address (argument_bytes (map string_bytes args.now)) }
    ensures marks { pages.new.marks ≡ pages.old.marks }
{
    let mut at = address;
    for arg in args {
        let bytes = arg.as_bytes();
        copy(pages, at, bytes);
        let end = at + bytes.len() as u64;
        copy(pages, end, &[0]);
        at = end + 1;
    }
}

/// Writes words from an address on, lowest byte first.
#[tactic(auto, using(crate::proofs::Laid::written))]
fn put_words(pages: &mut Pages, address: u64, words: &[u64])
    requires { address + 8 * length words.now ≤ 2 ^ 47 }
    ensures bytes { pages.new.memory ≡ with_bytes pages.old.memory address (word_bytes words.now) }
    ensures marks { pages.new.marks ≡ pages.old.marks }
{
    let mut at = address;
    for word in words {
        copy(pages, at, &word.to_le_bytes());
        at += 8;
    }
}

/// Writes the addresses of the arguments, of which the first stands at `first`, as words from an address on.
fn put_addresses(pages: &mut Pages, address: u64, first: u64, args: &[String])
    requires room { address + 8 * length args.now ≤ 2 ^ 47 }
    requires arguments { first + length (argument_bytes (map string_bytes args.now)) ≤ 2 ^ 47 }
    ensures bytes { pages.new.memory
        ≡ with_bytes pages.old.memory address (word_bytes (argument_addresses first (map string_bytes args.now))) }
    ensures marks { pages.new.marks ≡ pages.old.marks }
{
    let mut at = address;
    let mut argument = first;
    for arg in args {
        put_words(pages, at, &[argument]);
        at += 8;
        argument += arg.as_bytes().len() as u64 + 1;
    }
}

/// Writes the words to whose first one SP points.
fn put_start_words(pages: &mut Pages, image: &Image, args: &[String], layout: Layout)
    requires arguments { AreArguments (map string_bytes args.now) }
    requires layout { IsLayout (map string_bytes args.now) layout }
    ensures bytes { pages.new.memory ≡ with_bytes pages.old.memory layout.words
        (word_bytes (start_words (seen_image image.now) (map string_bytes args.now))) }
    ensures marks { pages.new.marks ≡ pages.old.marks }
{
    let count = args.len() as u64;
    put_words(pages, layout.words, &[count]);
    put_addresses(pages, layout.words + 8, layout.arguments, args);
    let rest = layout.words + 8 * (count + 1);
    put_words(pages, rest, &last_words(image, layout.random));
}

/// The words behind the addresses of the arguments: the 0 behind them, the 0 of an empty environment, and the auxiliary
/// vector.
#[tactic(auto, unfolding(emu_system::specs::Stack::last_words))]
fn last_words(image: &Image, random: u64) -> [u64; 28]
    ensures { result ≡ last_words (seen_image image.now) random }
{
    [
        0,
        0,
        AT_PHDR,
        image.phdr,
        AT_PHENT,
        PROGRAM_HEADER_SIZE,
        AT_PHNUM,
        u64::from(image.phnum),
        AT_PAGESZ,
        PAGE_SIZE,
        AT_ENTRY,
        image.entry,
        AT_UID,
        USER,
        AT_EUID,
        USER,
        AT_GID,
        USER,
        AT_EGID,
        USER,
        AT_HWCAP,
        HWCAP_SVE,
        AT_SECURE,
        0,
        AT_RANDOM,
        random,
        AT_NULL,
        0,
    ]
}
