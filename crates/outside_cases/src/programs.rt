//! A command obeyed by one of the two programs of mapped pages.
ghost use Rattle.std.specs.Prelude.{◌≤◌, ◌<◌, ◌+◌, ◌^◌, length};
ghost use Rattle.emu_model.specs.Access.{page_size};

use crate::answers::{Answer, of_map, of_page, of_plain_map, of_store};
use crate::commands::{Command, are_pages, are_places, row_from};

/// What a command answers over some pages; what the ranges of the calls shut out is refused.
macro_rules! obeyed {
    ($pages:ident, $command:ident, $of_map:ident, $seek:ident, $lend:ident, $part:ident) => {
        match $command {
            Command::Map(first, count, rights) if first >= 1 && are_pages(first, count) => {
                $of_map($pages.map(first, count, rights))
            }
            Command::Unmap(first, count) if are_pages(first, count) => {
                $pages.unmap(first, count);
                Answer::Done
            }
            Command::Protect(first, count, rights) if are_pages(first, count) => {
                match $pages.protect(first, count, rights) {
                    Ok(()) => Answer::Done,
                    Err(unmapped) => Answer::Unmapped(unmapped.page),
                }
            }
            Command::Write(page, at, count, byte) if page < 1 << 52 && are_places(at, count) => {
                $pages.write(page, at, &row_from(byte)[..count]);
                Answer::Done
            }
            Command::Store(page, at, count, byte) if page < 1 << 52 && are_places(at, count) => {
                of_store($pages.store(page, at, &row_from(byte)[..count]))
            }
            Command::Lend(page, at, byte) => $lend($pages, page, at, byte),
            Command::Part(page, at, count, byte) if page < 1 << 52 && are_places(at, count) => {
                $part($pages, page, at, &row_from(byte)[..count])
            }
            Command::Find(page) => of_page($pages.find(page)),
            Command::Seek(page) => of_page($pages.$seek(page)),
            Command::Free(count, below) => Answer::Free($pages.free_run(count, below)),
            Command::Mapped => Answer::Mapped($pages.mapped()),
            _ => Answer::OutOfRange,
        }
    };
}

/// Replaces a byte through the bytes of a page that are lent.
fn lend(pages: &mut guest_pages::Pages, page: u64, at: usize, byte: u8) -> Answer {
    match pages.find_mut(page) {
        None => Answer::Missing,
        Some(bytes) => {
            if at >= bytes.len() {
                return Answer::OutOfRange;
            }
            bytes[at] = byte;
            Answer::Done
        }
    }
}

/// The same over the plain program, which lends none.
fn write_byte(pages: &mut plain_pages::Pages, page: u64, at: usize, byte: u8) -> Answer {
    if pages.find(page).is_none() {
        return Answer::Missing;
    }
    if page >= 1 << 52 || !are_places(at, 1) {
        return Answer::OutOfRange;
    }
    pages.write(page, at, &[byte]);
    Answer::Done
}

/// Replaces bytes of a page from a place on through those that are lent.
fn part(pages: &mut guest_pages::Pages, page: u64, at: usize, row: &[u8]) -> Answer
    requires { at + length row.now ≤ page_size }
{
    if !pages.is_mapped(page) {
        return Answer::Missing;
    }
    let mut spare = 0;
    pages
        .part_mut(page, at, row.len(), &mut spare)
        .copy_from_slice(row);
    Answer::Done
}

/// The same over the plain program.
fn write_row(pages: &mut plain_pages::Pages, page: u64, at: usize, row: &[u8]) -> Answer
    requires number { page < 2 ^ 52 }
    requires within { at + length row.now ≤ page_size }
{
    if pages.find(page).is_none() {
        return Answer::Missing;
    }
    pages.write(page, at, row);
    Answer::Done
}

/// What a command answers over the pages that the program runs with.
pub fn by_list(pages: &mut guest_pages::Pages, command: Command) -> Answer {
    obeyed!(pages, command, of_map, seek, lend, part)
}

/// What it answers over the plain ones.
pub fn by_plain_list(pages: &mut plain_pages::Pages, command: Command) -> Answer {
    obeyed!(pages, command, of_plain_map, find, write_byte, write_row)
}
