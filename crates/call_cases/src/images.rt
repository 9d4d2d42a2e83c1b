//! Executables: what is read of them; and the arguments that a program may be started with.
//!
//! The items of a case are `NAME=VALUE`, with a space between them, done in their order. A number is decimal, or
//! hexadecimal behind `0x`. Behind a line `from ITEM ..` each case begins with these items, up to the next such line;
//! `from` alone is none.
//!
//! The file is at first one of 4,108 bytes with one program header, at the offset 64: PT_LOAD of 12 bytes at the offset
//! 4,096, readable and executable at 0x400000, its entry. All other bytes are 0. What is made of it:
//!
//! - `length=COUNT`, cut, or with zeros behind it; `put=OFFSET,SIZE,VALUE`, a field of some bytes;
//! - `header=NUMBER,TYPE,FLAGS,OFFSET,ADDRESS,FILESIZE,MEMSIZE`, a program header, whose p_paddr and p_align stay;
//! - `pages=COUNT`, the greatest number of mapped pages, else 16,384.
//!
//! What is read of it: `refused=FAULT`; `cuts=LENGTH,END,FAULT`, the fault of the file that is cut to this length, and
//! to each greater one below END; `image=ENTRY,PHDR,PHNUM,COUNT`, with the number of its segments;
//! `segment=PLACE,INDEX,ADDRESS,OFFSET,FILESIZE,MEMSIZE,RIGHTS`, where the rights are 4 for r, 2 for w and 1 for x.
//!
//! `taken=ARGUMENTS` and `untaken=ARGUMENTS`: whether a program may be started with them. They have `,` between them,
//! `~` is the byte 0, and `x*COUNT` is so many letters.
use crate::file::{first, put_field, put_header};
use crate::items::{are_numbers, number, numbers, small};
use elf_image::{Image, read};
use emu_model::Rights;
use emu_system::are_arguments;
use std::alloc::{AllocError, Global};

/// A file, and how many pages may be mapped.
#[derive(Drop)]
struct Scene {
    alloc: Global,
    file: Vec<u8>,
    pages: u32,
}

/// The first of some items that isn't as they have it, or isn't in its form.
fn unmet<'a>(scene: &mut Scene, items: &'a str) -> Option<&'a str> {
    for item in items.split(' ') {
        if !item.is_empty() && !scene.meets(item) {
            return Some(item);
        }
    }
    None
}

/// The first item of a case that isn't as the line has it, or isn't in its form; the items of `start` come before those
/// of the line. The line where memory is wanting.
pub fn difference<'a>(alloc: Global, start: &'a str, line: &'a str) -> Option<&'a str> {
    let Ok(file) = first(alloc) else {
        return Some(line);
    };
    let mut scene = Scene {
        alloc,
        file,
        pages: 16_384,
    };
    match unmet(&mut scene, start) {
        Some(item) => Some(item),
        None => unmet(&mut scene, line),
    }
}

/// Rights as a number.
fn of_rights(rights: Rights) -> u64 {
    u64::from(rights.r) << 2 | u64::from(rights.w) << 1 | u64::from(rights.x)
}

/// Whether an image is so.
fn is_image(image: &Image, value: &str) -> bool {
    let phnum = u64::from(image.phnum);
    let count = image.segments.len() as u64;
    are_numbers(value, &[image.entry, image.phdr, phnum, count])
}

/// Whether a segment of an image is so.
fn has_segment(image: &Image, value: &str) -> bool {
    let mut is_well = true;
    let [place, ..] = numbers(value, &mut is_well);
    let Some(segment) = image.segments.as_slice().get(place as usize) else {
        return false;
    };
    let found = [
        place,
        u64::from(segment.index),
        segment.address,
        segment.offset,
        segment.file_size,
        segment.memory_size,
        of_rights(segment.rights),
    ];
    are_numbers(value, &found)
}

/// An argument.
fn argument(alloc: Global, text: &str) -> Result<String, AllocError> {
    let mut made = String::new(alloc);
    if let Some(count) = text.strip_prefix("x*") {
        for _ in 0..count.parse::<u32>().unwrap_or(0) {
            made.push('x')?;
        }
        return Ok(made);
    }
    for letter in text.chars() {
        made.push(if letter == '~' { '\0' } else { letter })?;
    }
    Ok(made)
}

/// Whether a program may be started with arguments.
fn are_taken(alloc: Global, value: &str) -> Result<bool, AllocError> {
    let mut args = Vec::new(alloc);
    for part in value.split(',') {
        args.push(argument(alloc, part)?)?;
    }
    Ok(are_arguments(&args))
}

impl Scene {
    /// Whether an item is in its form and as the line has it.
    fn meets(&mut self, item: &str) -> bool {
        let (name, value) = item.split_once('=').unwrap_or((item, ""));
        let mut is_well = true;
        match name {
            "put" => put_field(&mut self.file, numbers(value, &mut is_well)),
            "header" => put_header(&mut self.file, numbers(value, &mut is_well)),
            "length" => self.resize(value, &mut is_well),
            "pages" => self.pages = small(number(value, &mut is_well), &mut is_well),
            _ => is_well = self.has(name, value),
        }
        is_well
    }

    /// Sets the file's length. It isn't well where memory is wanting.
    fn resize(&mut self, value: &str, is_well: &mut bool) {
        let length = number(value, is_well) as usize;
        *is_well = *is_well && self.file.resize(length, 0).is_ok();
    }

    /// Whether the file or the arguments are so.
    fn has(&self, name: &str, value: &str) -> bool {
        match name {
            "refused" => self.is_refused(self.file.len(), value),
            "cuts" => self.has_cuts(value),
            "image" | "segment" => self.has_image(name, value),
            "taken" => are_taken(self.alloc, value) == Ok(true),
            "untaken" => are_taken(self.alloc, value) == Ok(false),
            _ => false,
        }
    }

    /// Whether the file is refused by the fault of this name where it is cut to a length.
    fn is_refused(&self, length: usize, name: &str) -> bool {
        let file = self.file.get(..length).unwrap_or(&[]);
        match read(file, self.pages) {
            Ok(_) => false,
            Err(fault) => match format!(in self.alloc; "{fault:?}") {
                Ok(text) => text.as_str() == name,
                Err(_) => false,
            },
        }
    }

    /// Whether the file is refused by a fault where it is cut to any of these lengths.
    fn has_cuts(&self, value: &str) -> bool {
        let (least, rest) = value.split_once(',').unwrap_or((value, ""));
        let (end, name) = rest.split_once(',').unwrap_or((rest, ""));
        let mut is_well = true;
        let lengths = number(least, &mut is_well)..number(end, &mut is_well);
        for length in lengths {
            let length = length as usize;
            is_well = is_well && length <= self.file.len() && self.is_refused(length, name);
        }
        is_well
    }

    /// Whether the image or a segment of it is so.
    fn has_image(&self, name: &str, value: &str) -> bool {
        match read(&self.file, self.pages) {
            Ok(image) if name == "image" => is_image(&image, value),
            Ok(image) => has_segment(&image, value),
            Err(_) => false,
        }
    }
}
