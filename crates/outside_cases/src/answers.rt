//! What commands answer, the same type for both programs.
use emu_model::Rights;

/// What a command answers.
#[derive(Clone, Copy, PartialEq, Eq, Debug)]
pub enum Answer {
    Done,
    /// A page is mapped already.
    Taken(u64),
    /// There would be more pages than the limit allows.
    Full,
    OutOfMemory,
    /// A page isn't mapped.
    Unmapped(u64),
    /// The page may not be written.
    Denied,
    /// How many pages are mapped.
    Mapped(u32),
    /// The first page of a run that is free.
    Free(Option<u64>),
    /// The rights of a page and the sum of its bytes, each times its place counted from 1.
    Page(Rights, u32),
    /// No page of this number is mapped.
    Missing,
    /// No call may be made with these numbers.
    OutOfRange,
}

/// The answer of `map`.
pub fn of_map(answered: Result<(), guest_pages::MapFault>) -> Answer {
    match answered {
        Ok(()) => Answer::Done,
        Err(guest_pages::MapFault::Taken(page)) => Answer::Taken(page),
        Err(guest_pages::MapFault::Full) => Answer::Full,
    }
}

/// The answer of the plain `map`.
pub fn of_plain_map(answered: Result<(), plain_pages::MapError>) -> Answer {
    match answered {
        Ok(()) => Answer::Done,
        Err(plain_pages::MapError::Refused(fault)) => of_map(Err(fault)),
        Err(plain_pages::MapError::OutOfMemory) => Answer::OutOfMemory,
    }
}

/// The answer of `store`.
pub fn of_store(stored: bool) -> Answer {
    if stored { Answer::Done } else { Answer::Denied }
}

/// The answer for a page.
pub fn of_page(found: Option<(Rights, &[u8])>) -> Answer {
    match found {
        None => Answer::Missing,
        Some((rights, bytes)) => Answer::Page(rights, sum_of(bytes)),
    }
}

/// The sum of bytes, each times its place counted from 1.
fn sum_of(bytes: &[u8]) -> u32 {
    let mut sum = 0u32;
    let mut place = 0u32;
    for byte in bytes {
        place = place.wrapping_add(1);
        sum = sum.wrapping_add(place.wrapping_mul(u32::from(*byte)));
    }
    sum
}
