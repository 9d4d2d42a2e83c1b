//! The bytes of files that lines write, and the words of a command line.
use std::alloc::{AllocError, Global};

/// The bytes of a text of hexadecimal numbers.
pub fn bytes_of(alloc: Global, text: &str) -> Result<Vec<u8>, AllocError> {
    let mut bytes = Vec::new(alloc);
    for word in text.split(' ') {
        if let Ok(byte) = u8::from_str_radix(word, 16) {
            bytes.push(byte)?;
        }
    }
    Ok(bytes)
}

/// So many bytes of one value: `COUNT BYTE`.
pub fn filled(alloc: Global, text: &str) -> Result<Vec<u8>, AllocError> {
    let (count, byte) = text.split_once(' ').unwrap_or((text, ""));
    let count = count.parse::<usize>().unwrap_or(0);
    let byte = u8::from_str_radix(byte, 16).unwrap_or(0);
    vec![in alloc; byte; count]
}

/// The lines of a text, which have `;` between them.
pub fn lines_of(alloc: Global, text: &str) -> Result<Vec<u8>, AllocError> {
    let mut bytes = Vec::new(alloc);
    for line in text.split(';') {
        bytes.extend_from_slice(line.as_bytes())?;
        bytes.push(b'\n')?;
    }
    Ok(bytes)
}

/// Writes the low `size` bytes of a number at an offset, lowest first; what is behind the end is left out.
pub fn put_number(bytes: &mut [u8], offset: usize, size: usize, number: u64) {
    for (k, byte) in number.to_le_bytes().iter().take(size).enumerate() {
        let at = offset.saturating_add(k);
        if at < bytes.len() {
            bytes[at] = *byte;
        }
    }
}

/// Writes numbers one behind the other: `OFFSET SIZE NUMBER ..`.
pub fn put_numbers(bytes: &mut [u8], text: &str) {
    let (offset, more) = text.split_once(' ').unwrap_or((text, ""));
    let (size, numbers) = more.split_once(' ').unwrap_or((more, ""));
    let size = size.parse::<usize>().unwrap_or(0);
    let mut at = offset.parse::<usize>().unwrap_or(0);
    for number in numbers.split(' ') {
        put_number(
            bytes,
            at,
            size,
            u64::from_str_radix(number, 16).unwrap_or(0),
        );
        at = at.saturating_add(size);
    }
}

/// The word that is written so.
fn word_of(alloc: Global, text: &str) -> Result<String, AllocError> {
    let mut word = String::new(alloc);
    if let Some(count) = text.strip_prefix("@") {
        for _ in 0..count.parse::<u32>().unwrap_or(0) {
            word.push('x')?;
        }
        return Ok(word);
    }
    for letter in text.chars() {
        word.push(if letter == '~' { '\0' } else { letter })?;
    }
    Ok(word)
}

/// The words of a text that has one space between two; an empty text has none.
pub fn words_of(alloc: Global, text: &str) -> Result<Vec<String>, AllocError> {
    let mut words = Vec::new(alloc);
    if text.is_empty() {
        return Ok(words);
    }
    for word in text.split(' ') {
        words.push(word_of(alloc, word)?)?;
    }
    Ok(words)
}

/// Whether these are just so many of the first bytes of the whole.
pub fn is_first(bytes: &[u8], count: usize, whole: &[u8]) -> bool {
    match whole.get(..count) {
        Some(first) => first == bytes,
        None => false,
    }
}

/// Whether these are just the bytes of the whole behind so many.
pub fn is_rest(bytes: &[u8], count: usize, whole: &[u8]) -> bool {
    match whole.get(count..) {
        Some(rest) => rest == bytes,
        None => false,
    }
}
