//! Bytes as lines.
use std::{io, str};

/// Whether a byte is a printing character of ASCII or a newline.
fn is_plain(byte: u8) -> bool {
    byte == b'\n' || byte == b' ' || byte.is_ascii_graphic()
}

/// Whether the last word of a line is four zeros or more.
fn ends_in_zeros(line: &str) -> bool {
    match line.rsplit_once(' ') {
        Some((_, word)) => word.len() >= 4 && word.as_bytes().iter().all(|byte| *byte == b'0'),
        None => false,
    }
}

/// Writes a row of bytes in hexadecimal, behind the place of its first.
fn show_row(rt: HostRuntime, number: usize, row: &[u8]) -> io::Result<()> {
    print!(rt; "{:06x}0:", number)?;
    for byte in row {
        print!(rt; " {byte:02x}")?;
    }
    println!(rt; "")
}

/// Writes the rows of 16 bytes that aren't all zero.
fn show_rows(rt: HostRuntime, bytes: &[u8]) -> io::Result<()> {
    for (number, row) in bytes.chunks(16).enumerate() {
        if row.iter().any(|byte| *byte != 0) {
            show_row(rt, number, row)?;
        }
    }
    Ok(())
}

/// Writes the lines that don't end in zeros.
fn show_lines(rt: HostRuntime, text: &str) -> io::Result<()> {
    for line in text.lines() {
        if !ends_in_zeros(line) {
            println!(rt; "  {line}")?;
        }
    }
    Ok(())
}

/// Writes how many bytes there are, and which.
pub fn show(rt: HostRuntime, name: &str, bytes: &[u8]) -> io::Result<()> {
    println!(rt; "{name}: {} bytes", bytes.len())?;
    match str::from_utf8(bytes) {
        Ok(text) if bytes.iter().all(|byte| is_plain(*byte)) => show_lines(rt, text),
        _ => show_rows(rt, bytes),
    }
}

/// The number of 64 bits that FNV-1a makes of bytes.
fn digest(bytes: &[u8]) -> u64 {
    let mut digest = 0xCBF2_9CE4_8422_2325_u64;
    for byte in bytes {
        digest = (digest ^ u64::from(*byte)).wrapping_mul(0x100_0000_01B3);
    }
    digest
}

/// The first line of bytes; an empty one where they are no text.
pub fn first_line(bytes: &[u8]) -> &str {
    let text = str::from_utf8(bytes).unwrap_or("");
    text.lines().next().unwrap_or("")
}

/// Writes how many bytes there are, and the number that they make.
pub fn show_digest(rt: HostRuntime, name: &str, bytes: &[u8]) -> io::Result<()> {
    print!(rt; "; {name} {} {:016x}", bytes.len(), digest(bytes))
}

/// Writes how many bytes of a stream were moved at the first and at the last of the calls, and how many in all.
pub fn show_range(
    rt: HostRuntime,
    name: &str,
    first: usize,
    last: usize,
    all: usize,
) -> io::Result<()> {
    println!(rt; "  {name}: {first} to {last} of {all} bytes")
}
