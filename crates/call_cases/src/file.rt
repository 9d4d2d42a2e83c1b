//! Executables, field by field.
use case_streams::put_number;
use std::alloc::{AllocError, Global};

/// The fields of the first file: an offset, a size in bytes, a value.
const FIELDS: [(usize, usize, u64); 20] = [
    (0, 4, 0x464C_457F),
    (4, 1, 2),
    (5, 1, 1),
    (6, 1, 1),
    (16, 2, 2),
    (18, 2, 183),
    (20, 4, 1),
    (24, 8, 0x40_0000),
    (32, 8, 64),
    (52, 2, 64),
    (54, 2, 56),
    (56, 2, 1),
    (64, 4, 1),
    (68, 4, 5),
    (72, 8, 4096),
    (80, 8, 0x40_0000),
    (88, 8, 0x40_0000),
    (96, 8, 12),
    (104, 8, 12),
    (112, 8, 4096),
];

/// The first file.
pub fn first(alloc: Global) -> Result<Vec<u8>, AllocError> {
    let mut file = vec![in alloc; 0u8; 4108]?;
    for (offset, size, value) in FIELDS {
        put_number(&mut file, offset, size, value);
    }
    Ok(file)
}

/// Writes a field: its offset, its size and its value.
pub fn put_field(file: &mut [u8], numbers: [u64; 7]) {
    put_number(file, numbers[0] as usize, numbers[1] as usize, numbers[2]);
}

/// Writes a program header: its number, and its fields but p_paddr and p_align.
pub fn put_header(file: &mut [u8], numbers: [u64; 7]) {
    let at = (numbers[0] as usize).saturating_mul(56).saturating_add(64);
    for (offset, size, value) in [
        (0, 4, numbers[1]),
        (4, 4, numbers[2]),
        (8, 8, numbers[3]),
        (16, 8, numbers[4]),
        (32, 8, numbers[5]),
        (40, 8, numbers[6]),
    ] {
        put_number(file, at.saturating_add(offset), size, value);
    }
}
