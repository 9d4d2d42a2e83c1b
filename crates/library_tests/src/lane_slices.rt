//! Permutes of slices of lanes, each at one of the four widths.
use lane_permute::{compact, ext, insr, last, rev, splice, tbl, trn, uzp, widen, zip};

const FIRST: [u32; 4] = [1, 2, 3, 4];

const SECOND: [u32; 4] = [5, 6, 7, 8];

const HALVES: [u16; 4] = [1, 2, 3, 0xFFFF];

/// Two slices, permuted into one.
fn of_two() -> [[u32; 4]; 5] {
    let mut low = [0; 4];
    let mut high = [0; 4];
    let mut odd = [0; 4];
    let mut pairs = [0; 4];
    let mut joined = [0; 4];
    // zip1 z0.s, z1.s, z2.s
    zip(&FIRST, &SECOND, false, &mut low);
    zip(&FIRST, &SECOND, true, &mut high);
    uzp(&FIRST, &SECOND, true, &mut odd);
    trn(&FIRST, &SECOND, true, &mut pairs);
    splice(&[false, true, true, false], &FIRST, &SECOND, &mut joined);
    [low, high, odd, pairs, joined]
}

/// One slice, permuted.
fn of_one() -> [[u16; 4]; 4] {
    let mut back = [0; 4];
    let mut moved = [0; 4];
    let mut active = [0; 4];
    let mut chosen = [0; 4];
    rev(&HALVES, &mut back);
    insr(&HALVES, 9, &mut moved);
    compact(&[false, true, false, true], &HALVES, &mut active);
    tbl(&HALVES, &[3, 0, 4, 1], &mut chosen);
    [back, moved, active, chosen]
}

/// Bytes of two slices from a place on.
fn extracted() -> [u8; 4] {
    let mut bytes = [0; 4];
    ext(&[1, 2, 3, 4], &[5, 6, 7, 8], 3, &mut bytes);
    bytes
}

/// Lanes with their sign in twice as many bits.
fn widened() -> [u32; 2] {
    let mut wide = [0; 2];
    widen(&HALVES, true, true, &mut wide);
    wide
}

/// The lane behind the last active one, and the last lane of none.
fn lasts() -> [Option<u16>; 2] {
    [
        last(&[false, true, false, false], &HALVES, true),
        last(&[false, false, false, false], &HALVES, false),
    ]
}

#[test]
fn slices_of_lanes_are_permuted(rt: HostRuntime) {
    let two = [
        [1, 5, 2, 6],
        [3, 7, 4, 8],
        [2, 4, 6, 8],
        [2, 6, 4, 8],
        [2, 3, 5, 6],
    ];
    let one = [
        [0xFFFF, 3, 2, 1],
        [9, 1, 2, 3],
        [2, 0xFFFF, 0, 0],
        [0xFFFF, 1, 0, 2],
    ];
    assert_eq!(rt; of_two(), two);
    assert_eq!(rt; of_one(), one);
    assert_eq!(rt; (extracted(), widened()), ([4, 5, 6, 7], [3, 0xFFFF_FFFF]));
    assert_eq!(rt; lasts(), [Some(3), None]);
}
