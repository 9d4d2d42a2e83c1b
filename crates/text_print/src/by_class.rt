//! Where the lists of the dictionary have the registers of a class, and the word of a class and a value.
ghost use Rattle.std.specs.Prelude.{◌≡◌, get_or};
ghost use Rattle.text_print.specs.ByClass.{family_place, word_place};
ghost use Rattle.text_print.specs.declared.by_class.TheConstants.{NONE};

use text_model::Class;

/// A place behind the last of each list.
const NONE: u8 = 64;

/// The place of each class's family among the families of registers.
const FAMILIES: [u8; 49] = [
    // no items of a text, numbers, marks
    NONE, NONE, NONE, NONE, NONE, NONE, NONE, NONE, NONE,
    // W, X, and B to Q
    0, 1, 13, 14, 15, 16, 17,
    // V8b to V2d
    18, 19, 20, 21, 22, 23, 24,
    // Z to Zq
    7, 2, 3, 4, 5, 6,
    // P to Pd
    8, 9, 10, 11, 12,
    // words
    NONE, NONE, NONE, NONE, NONE, NONE, NONE, NONE, NONE, NONE, NONE, NONE, NONE, NONE, NONE,
];

/// Where each class's row begins in [`PLACES`]; a word stands as far behind that as its value says. Rows share their
/// room: where a class has no word of a value, that of another may stand.
const ROWS: [u8; 49] = [
    // no items of a text, numbers, marks
    NONE, NONE, 14, 15, 16, 17, 18, 19, 20,
    // W and X, which have words from 31 on, and B to Q
    29, 31, NONE, NONE, NONE, NONE, NONE,
    // V8b to V2d
    NONE, NONE, NONE, NONE, NONE, NONE, NONE,
    // Z to Zq
    NONE, NONE, NONE, NONE, NONE, NONE,
    // P to Pd
    NONE, NONE, NONE, NONE, NONE,
    // Shift, ShiftOnes, ExtendByte to ExtendDoubleword, Condition, Count
    48, 21, 52, 54, 56, 58, 32, 0,
    // Times to DczidEl0
    22, 23, 24, 25, 26, 27, 28,
];

/// The places that words have among the words that are no registers, row by row.
const PLACES: [u8; 64] = [
    // Count, to 13
    30, 44, 47, 49, 51, 52, 53, 55, 56, 46, 50, 54, 45, 48,
    // marks
    1, 2, 3, 4, 62, 63, 0,
    // ShiftOnes, Times to DczidEl0
    22, 23, 43, 20, 61, 37, 28, 10,
    // Count, from 29
    25, 24, 6,
    // Condition
    11, 26, 9, 8, 21, 29, 57, 42, 14, 16, 12, 19, 13, 15, 5, 27,
    // Shift
    17, 18, 7, 31,
    // ExtendByte to ExtendDoubleword
    38, 33, 39, 34, 40, 35, 41, 36,
    // W, from 31
    59, 58,
    // X, from 31
    60, 32,
];

/// The place at an index of a list; [`NONE`] behind the last.
fn place_in(places: &[u8], at: usize) -> u8
    ensures { result ≡ get_or places.now at NONE }
{
    if at < places.len() { places[at] } else { NONE }
}

/// The place that a class's family has among the families of registers.
pub fn family_place(class: Class) -> usize
    ensures { result ≡ family_place class }
{
    usize::from(place_in(&FAMILIES, usize::from(class.number())))
}

/// The only place that the word of a class and a value can have among the words that are no registers.
pub fn word_place(class: Class, value: u128) -> usize
    ensures { result ≡ word_place class value }
{
    if value >= 64 {
        return usize::from(NONE);
    }
    let row = place_in(&ROWS, usize::from(class.number()));
    usize::from(place_in(&PLACES, usize::from(row) + value as usize))
}
