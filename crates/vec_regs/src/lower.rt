//! The lowest 128 bits of Z registers, and any 128 bits of one.
ghost use Rattle.std.specs.Prelude.{◌≡◌, ◌<◌, ◌≤◌, ◌+◌, ◌*◌, ◌/◌, get_or, map, set};
ghost use Rattle.std.specs.List.{All};
ghost use Rattle.vec_regs.specs.Packed as model;
ghost use Rattle.vec_regs.specs.Packed.{number_words};
ghost use Rattle.vec_regs.specs.Words.{AreZeroFrom};

use emu_model::Length;

/// The words of a register that is a number.
pub fn register_of(v: u128) -> [u64; 32]
    ensures words { result ≡ number_words v }
    ensures above { AreZeroFrom 2 result }
{
    let mut words = [0; 32];
    words[0] = (v % 0x1_0000_0000_0000_0000) as u64;
    words[1] = (v / 0x1_0000_0000_0000_0000) as u64;
    words
}

/// The words of a register that keeps its lowest 128 bits, and has zeros above.
fn low_words(words: &[u64; 32]) -> [u64; 32]
    ensures { result ≡ model.low_words words.now }
{
    let mut kept = [0; 32];
    kept[0] = words[0];
    kept[1] = words[1];
    kept
}

/// Leaves each register its lowest 128 bits, and zeros above.
pub fn keep_low(z: &mut [[u64; 32]; 32])
    ensures { z.new ≡ map model.low_words z.old }
{
    for r in 0..32 {
        z[r] = low_words(&z[r]);
    }
}

/// Writes words 2 * i and 2 * i + 1.
pub fn put_pair(words: &mut [u64; 32], i: u32, pair: [u64; 2])
    requires { i < 16 }
    ensures { words.new ≡ set (set words.old (2 * i) (get_or pair 0 0)) (2 * i + 1) (get_or pair 1 0) }
{
    let at = 2 * i as usize;
    words[at] = pair[0];
    words[at + 1] = pair[1];
}

/// How many words are within one of two vector lengths.
pub fn words_of(here: Length, there: Length) -> usize
    ensures here { here / 64 ≤ result }
    ensures there { there / 64 ≤ result }
    ensures most { result ≤ 32 }
{
    let mine = here.bits();
    let other = there.bits();
    if mine < other {
        other as usize / 64
    } else {
        mine as usize / 64
    }
}

/// Makes a register the same as another, where both have zeros from word `count` on.
#[inline(always)]
fn copy_words(to: &mut [u64; 32], from: &[u64; 32], count: usize)
    requires within { count ≤ 32 }
    requires zero_to { AreZeroFrom count to.old }
    requires zero_from { AreZeroFrom count from.now }
    ensures { to.new ≡ from.now }
{
    to[..count].copy_from_slice(&from[..count]);
}

/// Makes registers the same as others, where all have zeros from word `count` on.
pub fn copy_registers(to: &mut [[u64; 32]; 32], from: &[[u64; 32]; 32], count: usize)
    requires within { count ≤ 32 }
    requires zero_to { All (AreZeroFrom count) to.old }
    requires zero_from { All (AreZeroFrom count) from.now }
    ensures { to.new ≡ from.now }
{
    for r in 0..32 {
        copy_words(&mut to[r], &from[r], count);
    }
}
