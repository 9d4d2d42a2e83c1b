//! Permutes of the fields of predicates, by the words of predicate registers: fields in turn, every second field,
//! fields in reverse order, and the bits of a half. A lane of e bits has a field of e / 8 bits, which moves as a whole.
#![tactic(auto)]

ghost use Rattle.std.specs.Prelude.{◌≡◌, ◌<◌, ◌≤◌, ◌+◌, ◌*◌, ◌/◌, ◌%◌, ℕ, false};
ghost use Rattle.emu_bits.specs.Fields.{bit};
ghost use Rattle.lane_permute.specs.Places.{IsField};
ghost use Rattle.lane_model.specs.Permute.{taken, zip_place, uzp_place, trn_place, rev_place};
ghost use Rattle.sve_effects.specs.PermuteRows as model;
ghost use Rattle.sve_effects.specs.PermuteRows.{interleave_place};
ghost use Rattle.pred_permutes.specs.Fields.{bit_of_field};
ghost use Rattle.emu_model.specs.LaneSizes.{IsLaneSize};
ghost use Rattle.vec_regs.specs.Words.{bit_of, AreClearFrom};

use emu_bits::Pred;
use lane_permute::four_words::{rev, trn, uzp, zip};
use sve_insn::{InterleaveOp, UnpackPOp};
use vec_regs::VecRegs;

/// The fields of w bits of two predicates of so many bits in turn: of their first halves, or of their second halves.
fn zipped(second: bool, w: u32, bits: u32, a: &[u64; 4], b: &[u64; 4]) -> [u64; 4]
    requires field { IsField w }
    requires few { bits ≤ 256 }
    requires whole { bits % 16 ≡ 0 }
    requires first { AreClearFrom bits a.now }
    requires second { AreClearFrom bits b.now }
    ensures fields { (j : ℕ) → j < bits → bit_of result j ≡ taken (bit_of_field w (j % w) a.now)
        (bit_of_field w (j % w) b.now) false false (zip_place second (bits / w) (j / w)) }
    ensures above { AreClearFrom bits result }
{
    zip(a, b, begin(second, bits / 2), w, bits)
}

/// The even fields of two predicates one after the other, or the odd fields.
fn unzipped(second: bool, w: u32, bits: u32, a: &[u64; 4], b: &[u64; 4]) -> [u64; 4]
    requires field { IsField w }
    requires few { bits ≤ 256 }
    requires whole { bits % 16 ≡ 0 }
    requires first { AreClearFrom bits a.now }
    requires second { AreClearFrom bits b.now }
    ensures fields { (j : ℕ) → j < bits → bit_of result j ≡ taken (bit_of_field w (j % w) a.now)
        (bit_of_field w (j % w) b.now) false false (uzp_place second (bits / w) (j / w)) }
    ensures above { AreClearFrom bits result }
{
    uzp(a, b, begin(second, w), w, bits)
}

/// The even fields of two predicates in turn, or the odd fields.
fn transposed(second: bool, w: u32, bits: u32, a: &[u64; 4], b: &[u64; 4]) -> [u64; 4]
    requires field { IsField w }
    requires few { bits ≤ 256 }
    requires whole { bits % 16 ≡ 0 }
    requires first { AreClearFrom bits a.now }
    requires second { AreClearFrom bits b.now }
    ensures fields { (j : ℕ) → j < bits → bit_of result j
        ≡ taken (bit_of_field w (j % w) a.now) (bit_of_field w (j % w) b.now) false false (trn_place second (j / w)) }
    ensures above { AreClearFrom bits result }
{
    trn(a, b, begin(second, w), w)
}

/// The fields of w bits of two predicates of so many bits, each where the name puts it.
fn interleaved_words(op: InterleaveOp, w: u32, bits: u32, a: &[u64; 4], b: &[u64; 4]) -> [u64; 4]
    requires field { IsField w }
    requires few { bits ≤ 256 }
    requires whole { bits % 16 ≡ 0 }
    requires first { AreClearFrom bits a.now }
    requires second { AreClearFrom bits b.now }
    ensures fields { (j : ℕ) → j < bits → bit_of result j ≡ taken (bit_of_field w (j % w) a.now)
        (bit_of_field w (j % w) b.now) false false (interleave_place op (bits / w) (j / w)) }
    ensures above { AreClearFrom bits result }
{
    match op {
        InterleaveOp::Zip1 => zipped(false, w, bits, a, b),
        InterleaveOp::Zip2 => zipped(true, w, bits, a, b),
        InterleaveOp::Uzp1 => unzipped(false, w, bits, a, b),
        InterleaveOp::Uzp2 => unzipped(true, w, bits, a, b),
        InterleaveOp::Trn1 => transposed(false, w, bits, a, b),
        InterleaveOp::Trn2 => transposed(true, w, bits, a, b),
    }
}

/// Writes the fields of pn and pm for lanes of e bits to pd, each where the name puts it.
pub fn interleaved(vec: &mut VecRegs, op: InterleaveOp, e: u32, pn: Pred, pm: Pred, pd: Pred)
    requires { IsLaneSize e }
    ensures { vec.new ≡ model.with_p_places e (interleave_place op (vec.old.bits / e)) pn pm pd vec.old }
{
    let bits = vec.length().bits() / 8;
    let words = interleaved_words(op, e / 8, bits, vec.p_words(pn), vec.p_words(pm));
    vec.set_p_words(pd, &words);
}

/// Writes the fields of pn for lanes of e bits to pd in reverse order.
pub fn reversed(vec: &mut VecRegs, e: u32, pn: Pred, pd: Pred)
    requires { IsLaneSize e }
    ensures { vec.new ≡ model.with_p_places e (rev_place (vec.old.bits / e)) pn pn pd vec.old }
{
    let bits = vec.length().bits() / 8;
    let words = rev(vec.p_words(pn), e / 8, bits);
    vec.set_p_words(pd, &words);
}

/// Writes the bits of a half of pn to the even bits of pd, and 0 to its odd bits.
pub fn unpacked(vec: &mut VecRegs, op: UnpackPOp, pn: Pred, pd: Pred)
    ensures { vec.new ≡ model.after_unpack_p op pn pd vec.old }
{
    let bits = vec.length().bits() / 8;
    let from = begin(is_high(op), bits / 2);
    let words = zip(vec.p_words(pn), &[0; 4], from, 1, bits);
    vec.set_p_words(pd, &words);
}

/// Whether a name is of the high half.
fn is_high(op: UnpackPOp) -> bool
    ensures { result ≡ model.is_high_p op }
{
    matches!(op, UnpackPOp::Punpkhi)
}

/// Where the first or the second of two parts of n begins.
fn begin(second: bool, n: u32) -> u32
    ensures value { result ≡ bit second * n }
    ensures within { result ≤ n }
{
    if second { n } else { 0 }
}
