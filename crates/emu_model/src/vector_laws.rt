//! Laws of the definitions, each the contract of a function that does nothing.
ghost use Rattle.std.specs.Prelude.{
  ◌≡◌,
  ◌≢◌,
  ◌<◌,
  ◌≤◌,
  ◌/◌,
  ◌%◌,
  ◌^◌,
  ℕ,
  Bool,
  false,
  List,
  get_or,
  if◌then◌else◌,
  nat_lt,
};
ghost use Rattle.emu_model.specs.SoundState.{IsVectorLength, IsSoundVectors};
ghost use Rattle.emu_model.specs.State.{Vectors};
ghost use Rattle.emu_model.specs.Active.{active};
ghost use Rattle.emu_model.specs.AfterCall.{cleared};
ghost use Rattle.emu_model.specs.Writes.{after_call, with_ffr_fields};
ghost use Rattle.emu_model.specs.Lanes.{
  lane,
  number,
  read_z,
  read_p,
  with_z,
  with_p,
  with_lanes,
  with_fields,
  with_low,
};
ghost use Rattle.emu_model.specs.LaneSizes.{IsLaneSize};

/// Sound vectors are sound after a write, whatever is written: lanes or low bits of a Z register, fields of a predicate
/// or of FFR; cleared in a vector length that is at most the starting one; and after a call that returns.
pub fn lanes_keep_vectors_sound()
    ensures lanes { (e : ℕ) (f : ℕ → ℕ) (zd : ℕ) (v : Vectors) → IsSoundVectors v
        → IsSoundVectors (with_lanes e f zd v) }
    ensures fields { (e : ℕ) (f : ℕ → Bool) (pd : ℕ) (v : Vectors) → IsSoundVectors v
        → IsSoundVectors (with_fields e f pd v) }
    ensures ffr { (e : ℕ) (f : ℕ → Bool) (v : Vectors) → IsSoundVectors v → IsSoundVectors (with_ffr_fields e f v) }
    ensures low { (bits x zd : ℕ) (v : Vectors) → IsSoundVectors v → IsSoundVectors (with_low bits x zd v) }
    ensures cleared { (bits : ℕ) (v : Vectors) → IsVectorLength bits → bits ≤ v.most → IsSoundVectors v
        → IsSoundVectors (cleared bits v) }
    ensures call { (v : Vectors) → IsSoundVectors v → IsSoundVectors (after_call v) }
{}

/// A lane reads as what was written to it, modulo 2^e, and a register with x written to its low bits is the number x
/// modulo 2^bits: all bits above are 0. Lane k of a written predicate, or of FFR, is active exactly where f k is true,
/// and the other bits of its field are 0. The other Z registers and the other predicates read as before.
pub fn lanes_read_as_written()
    ensures lanes { (e : ℕ) (f : ℕ → ℕ) (zd k : ℕ) (v : Vectors) → IsSoundVectors v → IsLaneSize e → zd < 32
        → k < v.bits / e → lane e (read_z (with_lanes e f zd v) zd) k ≡ f k % 2 ^ e }
    ensures low { (bits x zd : ℕ) (v : Vectors) → IsSoundVectors v → zd < 32 → bits ≤ v.bits
        → number (read_z (with_low bits x zd v) zd) ≡ x % 2 ^ bits }
    ensures other_z { (bytes : List ℕ) (zd r : ℕ) (v : Vectors) → r ≢ zd → read_z (with_z v zd bytes) r ≡ read_z v r }
    ensures fields { (e : ℕ) (f : ℕ → Bool) (pd k : ℕ) (v : Vectors) → IsSoundVectors v → IsLaneSize e → pd < 16
        → k < v.bits / e → active e (read_p (with_fields e f pd v) pd) k ≡ f k }
    ensures between { (e : ℕ) (f : ℕ → Bool) (pd j : ℕ) (v : Vectors) → IsSoundVectors v → pd < 16 → j < v.bits / 8
        → j % (e / 8) ≢ 0 → get_or (read_p (with_fields e f pd v) pd) j false ≡ false }
    ensures other_p { (bits : List Bool) (pd r : ℕ) (v : Vectors) → r ≢ pd → read_p (with_p v pd bits) r ≡ read_p v r }
    ensures ffr { (e : ℕ) (f : ℕ → Bool) (k : ℕ) (v : Vectors) → IsLaneSize e → k < v.bits / e
        → active e (with_ffr_fields e f v).ffr k ≡ f k }
    ensures ffr_between { (e : ℕ) (f : ℕ → Bool) (j : ℕ) (v : Vectors) → j < v.bits / 8 → j % (e / 8) ≢ 0
        → get_or (with_ffr_fields e f v).ffr j false ≡ false }
{}

/// Cleared in any length of bits, as they are after a call that returns, the low 16 bytes of each Z register read as
/// before, and its other bytes, the bits of each predicate and those of FFR read as 0.
pub fn calls_clear_vectors()
    ensures z { (bits : ℕ) (v : Vectors) (r j : ℕ)
        → get_or (read_z (cleared bits v) r) j 0 ≡ (if nat_lt j 16 then get_or (read_z v r) j 0 else 0) }
    ensures p { (bits : ℕ) (v : Vectors) (r j : ℕ) → get_or (read_p (cleared bits v) r) j false ≡ false }
    ensures ffr { (bits : ℕ) (v : Vectors) (j : ℕ) → get_or (cleared bits v).ffr j false ≡ false }
{}
