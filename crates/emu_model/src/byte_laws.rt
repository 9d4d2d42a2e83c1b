//! Laws of memory as one finite map from address to byte: what stands in bytes that are read and written in a row, and
//! in pages that are mapped, taken away and protected. Each is the contract of a function that does nothing.
ghost use Rattle.std.specs.Prelude.{◌≡◌, ◌≢◌, ◌<◌, ◌≤◌, ◌+◌, ◌^◌, ℕ, true, List, length, get_or, Some, None};
ghost use Rattle.std.specs.FinMap.{FinMap, get, contains_key};
ghost use Rattle.std.specs.Ordering.{nat_cmp};
ghost use Rattle.emu_model.specs.Access.{Memory, address};
ghost use Rattle.emu_model.specs.ByteMap.{IsByteMap};
ghost use Rattle.emu_model.specs.Pages.{bytes_at, with_bytes, mapped, protected, unmapped};
ghost use Rattle.emu_model.specs.SoundState.{IsSoundMemory};
ghost use Rattle.emu_model.specs.declared.access.Rights.{Rights};
ghost use Rattle.emu_model.specs.Ranges.{IsSetInPages, bytes_in_row, with_bytes_in_row};

/// A memory has no other map of its bytes.
pub fn memory_has_one_map()
    ensures { (m : Memory) (bytes others : FinMap nat_cmp ℕ) → IsByteMap m bytes → IsByteMap m others → bytes ≡ others }
{}

/// Bytes in a row are read from the map of a memory's bytes, and bytes that are written in a row replace those of the
/// map.
pub fn ranges_are_of_the_map()
    ensures reads { (m : Memory) (bytes : FinMap nat_cmp ℕ) (a n : ℕ) → IsByteMap m bytes
        → bytes_at m a n ≡ bytes_in_row bytes a n }
    ensures writes { (m : Memory) (bytes : FinMap nat_cmp ℕ) (a : ℕ) (xs : List ℕ) → IsSoundMemory m → IsByteMap m bytes
        → IsByteMap (with_bytes m a xs) (with_bytes_in_row bytes a xs) }
{}

/// Where at most 2^64 bytes are written in a row from address a on, byte k stands at address a + k, modulo 2^64, if the
/// map has that address. After any row each other address has what it had, and the map has the same addresses.
pub fn rows_are_written_in_place()
    ensures there { (bytes : FinMap nat_cmp ℕ) (a k : ℕ) (xs : List ℕ)
        → length xs ≤ 2 ^ 64 → k < length xs → contains_key bytes (address (a + k)) ≡ true
        → get (with_bytes_in_row bytes a xs) (address (a + k)) ≡ Some (get_or xs k 0) }
    ensures elsewhere { (bytes : FinMap nat_cmp ℕ) (a q : ℕ) (xs : List ℕ)
        → ((k : ℕ) → k < length xs → address (a + k) ≢ q) → get (with_bytes_in_row bytes a xs) q ≡ get bytes q }
    ensures same_addresses { (bytes : FinMap nat_cmp ℕ) (a q : ℕ) (xs : List ℕ)
        → contains_key (with_bytes_in_row bytes a xs) q ≡ contains_key bytes q }
{}

/// Pages that are taken away take their addresses from the map, pages that are mapped have a zero at each address, and
/// pages that are protected leave the map as it is.
pub fn mapping_is_of_the_map()
    ensures unmapped { (m : Memory) (bytes : FinMap nat_cmp ℕ) (first count : ℕ) → IsByteMap m bytes
        → (new : FinMap nat_cmp ℕ) × IsByteMap (unmapped m first count) new × IsSetInPages first count None bytes new }
    ensures mapped { (m : Memory) (bytes : FinMap nat_cmp ℕ) (first count : ℕ) (rights : Rights)
        → IsByteMap m bytes → (new : FinMap nat_cmp ℕ) × IsByteMap (mapped m first count rights) new
        × IsSetInPages first count (Some 0) bytes new }
    ensures protected { (m : Memory) (bytes : FinMap nat_cmp ℕ) (first count : ℕ) (rights : Rights) → IsByteMap m bytes
        → IsByteMap (protected m first count rights) bytes }
{}
