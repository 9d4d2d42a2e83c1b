//! The families' names, and what to do about a word of each.
ghost use Rattle.std.specs.Prelude.{◌≡◌};
ghost use Rattle.word_families.specs.Texts.{name_of, advice_of};

use crate::Family;

/// The name of a family, in small words: `floating point`.
pub fn family_name(family: Family) -> &'static str
    ensures { result.now ≡ name_of family }
{
    match family {
        Family::FloatingPoint => "floating point",
        Family::SveFloatingPoint => "SVE floating point",
        Family::AdvancedSimd => "Advanced SIMD",
        Family::Sve2 => "SVE2",
        Family::SveLeftOut => "SVE left out",
        Family::Sme => "SME",
        Family::Cryptographic => "cryptographic",
        Family::Crc32 => "CRC32",
        Family::PointerAuthentication => "pointer authentication",
        Family::MemoryTagging => "memory tagging",
        Family::System => "system",
        Family::PairAtomics => "atomics of pairs",
        Family::UnprivilegedLoads => "unprivileged load or store",
        Family::RcpcLoads => "RCpc load or store",
        Family::OtherExtension => "another extension",
        Family::PermanentlyUndefined => "permanently undefined",
        Family::Unallocated => "unallocated",
    }
}

/// What to do about a word of a family: one line without its end, in which TESTING_YOUR_CODE is the guide of that name.
pub fn advice(family: Family) -> &'static str
    ensures { result.now ≡ advice_of family }
{
    match family {
        Family::FloatingPoint => "build without it, or see TESTING_YOUR_CODE",
        Family::SveFloatingPoint => "build without it, or see TESTING_YOUR_CODE",
        Family::AdvancedSimd => {
            "build with the flags of TESTING_YOUR_CODE; for builtins, intrinsics and assembly see What leaves the table"
        }
        Family::Sve2 => "build with -march=armv8-a+sve, and without -mcpu",
        Family::SveLeftOut => "see What leaves the table in TESTING_YOUR_CODE",
        Family::Sme => "build with -march=armv8-a+sve",
        Family::Cryptographic => "build with -march=armv8-a+sve, and without -mcpu",
        Family::Crc32 => "build with -march=armv8-a+sve+nocrc",
        Family::PointerAuthentication => "build with -march=armv8-a+sve -mbranch-protection=none",
        Family::MemoryTagging => "build with -march=armv8-a+sve, and without -fsanitize=memtag",
        Family::System => "leave it out: the system registers are tpidr_el0, nzcv and dczid_el0",
        Family::PairAtomics => "build with -march=armv8-a+sve, and without atomics of 128 bits",
        Family::UnprivilegedLoads => "use plain loads and stores",
        Family::RcpcLoads => "build with -march=armv8-a+sve+norcpc",
        Family::OtherExtension => "build with -march=armv8-a+sve",
        Family::PermanentlyUndefined =>
            "the program ran into zeros or data: see where it came from",
        Family::Unallocated => "no instruction: the program ran into data, see where it came from",
    }
}
