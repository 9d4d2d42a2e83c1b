//! The families of words that are no instruction of the table, by the encoding groups of the Arm manual, and what to do
//! about a word of each.
#![tactic(auto)]

mod groups;
mod texts;

ghost use Rattle.std.specs.Prelude.{◌≡◌};
ghost use Rattle.word_families.specs.Families.{first_family, holds};

pub use groups::{GROUPS, Group};
pub use texts::{advice, family_name};

/// What a word is, where it is no instruction of the table.
#[derive(Clone, Copy, Debug, PartialEq, Eq)]
pub enum Family {
    /// Scalar floating point.
    FloatingPoint,
    /// SVE's floating point, with its constants and conversions.
    SveFloatingPoint,
    /// Advanced SIMD, of V registers and of single lanes.
    AdvancedSimd,
    /// SVE2, its cryptographic instructions among them.
    Sve2,
    /// Integer SVE that isn't in the table: ADR, prefetches by vectors and predicates, saturating counts by predicates,
    /// LD1RO, permutes of quadwords, and products of signed with unsigned lanes and of matrices.
    SveLeftOut,
    /// SME, and what SVE has with it alone.
    Sme,
    /// AES, SHA, SM3 and SM4 on V registers.
    Cryptographic,
    /// CRC32 and CRC32C.
    Crc32,
    /// Pointers signed and authenticated, in registers, branches and loads.
    PointerAuthentication,
    /// Memory tags.
    MemoryTagging,
    /// System registers, maintenance of caches and of translations, barriers of later extensions, and the exceptions of
    /// hypervisors, firmware and debuggers.
    System,
    /// Exclusive loads and stores of pairs, and atomic operations on pairs.
    PairAtomics,
    /// Loads and stores with the rights of EL0.
    UnprivilegedLoads,
    /// Loads with acquire semantics of the RCpc model, and loads and stores of it at an offset.
    RcpcLoads,
    /// Instructions of extensions with a family of no other name: memory copies, flag manipulation, 64-byte loads,
    /// transactions, common short sequences, limited ordering regions.
    OtherExtension,
    /// UDF, whose upper 16 bits are 0: also a word of zeros.
    PermanentlyUndefined,
    /// No instruction at all.
    Unallocated,
}

impl Group {
    /// Whether a word is in the group.
    pub fn holds(&self, word: u32) -> bool
        ensures { result ≡ holds word self.now }
    {
        word & self.mask == self.value
    }
}

/// The family of the first of some groups that a word is in, and `Unallocated` where it is in none.
#[tactic(auto, using(crate::proofs::Steps::group_steps))]
pub fn first_family(groups: &[Group], word: u32) -> Family
    ensures { result ≡ first_family word groups.now }
{
    for group in groups {
        if group.holds(word) {
            return group.family;
        }
    }
    Family::Unallocated
}

/// The family of a word, by `GROUPS`. It is asked of words that are no instruction of the table; of others it tells
/// the family of the words around them.
pub fn family_of(word: u32) -> Family
    ensures { result ≡ first_family word GROUPS }
{
    first_family(&GROUPS, word)
}
