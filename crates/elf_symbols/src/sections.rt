//! The section headers of a file, and its symbol table among them.
ghost use Rattle.std.specs.Prelude.{◌≡◌, ◌+◌, ◌*◌, ◌<◌, ◌≤◌, length, IsTrue};
ghost use Rattle.elf_symbols.specs.Symbols.{
  is_elf64_little,
  section_at,
  section,
  section_count,
  e_shoff,
  first_symbol_table,
  entries_within,
  contents,
  names,
};
ghost use Rattle.elf_symbols.specs.Read.{seen_section, seen_table};

use crate::fields::{byte, doubleword, halfword, word};

/// What symbols take of a section header.
#[derive(Clone, Copy, Debug)]
pub struct Section {
    /// sh_type.
    pub kind: u32,
    /// sh_offset.
    pub offset: u64,
    /// sh_size.
    pub size: u64,
    /// sh_link.
    pub link: u32,
    /// sh_entsize.
    pub entry_size: u64,
}

/// The bytes of the ELF header.
const HEADER_SIZE: usize = 64;
/// The first four bytes, as a number.
const MAGIC: u32 = 0x464C_457F;
/// ELFCLASS64.
const CLASS: u8 = 2;
/// ELFDATA2LSB.
const DATA: u8 = 1;
/// The bytes of a section header.
const SECTION_SIZE: usize = 64;
/// SHT_SYMTAB.
const SYMBOL_TABLE: u32 = 2;
/// SHT_STRTAB.
const STRING_TABLE: u32 = 3;

/// How many entries of `size` bytes lie in the file, of `count` that begin at an offset.
#[tactic(auto, unfolding(crate::specs::Symbols::entries_within))]
pub fn entries_within(file: &[u8], offset: u64, size: usize, count: u64) -> usize
    requires { 0 < size }
    ensures value { result ≡ entries_within file.now offset size count }
    ensures within { 0 < result → offset + size * result ≤ length file.now }
{
    let room = (file.len() as u64).saturating_sub(offset) / size as u64;
    room.min(count) as usize
}

/// Whether a file begins as an ELF64 little-endian file does.
#[tactic(auto, unfolding(crate::specs::Symbols::is_elf64_little))]
fn is_elf64_little(file: &[u8]) -> bool
    ensures value { result ≡ is_elf64_little file.now }
    ensures whole { IsTrue result → 64 ≤ length file.now }
{
    file.len() >= HEADER_SIZE
        && word(file, 0) == MAGIC
        && byte(file, 4) == CLASS
        && byte(file, 5) == DATA
}

/// How many section headers lie in a file.
#[tactic(auto, unfolding(crate::specs::Symbols::section_count))]
pub fn section_count(file: &[u8]) -> usize
    ensures value { result ≡ section_count file.now }
    ensures whole { 0 < result → 64 ≤ length file.now }
    ensures within { 0 < result → e_shoff file.now + 64 * result ≤ length file.now }
{
    if is_elf64_little(file) && halfword(file, 58) as usize == SECTION_SIZE {
        entries_within(
            file,
            doubleword(file, 40),
            SECTION_SIZE,
            u64::from(halfword(file, 60)),
        )
    } else {
        0
    }
}

impl Section {
    /// The section header at an offset in a file.
    fn at(file: &[u8], at: usize) -> Section
        requires { at + 64 ≤ length file.now }
        ensures { seen_section result ≡ section_at file.now at }
    {
        Section {
            kind: word(file, at + 4),
            offset: doubleword(file, at + 24),
            size: doubleword(file, at + 32),
            link: word(file, at + 40),
            entry_size: doubleword(file, at + 56),
        }
    }

    /// Section header `index` of a file.
    #[tactic(auto, unfolding(crate::specs::Symbols::section))]
    fn of_index(file: &[u8], index: usize) -> Section
        requires whole { 64 ≤ length file.now }
        requires within { e_shoff file.now + 64 * index + 64 ≤ length file.now }
        ensures { seen_section result ≡ section file.now index }
    {
        Section::at(file, doubleword(file, 40) as usize + SECTION_SIZE * index)
    }

    /// The bytes of a section that lie in the file.
    #[tactic(auto, unfolding(crate::specs::Symbols::contents))]
    fn contents(self, file: &[u8]) -> &[u8]
        ensures { result.now ≡ contents file.now (seen_section self) }
    {
        if self.offset > file.len() as u64 {
            return &[];
        }
        let rest = &file[self.offset as usize..];
        &rest[..rest.len().min(self.size as usize)]
    }
}

/// The first symbol table of a file.
#[tactic(auto, using(crate::proofs::Steps::table_steps))]
pub fn symbol_table(file: &[u8]) -> Option<Section>
    ensures { seen_table result ≡ first_symbol_table file.now (section_count file.now) }
{
    let mut found = None;
    for index in 0..section_count(file) {
        let section = Section::of_index(file, index);
        if found.is_none() && section.kind == SYMBOL_TABLE {
            found = Some(section);
        }
    }
    found
}

/// The bytes of the string table of a symbol table, none where it has none.
#[tactic(auto, unfolding(crate::specs::Symbols::names))]
pub fn names(file: &[u8], table: Section) -> &[u8]
    ensures { result.now ≡ names file.now (seen_section table) }
{
    let index = table.link as usize;
    if index >= section_count(file) {
        return &[];
    }
    let strings = Section::of_index(file, index);
    if strings.kind == STRING_TABLE {
        strings.contents(file)
    } else {
        &[]
    }
}
