//! The lines of what is refused before a program runs.
ghost use Rattle.std.specs.Prelude.{◌≡◌, string_bytes, OnOk};
ghost use Rattle.tool_texts.specs.Explanations.{family_line, file_line, value_line};

use crate::pieces::push_word;
use emu_system::ElfFault;
use std::alloc::AllocError;

/// Appends the line of a file, by its name: what is said of it.
pub fn push_file_line(text: &mut String, name: &str, said: &str) -> Result<(), AllocError>
    ensures { OnOk result (string_bytes text.new ≡ file_line (string_bytes text.old) name.now said.now) }
{
    text.push_str("svemu: ")?;
    text.push_str(name)?;
    text.push_str(" ")?;
    text.push_str(said)?;
    text.push_str("\n")
}

/// Appends the line of a value that is refused: the option or the variable that has it, and what it may be.
pub fn push_value_line(
    text: &mut String,
    name: &str,
    value: &str,
    may_be: &str,
) -> Result<(), AllocError>
    ensures { OnOk result (string_bytes text.new ≡ value_line (string_bytes text.old) name.now value.now may_be.now) }
{
    text.push_str("svemu: ")?;
    text.push_str(name)?;
    text.push_str(" is '")?;
    text.push_str(value)?;
    text.push_str("': it may be ")?;
    text.push_str(may_be)?;
    text.push_str("\n")
}

/// Appends a word and the name of its family.
pub fn push_family_line(text: &mut String, word: u32, family: &str) -> Result<(), AllocError>
    ensures { OnOk result (string_bytes text.new ≡ family_line (string_bytes text.old) word family.now) }
{
    push_word(text, word)?;
    text.push_str(" ")?;
    text.push_str(family)?;
    text.push_str("\n")
}

/// What a file is that was refused as an image: by the fault, and by the fields e_type and e_machine of its header.
pub fn image_hint(fault: ElfFault, kind: u16, machine: u16, has_interpreter: bool) -> &'static str {
    match fault {
        ElfFault::TooShort | ElfFault::BadMagic => "is no ELF file",
        ElfFault::BadClass => "is an ELF file of 32 bits, and not of 64",
        ElfFault::BadData => "is big endian",
        ElfFault::BadVersion | ElfFault::BadHeaderSize => "is an ELF file of another version",
        ElfFault::BadType | ElfFault::BadMachine => header_hint(kind, machine, has_interpreter),
        ElfFault::Interpreter(_) => "is a dynamic program: link it with -static",
        ElfFault::NoSegments => "has nothing that is loaded",
        ElfFault::TooManyPages => "needs more pages than it may have (SVEMU_PAGES gives more)",
        ElfFault::TooManySegments | ElfFault::HeadersOutside => {
            "is cut off or damaged: its headers tell of more than it has"
        }
        ElfFault::SegmentOutside(_) => {
            "is cut off, or has zeros alone in a writable segment: give one of its variables another value"
        }
        ElfFault::FileOverMemory(_) | ElfFault::NotCongruent(_) =>
            "is damaged: a segment isn't laid out as one",
        ElfFault::AddressOutside(_) => "has a segment outside of 0x1000 to 0x7f0000000000",
        ElfFault::Overlap(_) => "has two segments that share a page: link it with -z separate-code",
    }
}

/// What an ELF file of 64 bits is, by e_type and e_machine.
fn header_hint(kind: u16, machine: u16, has_interpreter: bool) -> &'static str {
    match (machine, kind) {
        (62, _) => "is an x86-64 program: built by the host's compiler?",
        (183, 1) => "is a relocatable file: not linked",
        (183, 3) if has_interpreter => "is position independent: add -static -no-pie",
        (183, 3) => "is position independent (add -static -no-pie) or a shared library",
        (183, 4) => "is a core dump",
        (183, _) => "is no executable",
        (243, _) => "is a RISC-V program",
        (_, _) => "is a program for another machine than AArch64",
    }
}
