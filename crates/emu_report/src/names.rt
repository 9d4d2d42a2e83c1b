//! The names of traps and of refusals as they are printed.
ghost use Rattle.std.specs.Prelude.{◌≡◌, ◌≤◌, length};
ghost use Rattle.emu_run.specs.Reports.{trap_name};
ghost use Rattle.command_model.specs.Refusals.{listing_name, schedule_name, script_name, words_name};
ghost use Rattle.emu_report.specs.FaultNames.{fault_index, fault_name};

use command_model::WordsWhy;
use dbg_model::ScriptWhy;
use emu_model::TrapKind;
use emu_system::ElfFault;
use guest_schedule::ScheduleWhy;
use listing_model::ListingWhy;

/// A trap's kind.
pub fn trap_name(kind: TrapKind) -> &'static str
    ensures name { result.now ≡ trap_name kind }
    ensures short { length result.now ≤ 16 }
{
    match kind {
        TrapKind::Undefined => "undefined",
        TrapKind::Halt => "halt",
        TrapKind::Break => "break",
        TrapKind::PcAlign => "pc-align",
        TrapKind::SpAlign => "sp-align",
        TrapKind::AccessAlign => "access-align",
        TrapKind::Fetch => "fetch",
        TrapKind::Read => "read",
        TrapKind::Write => "write",
    }
}

/// Why a command line is refused.
pub fn words_name(why: WordsWhy) -> &'static str
    ensures name { result.now ≡ words_name why }
    ensures short { length result.now ≤ 16 }
{
    match why {
        WordsWhy::TooManyWords => "TooManyWords",
        WordsWhy::WordsTooLong => "WordsTooLong",
        WordsWhy::ZeroByte => "ZeroByte",
        WordsWhy::NoCommand => "NoCommand",
        WordsWhy::UnknownCommand => "UnknownCommand",
        WordsWhy::UnknownOption => "UnknownOption",
        WordsWhy::Repeated => "Repeated",
        WordsWhy::MissingValue => "MissingValue",
        WordsWhy::BadNumber => "BadNumber",
        WordsWhy::BadLength => "BadLength",
        WordsWhy::OutOfRange => "OutOfRange",
        WordsWhy::ExtraWord => "ExtraWord",
        WordsWhy::MissingWord => "MissingWord",
        WordsWhy::MissingLength => "MissingLength",
        WordsWhy::MissingBudget => "MissingBudget",
    }
}

/// Why an image is refused.
pub fn fault_name(fault: ElfFault) -> &'static str
    ensures name { result.now ≡ fault_name fault }
    ensures short { length result.now ≤ 16 }
{
    match fault {
        ElfFault::TooShort => "TooShort",
        ElfFault::BadMagic => "BadMagic",
        ElfFault::BadClass => "BadClass",
        ElfFault::BadData => "BadData",
        ElfFault::BadVersion => "BadVersion",
        ElfFault::BadType => "BadType",
        ElfFault::BadMachine => "BadMachine",
        ElfFault::BadHeaderSize => "BadHeaderSize",
        ElfFault::TooManySegments => "TooManySegments",
        ElfFault::HeadersOutside => "HeadersOutside",
        ElfFault::Interpreter(_) => "Interpreter",
        ElfFault::SegmentOutside(_) => "SegmentOutside",
        ElfFault::FileOverMemory(_) => "FileOverMemory",
        ElfFault::AddressOutside(_) => "AddressOutside",
        ElfFault::NotCongruent(_) => "NotCongruent",
        ElfFault::Overlap(_) => "Overlap",
        ElfFault::NoSegments => "NoSegments",
        ElfFault::TooManyPages => "TooManyPages",
    }
}

/// The number of the program header that an image is refused for, where one is.
pub fn fault_index(fault: ElfFault) -> Option<u16>
    ensures { result ≡ fault_index fault }
{
    match fault {
        ElfFault::Interpreter(index)
        | ElfFault::SegmentOutside(index)
        | ElfFault::FileOverMemory(index)
        | ElfFault::AddressOutside(index)
        | ElfFault::NotCongruent(index)
        | ElfFault::Overlap(index) => Some(index),
        _ => None,
    }
}

/// Why a listing is refused.
pub fn listing_name(why: ListingWhy) -> &'static str
    ensures name { result.now ≡ listing_name why }
    ensures short { length result.now ≤ 17 }
{
    match why {
        ListingWhy::NotUtf8 => "NotUtf8",
        ListingWhy::TooManyLines => "TooManyLines",
        ListingWhy::LongLine => "LongLine",
        ListingWhy::BadLabel => "BadLabel",
        ListingWhy::UnknownName => "UnknownName",
        ListingWhy::BadOperands => "BadOperands",
        ListingWhy::OutOfRange => "OutOfRange",
        ListingWhy::SecondEntry => "SecondEntry",
        ListingWhy::LabelTwice => "LabelTwice",
        ListingWhy::InstructionInData => "InstructionInData",
        ListingWhy::Misaligned => "Misaligned",
        ListingWhy::TooLarge => "TooLarge",
        ListingWhy::UnknownLabel => "UnknownLabel",
        ListingWhy::TooFar => "TooFar",
        ListingWhy::NoCode => "NoCode",
    }
}

/// Why a script is refused.
pub fn script_name(why: ScriptWhy) -> &'static str
    ensures name { result.now ≡ script_name why }
    ensures short { length result.now ≤ 17 }
{
    match why {
        ScriptWhy::NotUtf8 => "NotUtf8",
        ScriptWhy::TooManyLines => "TooManyLines",
        ScriptWhy::UnknownCommand => "UnknownCommand",
        ScriptWhy::MissingWord => "MissingWord",
        ScriptWhy::BadNumber => "BadNumber",
        ScriptWhy::OutOfRange => "OutOfRange",
        ScriptWhy::ExtraWord => "ExtraWord",
        ScriptWhy::TooMany => "TooMany",
    }
}

/// Why a schedule is refused.
pub fn schedule_name(why: ScheduleWhy) -> &'static str
    ensures name { result.now ≡ schedule_name why }
    ensures short { length result.now ≤ 17 }
{
    match why {
        ScheduleWhy::NotUtf8 => "NotUtf8",
        ScheduleWhy::TooManyLines => "TooManyLines",
        ScheduleWhy::MissingWord => "MissingWord",
        ScheduleWhy::BadNumber => "BadNumber",
        ScheduleWhy::OutOfRange => "OutOfRange",
        ScheduleWhy::ExtraWord => "ExtraWord",
        ScheduleWhy::NoTurn => "NoTurn",
    }
}
