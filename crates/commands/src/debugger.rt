//! The command `dbg`: from the image of a program and the text of a script to the end of the session.
ghost use Rattle.std.specs.Prelude.{◌≡◌, ◌≢◌, ◌<◌, ◌≤◌, map, length, string_bytes, MatchResult, Some, Ok, false, true};
ghost use Rattle.emu_model.specs.Access.{most_mapped_pages};
ghost use Rattle.io_gate.specs.Streams.{Causes};
ghost use Rattle.elf_image.specs.Images.{seen_image};
ghost use Rattle.elf_image.specs.Loadable.{IsLoadable};
ghost use Rattle.emu_system.specs.ArgumentLimits.{AreArguments};
ghost use Rattle.emu_system.specs.Start.{with_input};
ghost use Rattle.dbg_model.specs.Commands.{has_back};
ghost use Rattle.dbg_model.specs.Script.{script_of_file};
ghost use Rattle.dbg_model.specs.Forward as model;
ghost use Rattle.dbg_core.specs.Errors.{fault_in};
ghost use Rattle.line_words.specs.Reading.{IsErrorOf};
ghost use Rattle.command_lines.specs.Outcome.{
  file_limit,
  outcome_of_commands,
  outcome_of_script,
  outcome_of_session,
  outcome_of_session_back,
  over_whole,
};
ghost use Rattle.commands.specs.Endings.{ending_of_back, ending_of_session};
ghost use Rattle.commands.specs.Lines.{ends_dbg, text_goes_back};
ghost use Rattle.commands.specs.Programs.{arguments_of, opening_of};
ghost use Rattle.commands.specs.Promises.{settles_by};
ghost use Rattle.commands.specs.Meets.{now, Meets, MeetsBy, MeetsSweep};
ghost use Rattle.commands.specs.Sweeping.{ends_swept, Writes};
ghost use Rattle.commands.specs.Ahead.{InForward};
ghost use Rattle.commands.specs.Whole.{InSession, HasAllPut};
ghost use Rattle.commands.specs.Passing.{InText};

use crate::files::ending_after_line;
use crate::program::{Program, open_machine, open_marked};
use crate::texts::line_of_place;
use command_lines::Ending;
use command_model::STREAM_LIMIT;
use dbg_back::{BackEnd, session_back};
use dbg_core::{Script, ScriptError, ScriptFault, ScriptWhy, SessionEnd, read_script, session};
use elf_image::Image;
use emu_machine::Machine;
use emu_report::{put_script_refusal, put_too_long};
use io_gate::{ReadEnd, Sink, Source, read_all};
use std::alloc::Global;
use std::str;

/// The script of a file's bytes. Err is its first refusal, or want of memory.
fn script_of(alloc: Global, bytes: &[u8]) -> Result<Script, ScriptError>
    requires { length bytes.now ≤ file_limit }
    ensures { MatchResult result (λ read. script_of_file bytes.now ≡ Ok read)
        (λ error. IsErrorOf (script_of_file bytes.now) (fault_in error)) }
{
    match str::from_utf8(bytes) {
        Ok(text) => read_script(alloc, text),
        Err(error) => Err(ScriptError::Refused(ScriptFault {
            line: line_of_place(bytes, error.valid_up_to()),
            why: ScriptWhy::NotUtf8,
        })),
    }
}

/// The ending of a session.
fn ending_of_session(end: SessionEnd) -> Ending
    ensures { result ≡ ending_of_session end }
{
    match end {
        SessionEnd::Done => Ending::Done,
        SessionEnd::ReadFault => Ending::ReadFault,
        SessionEnd::WriteFault => Ending::WriteFault,
        SessionEnd::ErrorsFault => Ending::ErrorsFault,
    }
}

/// The ending of a session that goes back.
fn ending_of_back(end: BackEnd) -> Ending
    ensures { result ≡ ending_of_back end }
{
    match end {
        BackEnd::Done => Ending::Done,
        BackEnd::WriteFault => Ending::WriteFault,
        BackEnd::ErrorsFault => Ending::ErrorsFault,
    }
}

/// Obeys a script, which goes only forward, by a machine.
fn debug_machine<I: Source, O: Sink, E: Sink>(
    machine: &mut Machine,
    script: &Script,
    budget: u64,
    input: &mut I,
    output: &mut O,
    errors: &mut E,
) -> Ending
    requires failed { machine.old.failed ≡ false }
    requires forward { has_back script.now ≡ false }
    ensures outcome { Meets
        (λ i. Some (outcome_of_session i (model.session script.now budget (with_input machine.old.parts i)))) result
        (now (I.left input.old) (O.held output.old) (E.held errors.old))
        (now (I.left input.new) (O.held output.new) (E.held errors.new)) }
    ensures read_cause { Causes (result ≡ Ending.ReadFault) (I.faults input.old) (I.faults input.new) }
    ensures write_cause { Causes (result ≡ Ending.WriteFault) (O.faults output.old) (O.faults output.new) }
    ensures errors_cause { Causes (result ≡ Ending.ErrorsFault) (E.faults errors.old) (E.faults errors.new) }
    ensures no_file { result ≢ Ending.FileFault }
    ensures no_memory { result ≢ Ending.OutOfMemory }
    ensures kind { ends_dbg result ≡ true }
    ensures whole { HasAllPut (InForward script.now machine.old.parts budget result (I.left input.new))
        (λ i. Some (outcome_of_session i (model.session script.now budget (with_input machine.old.parts i)))) result
        (I.left input.old) (O.held output.old) (O.held output.new) (E.held errors.old) (E.held errors.new) }
{
    ending_of_session(session(machine, script, budget, input, output, errors))
}

/// Runs the session of a script, which goes only forward, over an image.
fn debug_forward<I: Source, O: Sink, E: Sink>(
    alloc: Global,
    bytes: &[u8],
    image: &Image,
    words: &[String],
    script: &Script,
    program: &Program,
    input: &mut I,
    output: &mut O,
    errors: &mut E,
) -> Ending
    requires loadable { IsLoadable bytes.now program.now.pages (seen_image image.now) }
    requires file { program.now.file < program.now.args }
    requires args { program.now.args ≤ length words.now }
    requires arguments { AreArguments (arguments_of (map string_bytes words.now) program.now) }
    requires forward { has_back script.now ≡ false }
    ensures outcome { Meets (λ i. Some (outcome_of_session i (model.session script.now program.now.budget
        (with_input (opening_of bytes.now (seen_image image.now) (map string_bytes words.now) program.now) i)))) result
        (now (I.left input.old) (O.held output.old) (E.held errors.old))
        (now (I.left input.new) (O.held output.new) (E.held errors.new)) }
    ensures read_cause { Causes (result ≡ Ending.ReadFault) (I.faults input.old) (I.faults input.new) }
    ensures write_cause { Causes (result ≡ Ending.WriteFault) (O.faults output.old) (O.faults output.new) }
    ensures errors_cause { Causes (result ≡ Ending.ErrorsFault) (E.faults errors.old) (E.faults errors.new) }
    ensures no_file { result ≢ Ending.FileFault }
    ensures memory_first { result ≡ Ending.OutOfMemory
        → (input.new ≡ input.old) × (output.new ≡ output.old) × (errors.new ≡ errors.old) }
    ensures kind { ends_dbg result ≡ true }
    ensures whole { HasAllPut (InForward script.now
        (opening_of bytes.now (seen_image image.now) (map string_bytes words.now) program.now) program.now.budget
        result (I.left input.new))
        (λ i. Some (outcome_of_session i (model.session script.now program.now.budget (with_input
        (opening_of bytes.now (seen_image image.now) (map string_bytes words.now) program.now) i)))) result
        (I.left input.old) (O.held output.old) (O.held output.new) (E.held errors.old) (E.held errors.new) }
{
    match open_machine(alloc, bytes, image, words, program) {
        Err(_) => Ending::OutOfMemory,
        Ok(mut machine) => debug_machine(
            &mut machine,
            script,
            program.budget,
            input,
            output,
            errors,
        ),
    }
}

/// Runs the session of a script that may go back over an image and its whole input.
fn debug_input<O: Sink, E: Sink>(
    alloc: Global,
    bytes: &[u8],
    image: &Image,
    words: &[String],
    script: &Script,
    program: &Program,
    input: &[u8],
    output: &mut O,
    errors: &mut E,
) -> Ending
    requires loadable { IsLoadable bytes.now program.now.pages (seen_image image.now) }
    requires file { program.now.file < program.now.args }
    requires args { program.now.args ≤ length words.now }
    requires arguments { AreArguments (arguments_of (map string_bytes words.now) program.now) }
    requires pages { program.now.pages ≤ most_mapped_pages }
    ensures outcome { Writes (outcome_of_session_back script.now program.now.budget
        (opening_of bytes.now (seen_image image.now) (map string_bytes words.now) program.now) input.now)
        result (O.held output.old) (O.held output.new) (E.held errors.old) (E.held errors.new) }
    ensures write_cause { Causes (result ≡ Ending.WriteFault) (O.faults output.old) (O.faults output.new) }
    ensures errors_cause { Causes (result ≡ Ending.ErrorsFault) (E.faults errors.old) (E.faults errors.new) }
    ensures memory_first { result ≡ Ending.OutOfMemory → (output.new ≡ output.old) × (errors.new ≡ errors.old) }
    ensures kind { ends_swept result ≡ true }
{
    match open_marked(alloc, bytes, image, words, program) {
        Err(_) => Ending::OutOfMemory,
        Ok(mut machine) => ending_of_back(session_back(
            &mut machine,
            script,
            program.budget,
            input,
            output,
            errors,
        )),
    }
}

/// Reads the input, and runs the session of a script that may go back over an image.
fn debug_back<I: Source, O: Sink, E: Sink>(
    alloc: Global,
    bytes: &[u8],
    image: &Image,
    words: &[String],
    script: &Script,
    program: &Program,
    input: &mut I,
    output: &mut O,
    errors: &mut E,
) -> Ending
    requires loadable { IsLoadable bytes.now program.now.pages (seen_image image.now) }
    requires file { program.now.file < program.now.args }
    requires args { program.now.args ≤ length words.now }
    requires arguments { AreArguments (arguments_of (map string_bytes words.now) program.now) }
    requires pages { program.now.pages ≤ most_mapped_pages }
    ensures outcome { MeetsSweep (λ i. Some (over_whole (outcome_of_session_back script.now program.now.budget
        (opening_of bytes.now (seen_image image.now) (map string_bytes words.now) program.now)) i))
        result (now (I.left input.old) (O.held output.old) (E.held errors.old))
        (now (I.left input.new) (O.held output.new) (E.held errors.new)) }
    ensures read_cause { Causes (result ≡ Ending.ReadFault) (I.faults input.old) (I.faults input.new) }
    ensures write_cause { Causes (result ≡ Ending.WriteFault) (O.faults output.old) (O.faults output.new) }
    ensures errors_cause { Causes (result ≡ Ending.ErrorsFault) (E.faults errors.old) (E.faults errors.new) }
    ensures no_file { result ≢ Ending.FileFault }
    ensures memory_first { result ≡ Ending.OutOfMemory → (output.new ≡ output.old) × (errors.new ≡ errors.old) }
    ensures read_unwritten { result ≡ Ending.ReadFault → (output.new ≡ output.old) × (errors.new ≡ errors.old) }
    ensures kind { ends_dbg result ≡ true }
{
    match read_all(alloc, input, STREAM_LIMIT as usize) {
        Ok(given) => debug_input(
            alloc, bytes, image, words, script, program, &given, output, errors,
        ),
        Err(ReadEnd::TooLong) => ending_after_line(
            put_too_long(STREAM_LIMIT, errors),
            Ending::TooLong(STREAM_LIMIT),
        ),
        Err(ReadEnd::Failed) => Ending::ReadFault,
        Err(ReadEnd::OutOfMemory) => Ending::OutOfMemory,
    }
}

/// Runs the session of a script over an image. Where the script goes back, the input is read to its end before the
/// machine is opened.
fn debug_script<I: Source, O: Sink, E: Sink>(
    alloc: Global,
    bytes: &[u8],
    image: &Image,
    words: &[String],
    script: &Script,
    program: &Program,
    input: &mut I,
    output: &mut O,
    errors: &mut E,
) -> Ending
    requires loadable { IsLoadable bytes.now program.now.pages (seen_image image.now) }
    requires file { program.now.file < program.now.args }
    requires args { program.now.args ≤ length words.now }
    requires arguments { AreArguments (arguments_of (map string_bytes words.now) program.now) }
    requires pages { program.now.pages ≤ most_mapped_pages }
    ensures outcome { MeetsBy (settles_by (has_back script.now)) (λ i. Some (outcome_of_commands i program.now.budget
        (opening_of bytes.now (seen_image image.now) (map string_bytes words.now) program.now) script.now))
        result (now (I.left input.old) (O.held output.old) (E.held errors.old))
        (now (I.left input.new) (O.held output.new) (E.held errors.new)) }
    ensures read_cause { Causes (result ≡ Ending.ReadFault) (I.faults input.old) (I.faults input.new) }
    ensures write_cause { Causes (result ≡ Ending.WriteFault) (O.faults output.old) (O.faults output.new) }
    ensures errors_cause { Causes (result ≡ Ending.ErrorsFault) (E.faults errors.old) (E.faults errors.new) }
    ensures no_file { result ≢ Ending.FileFault }
    ensures memory_first { has_back script.now ≡ false → result ≡ Ending.OutOfMemory → input.new ≡ input.old }
    ensures memory_unwritten { result ≡ Ending.OutOfMemory → (output.new ≡ output.old) × (errors.new ≡ errors.old) }
    ensures read_unwritten { has_back script.now ≡ true → result ≡ Ending.ReadFault
        → (output.new ≡ output.old) × (errors.new ≡ errors.old) }
    ensures kind { ends_dbg result ≡ true }
    ensures whole { has_back script.now ≡ false → HasAllPut (InSession script.now
        (opening_of bytes.now (seen_image image.now) (map string_bytes words.now) program.now) program.now.budget
        result (I.left input.new))
        (λ i. Some (outcome_of_commands i program.now.budget
        (opening_of bytes.now (seen_image image.now) (map string_bytes words.now) program.now) script.now))
        result (I.left input.old)
        (O.held output.old) (O.held output.new) (E.held errors.old) (E.held errors.new) }
{
    if script.has_back() {
        debug_back(
            alloc, bytes, image, words, script, program, input, output, errors,
        )
    } else {
        debug_forward(
            alloc, bytes, image, words, script, program, input, output, errors,
        )
    }
}

/// Runs the session of a script's bytes over an image, or refuses the script. Done where the session came to its end;
/// ScriptRefused, and where the script goes back TooLong where the input has more than 16,777,216 bytes, each behind
/// its line on the errors, a fault of a stream, or OutOfMemory before anything is written, and before anything is taken
/// where the script goes only forward.
pub fn debug_image<I: Source, O: Sink, E: Sink>(
    alloc: Global,
    bytes: &[u8],
    text: &[u8],
    image: &Image,
    words: &[String],
    program: &Program,
    input: &mut I,
    output: &mut O,
    errors: &mut E,
) -> Ending
    requires text { length text.now ≤ file_limit }
    requires loadable { IsLoadable bytes.now program.now.pages (seen_image image.now) }
    requires file { program.now.file < program.now.args }
    requires args { program.now.args ≤ length words.now }
    requires arguments { AreArguments (arguments_of (map string_bytes words.now) program.now) }
    requires pages { program.now.pages ≤ most_mapped_pages }
    ensures outcome { MeetsBy (settles_by (text_goes_back text.now)) (λ i. Some (outcome_of_script i program.now.budget
        (opening_of bytes.now (seen_image image.now) (map string_bytes words.now) program.now)
        (script_of_file text.now)))
        result (now (I.left input.old) (O.held output.old) (E.held errors.old))
        (now (I.left input.new) (O.held output.new) (E.held errors.new)) }
    ensures read_cause { Causes (result ≡ Ending.ReadFault) (I.faults input.old) (I.faults input.new) }
    ensures write_cause { Causes (result ≡ Ending.WriteFault) (O.faults output.old) (O.faults output.new) }
    ensures errors_cause { Causes (result ≡ Ending.ErrorsFault) (E.faults errors.old) (E.faults errors.new) }
    ensures no_file { result ≢ Ending.FileFault }
    ensures memory_first { text_goes_back text.now ≡ false → result ≡ Ending.OutOfMemory → input.new ≡ input.old }
    ensures memory_unwritten { result ≡ Ending.OutOfMemory → (output.new ≡ output.old) × (errors.new ≡ errors.old) }
    ensures read_unwritten { text_goes_back text.now ≡ true → result ≡ Ending.ReadFault
        → (output.new ≡ output.old) × (errors.new ≡ errors.old) }
    ensures kind { ends_dbg result ≡ true }
    ensures whole { text_goes_back text.now ≡ false → HasAllPut
        (InText text.now
        (opening_of bytes.now (seen_image image.now) (map string_bytes words.now) program.now) program.now.budget
        result (I.left input.new))
        (λ i. Some (outcome_of_script i program.now.budget
        (opening_of bytes.now (seen_image image.now) (map string_bytes words.now) program.now)
        (script_of_file text.now)))
        result (I.left input.old)
        (O.held output.old) (O.held output.new) (E.held errors.old) (E.held errors.new) }
{
    match script_of(alloc, text) {
        Err(ScriptError::Refused(fault)) => ending_after_line(
            put_script_refusal(&fault, errors),
            Ending::ScriptRefused(fault),
        ),
        Err(ScriptError::OutOfMemory) => Ending::OutOfMemory,
        Ok(script) => debug_script(
            alloc, bytes, image, words, &script, program, input, output, errors,
        ),
    }
}
