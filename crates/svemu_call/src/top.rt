//! The top call: from the words of the command line to the ending.
ghost use Rattle.std.specs.Prelude.{◌≡◌, ◌≢◌, ◌≤◌, ◌⊎◌, ℕ, List, map, string_bytes, IfErr, IfOk, IfSome, true, false};
ghost use Rattle.io_gate.specs.Streams.{Rose, Causes};
ghost use Rattle.command_model.specs.CommandLine.{line};
ghost use Rattle.command_model.specs.Refusals.{words_line};
ghost use Rattle.command_lines.specs.Outcome.{result_of};
ghost use Rattle.commands.specs.Lines.{
  takes_input,
  names_file,
  may_end,
  reads_input_first,
  sweeps,
  IsOutcome,
  RefusesLine,
  SettlesLine,
  MissesFirst,
  EndsMissing,
  ReadsInputFirst,
  TakesNothingEarly,
};
ghost use Rattle.emu_system.specs.Gained.{Gains};
ghost use Rattle.commands.specs.Promises.{
  is_failure,
  is_silent,
  output_of,
  errors_of,
  taken_of,
  EndsAs,
  Loses,
  NamesNoFile,
};
ghost use Rattle.commands.specs.Whole.{InLine, HasAllPut};
ghost use Rattle.svemu_call.specs.Headline.{IsQuiet, Completes};

use command_lines::Ending;
use commands::command;
use io_gate::{Images, Sink, Source};
use std::alloc::Global;

/// Does what the words of the command line say: `words` are those after the program's name, `files` has the files that
/// they name, and the guest reads `input` and writes to `output` and `errors`. A session's lines, the executable of a
/// listing, the text of instructions and the lines of `load` and of a sweep go to `output`. How a run ended, with its
/// registers or those of its contexts, and why a command was refused is put on `errors`.
///
/// Unless a file or a stream failed or memory was wanting, the ending and all that is written are those of the
/// definitions' result. That is said where the files tell their bytes, and the input too where a machine is run; of
/// what a sink gained where it tells its own. Each fault comes where its object failed, and that of a file where there
/// is none of its name, and nowhere else.
pub fn svemu<F: Images, I: Source, O: Sink, E: Sink>(
    alloc: Global,
    words: &[String],
    files: &mut F,
    input: &mut I,
    output: &mut O,
    errors: &mut E,
) -> Ending
    // The ending is that of the command's result; and one that isn't the end of a run, or of a sweep or a session that
    // read its input first, is so whatever the input has or tells.
    ensures ending { IfSome (F.named files.old)
        (λ named. (bytes : List ℕ) → IsOutcome (line (map string_bytes words.now))
        (I.left input.old) (result_of (map string_bytes words.now) named bytes) bytes
        → is_failure result ≡ false → EndsAs (result_of (map string_bytes words.now) named bytes) result) }
    ensures settled { IfSome (F.named files.old)
        (λ named. is_failure result ≡ false → (bytes : List ℕ) → SettlesLine (map string_bytes words.now) named
        (line (map string_bytes words.now)) (result_of (map string_bytes words.now) named bytes) result) }

    // The output and the errors gained just the bytes of the result, and the input lost just as many as it takes; after
    // a failure they gained first bytes of these, and it lost no more.
    ensures output { IfSome (F.named files.old)
        (λ named. (bytes : List ℕ) → IsOutcome (line (map string_bytes words.now)) (I.left input.old)
        (result_of (map string_bytes words.now) named bytes) bytes → IfSome (O.held output.old) (λ had. Gains
        (is_failure result) (O.held output.new) had (output_of (result_of (map string_bytes words.now) named bytes)))) }
    ensures errors { IfSome (F.named files.old)
        (λ named. (bytes : List ℕ) → IsOutcome (line (map string_bytes words.now)) (I.left input.old)
        (result_of (map string_bytes words.now) named bytes) bytes → IfSome (E.held errors.old) (λ had. Gains
        (is_failure result) (E.held errors.new) had (errors_of (result_of (map string_bytes words.now) named bytes)))) }
    ensures input { IfSome (F.named files.old) (λ named. IfSome (I.left input.old) (λ bytes. Loses (is_failure result)
        (I.left input.new) bytes (taken_of (result_of (map string_bytes words.now) named bytes)))) }

    // Where no count of faults rose, the command ends as its result says, or memory was wanting.
    ensures complete { IfSome (F.named files.old)
        (λ named. (bytes : List ℕ) → IsOutcome (line (map string_bytes words.now))
        (I.left input.old) (result_of (map string_bytes words.now) named bytes) bytes
        → IsQuiet (F.faults files.old) (F.faults files.new) → IsQuiet (I.faults input.old) (I.faults input.new)
        → IsQuiet (O.faults output.old) (O.faults output.new) → IsQuiet (E.faults errors.old) (E.faults errors.new)
        → Completes (result_of (map string_bytes words.now) named bytes) result) }

    // Whatever is told, a line that isn't refused ends only as its command may, and TooLong has the limit.
    ensures kind { IfOk (line (map string_bytes words.now)) (λ l. may_end l result ≡ true) }

    // A file is at fault where the count of files rose, or where the words name one that there isn't, and only there;
    // nothing was moved then.
    ensures file_cause { result ≡ Ending.FileFault → Rose (F.faults files.old) (F.faults files.new)
        ⊎ NamesNoFile (result_of (map string_bytes words.now)) (F.named files.old) }
    ensures file_kept { result ≢ Ending.FileFault → F.faults files.new ≡ F.faults files.old }
    ensures missing { NamesNoFile (result_of (map string_bytes words.now)) (F.named files.old)
        → EndsMissing (line (map string_bytes words.now)) result }
    ensures missing_first { MissesFirst (map string_bytes words.now)
        (line (map string_bytes words.now)) (F.named files.old)
        → result ≡ Ending.FileFault }
    ensures file_first { result ≡ Ending.FileFault
        → (input.new ≡ input.old) × (output.new ≡ output.old) × (errors.new ≡ errors.old) }
    ensures files_later { F.faults files.old ≤ F.faults files.new }

    // A line that names no file asks for none.
    ensures no_file { names_file (line (map string_bytes words.now)) ≡ false
        → (files.new ≡ files.old) × (result ≢ Ending.FileFault) }

    // A stream is at fault where its own count rose, and only there.
    ensures read_cause { Causes (result ≡ Ending.ReadFault) (I.faults input.old) (I.faults input.new) }
    ensures write_cause { Causes (result ≡ Ending.WriteFault) (O.faults output.old) (O.faults output.new) }
    ensures errors_cause { Causes (result ≡ Ending.ErrorsFault) (E.faults errors.old) (E.faults errors.new) }

    // Where memory was wanting, nothing was written, but under `sweep`, which may want it at each length; and nothing
    // was taken, but by what reads its input first: a sweep, and a session whose script goes back.
    ensures memory_first { TakesNothingEarly (map string_bytes words.now)
        (line (map string_bytes words.now)) (F.named files.old)
        → result ≡ Ending.OutOfMemory → input.new ≡ input.old }
    ensures memory_unwritten { sweeps (line (map string_bytes words.now)) ≡ false → result ≡ Ending.OutOfMemory
        → (output.new ≡ output.old) × (errors.new ≡ errors.old) }

    // What reads its input first ends with a fault of the input only while it is read: then nothing was written.
    ensures read_unwritten { ReadsInputFirst (map string_bytes words.now)
        (line (map string_bytes words.now)) (F.named files.old)
        → result ≡ Ending.ReadFault → (output.new ≡ output.old) × (errors.new ≡ errors.old) }

    // Where a stream failed, and the line doesn't read its input first: the output and the errors, where they didn't
    // fail, have all that the program, and a session, had put by then.
    ensures whole { IfSome (F.named files.old) (λ named. takes_input (line (map string_bytes words.now)) ≡ true
        → reads_input_first (map string_bytes words.now) named (line (map string_bytes words.now)) ≡ false
        → HasAllPut (InLine (map string_bytes words.now) named (line (map string_bytes words.now))
        result (I.left input.new))
        (result_of (map string_bytes words.now) named) result (I.left input.old)
        (O.held output.old) (O.held output.new) (E.held errors.old) (E.held errors.new)) }

    // A line that runs no machine over the input takes none, and puts nothing on the errors but the line of a refusal.
    ensures no_input { takes_input (line (map string_bytes words.now)) ≡ false
        → (input.new ≡ input.old) × (result ≢ Ending.ReadFault) }
    ensures no_errors { takes_input (line (map string_bytes words.now)) ≡ false → is_silent result ≡ true
        → errors.new ≡ errors.old }

    // A line is refused exactly where the definitions refuse it; its line goes to the errors, and nothing to the
    // output.
    ensures refused { RefusesLine (line (map string_bytes words.now)) result }
    ensures refused_output { IfErr (line (map string_bytes words.now)) (λ _. output.new ≡ output.old) }
    ensures refused_errors { IfErr (line (map string_bytes words.now)) (λ fault. IfSome (E.held errors.old)
        (λ had. Gains (is_failure result) (E.held errors.new) had (words_line fault))) }
{
    command(alloc, words, files, input, output, errors)
}
