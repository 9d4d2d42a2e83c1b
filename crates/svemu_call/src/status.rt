//! The status of the process.
ghost use Rattle.std.specs.Prelude.{◌≡◌, ◌<◌, ◌⊎◌, ℕ, List, map, string_bytes, IfErr, IfOk, IfSome};
ghost use Rattle.command_model.specs.CommandLine.{line};
ghost use Rattle.command_lines.specs.Outcome.{result_of};
ghost use Rattle.commands.specs.Lines.{IsOutcome};
ghost use Rattle.svemu_call.specs.Headline.{IsQuiet, CompletesWith, MayEndWith};

use crate::top::svemu;
use io_gate::{Images, Sink, Source};
use std::alloc::Global;

/// Does what the words of the command line say, as `svemu` does, and gives the status of the process: that of the
/// ending that `svemu` answers.
pub fn status_of<F: Images, I: Source, O: Sink, E: Sink>(
    alloc: Global,
    words: &[String],
    files: &mut F,
    input: &mut I,
    output: &mut O,
    errors: &mut E,
) -> u8
    // Where no count of faults rose, the status is that of the result's ending, or of want of memory; where there is no
    // result, that of a missing file, or of want of memory.
    ensures complete { IfSome (F.named files.old)
        (λ named. (bytes : List ℕ) → IsOutcome (line (map string_bytes words.now))
        (I.left input.old) (result_of (map string_bytes words.now) named bytes) bytes
        → IsQuiet (F.faults files.old) (F.faults files.new) → IsQuiet (I.faults input.old) (I.faults input.new)
        → IsQuiet (O.faults output.old) (O.faults output.new) → IsQuiet (E.faults errors.old) (E.faults errors.new)
        → CompletesWith (result_of (map string_bytes words.now) named bytes) result) }

    // Whatever is told: a fault that was counted is the status.
    ensures file { F.faults files.old < F.faults files.new → result ≡ 126 }
    ensures read { I.faults input.old < I.faults input.new → result ≡ 124 }
    ensures write { O.faults output.old < O.faults output.new → result ≡ 125 }
    ensures errors { E.faults errors.old < E.faults errors.new → result ≡ 125 }

    // A refused line has its status, unless its text couldn't be put on the errors; any other line that of an ending
    // which its command may have.
    ensures refused { IfErr (line (map string_bytes words.now)) (λ _. (result ≡ 121) ⊎ (result ≡ 125)) }
    ensures kind { IfOk (line (map string_bytes words.now)) (λ l. MayEndWith l result) }
{
    svemu(alloc, words, files, input, output, errors).status()
}
