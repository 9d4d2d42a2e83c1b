//! How the program is used, and which version it is.

/// How the program is used.
pub const USAGE: &str = "\
usage: svemu-tool run [OPTION ..] PROGRAM [ARG ..]
       svemu-tool family [WORD ..]
       svemu-tool count FILE --vl N|all --budget B [--pages P] [-- ARG ..]
       svemu-tool trace FILE --vl N --budget B [--pages P] [OPTION ..] [-- ARG ..]
       svemu-tool debug FILE [--vl N] [--budget B] [--pages P] [--input FILE] [--lines FILE] [--script FILE]
                  [-- ARG ..]
       svemu-tool --help | --version

run runs a static AArch64 program with SVE: its input, output, errors and status are its own. Where it doesn't come to
its exit, a line behind its errors says why and where.

  --vl N             the vector length in bits, a multiple of 128 from 128 to 2048 (SVEMU_VL, else 512)
  --budget B         the greatest number of steps (SVEMU_BUDGET, else 10000000000)
  --pages P          the greatest number of mapped pages of 4 KiB (SVEMU_PAGES, else 16384)
  --threads SCHEDULE the program's threads take turns as the file SCHEDULE says
  --registers FILE   writes the line that says how the run ended, and the registers, to FILE
  --quiet            no line behind the program's errors
  --                 no option stands behind it

family says the family of each word, as 0x1e222820, that is no instruction of the table; without words those of the
lines of its input.

count runs the program of FILE, and writes how often each of its instructions was executed, at one vector length or at
each: a line for each address with its counts, and then how each run ended. What the program writes is dropped.

trace runs the program of FILE at one vector length, and writes a line on each step: its number, address, word and text,
each register that it changed, and each element that it loaded or stored; and then how the run ended, or where the trace
did. What the program writes is dropped.

  --from PLACE       begin at the first step at a symbol, or at an address as 0x400100
  --call K           and there at its K-th arrival
  --after N          pass over the first N steps
  --steps N          end behind N steps from the first one on
  --until PLACE      end before a later step at a symbol or an address
  --show LIST        tell only these, with commas between: x, sp, nzcv, tpidr, vl, z, p, ffr, memory
  --in SYMBOL        tell only steps in the function of that name

debug is a debugger for people: a command a line, with the names that gdb has; `help` lists them. It goes back as it goes
on. The program's input is that of --input, and the lines of its source those of the table of --lines, which svemu-debug
makes; without --script the commands are those of the input.

status of run: the program's own; 128 and the number of the signal of a trap; 119 no thread is ready; 120 without
memory; 121 a refused line; 122 a refused program or schedule; 123 the steps are spent; 124 or 125 the input or an
output failed; 126 a file that can't be read; 127 one that is too long.
";

/// Which version the program is.
pub const VERSION: &str = "svemu-tool 0.1.0\n";
