//! The listing of a load program, built as one text.
ghost use Rattle.std.specs.Prelude.{◌≡◌, ◌<◌, ◌≤◌, ◌+◌, ◌++◌, flat_map, string_bytes, IfOk, OnOk};
ghost use Rattle.std.specs.Fmt.{decimal};
ghost use Rattle.std.specs.List.{range_with_len};
ghost use Rattle.command_model.specs.Listing.{data_line, later_number, line_text, listing, number_at, program_text};

use std::alloc::{AllocError, Global};

/// Want of memory.
pub type OutOfMemory = AllocError;

/// The instructions of the program, and the head of its data.
const PROGRAM: &str = "  adr x1, nums
  movz x2, #20000
  movz x3, #0
  dup z0.d, #0
  dup z4.d, #0
  whilelo p0.d, x3, x2
loop: ld1w {z1.d}, p0/z, [x1, x3, lsl #2]
  add z0.d, p0/m, z0.d, z1.d
  index z2.d, x3, #1
  ld1w {z3.d}, p0/z, [x1, z2.d, lsl #2]
  umax z4.d, p0/m, z4.d, z3.d
  incd x3
  whilelo p0.d, x3, x2
  b.mi loop
  ptrue p1.d
  uaddv d0, p1, z0.d
  umaxv d1, p1, z4.d
  fmov x0, d0
  fmov x5, d1
  sub sp, sp, #16
  str x0, [sp]
  str x5, [sp, #8]
  movz x0, #1
  add x1, sp, #0
  movz x2, #16
  movz x8, #64
  svc #0
  movz x0, #0
  movz x8, #93
  svc #0
.data
nums:
";

/// How many lines of eight numbers there are.
const DATA_LINES: u32 = 2_500;

/// The instructions of the program, and the head of its data.
#[tactic(auto, unfolding(crate::specs::Listing::program_text, crate::specs::Listing::program_lines))]
fn program() -> &'static str
    ensures { result.now ≡ program_text }
{
    PROGRAM
}

/// A number of the program's data, by the number that the listing is made from.
fn number_at(number: u64, j: u32) -> u32
    requires { j < 20000 }
    ensures { result ≡ number_at number j }
{
    let product = (u128::from(number) + u128::from(j)) * (u128::from(j) + 1);
    (product % 4_294_967_296) as u32
}

/// Appends a number of the program's data. Err is want of memory.
fn push_number(text: &mut String, number: u64, j: u32) -> Result<(), OutOfMemory>
    requires { j < 20000 }
    ensures { OnOk result (string_bytes text.new ≡ string_bytes text.old ++ decimal (number_at number j)) }
{
    write!(text, "{}", number_at(number, j))
}

/// Appends a number that stands behind another. Err is want of memory.
fn push_later_number(text: &mut String, number: u64, j: u32) -> Result<(), OutOfMemory>
    requires { j < 20000 }
    ensures { OnOk result (string_bytes text.new ≡ string_bytes text.old ++ later_number number j) }
{
    text.push_str(", ")?;
    push_number(text, number, j)
}

/// Appends the seven numbers of a line of data from this one on. Err is want of memory.
fn push_later_numbers(text: &mut String, number: u64, from: u32) -> Result<(), OutOfMemory>
    requires { from + 7 ≤ 20000 }
    ensures { OnOk result
        (string_bytes text.new ≡ string_bytes text.old ++ flat_map (later_number number) (range_with_len from 7)) }
{
    'numbers: for i in 0..7 {
        push_later_number(text, number, from + i)?;
    }
    Ok(())
}

/// Appends a line of data. Err is want of memory.
#[tactic(auto, unfolding(crate::specs::Listing::data_line))]
fn push_data_line(text: &mut String, number: u64, k: u32) -> Result<(), OutOfMemory>
    requires { k < 2500 }
    ensures { OnOk result (string_bytes text.new ≡ string_bytes text.old ++ line_text (data_line number k)) }
{
    text.push_str(".word ")?;
    push_number(text, number, 8 * k)?;
    push_later_numbers(text, number, 8 * k + 1)?;
    text.push_str("\n")
}

/// The listing of a program that sums up 20,000 numbers and finds the greatest of them: its instructions, and 2,500
/// lines of eight numbers, the number j of which is `(number + j) * (j + 1)` in 32 bits. Err is want of memory.
pub fn load_listing(alloc: Global, number: u64) -> Result<String, OutOfMemory>
    ensures { IfOk result (λ text. string_bytes text ≡ listing number) }
{
    let mut text = String::from_str(alloc, program())?;
    'lines: for k in 0..DATA_LINES {
        push_data_line(&mut text, number, k)?;
    }
    Ok(text)
}
