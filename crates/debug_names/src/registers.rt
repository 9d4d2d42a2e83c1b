//! Registers and lanes by their names.
ghost use Rattle.std.specs.Prelude.{◌≡◌, ◌≤◌};
ghost use Rattle.debug_names.specs.Registers.{
  cut,
  index_by,
  lane_among,
  lane_by,
  lane_in,
  lane_numbered,
  lane_of,
  lane_sized,
  numbered_register,
  p_named,
  p_number,
  plain_name,
  register_bits,
  register_named,
  register_number,
  register_of,
  seen_parts,
  size_of_letter,
  sized,
  thing_of,
  vector_by,
  vector_named,
  vector_of,
  z_number,
};

use emu_bits::{Esize, Pred, Reg};
use line_words::number_of_word;

/// A scalar register. Register 31 of `X` and `W` is the one that reads as 0.
#[derive(Clone, Copy)]
pub enum Register {
    X(Reg),
    /// The low 32 bits.
    W(Reg),
    Sp,
    Pc,
    Nzcv,
    Tpidr,
    /// The vector length in bits.
    Vl,
}

impl Register {
    /// How many bits it has: 64 where it holds a number.
    pub fn bits(&self) -> u32
        ensures value { result ≡ register_bits self.now }
        ensures least { 1 ≤ result }
        ensures most { result ≤ 64 }
    {
        match self {
            Register::W(_) => 32,
            Register::Nzcv => 4,
            _ => 64,
        }
    }
}

/// A lane of a Z register.
#[derive(Clone, Copy)]
pub struct Lane {
    pub register: Reg,
    pub size: Esize,
    pub index: u64,
}

/// What a name names of a machine's registers. Where a vector register has no size its bytes, and of a predicate its
/// bits, are meant.
#[derive(Clone, Copy)]
pub enum Thing {
    Scalar(Register),
    Z(Reg, Option<Esize>),
    P(Pred, Option<Esize>),
    Ffr(Option<Esize>),
    OneLane(Lane),
}

/// A word cut at its first dot.
fn cut_at_dot(word: &str) -> Option<(&str, &str)>
    ensures { seen_parts result ≡ cut 46 word.now }
{
    word.split_once('.')
}

/// A word cut at its first opening bracket.
fn cut_at_bracket(word: &str) -> Option<(&str, &str)>
    ensures { seen_parts result ≡ cut 91 word.now }
{
    word.split_once('[')
}

/// A word cut at its first closing bracket.
fn cut_at_end(word: &str) -> Option<(&str, &str)>
    ensures { seen_parts result ≡ cut 93 word.now }
{
    word.split_once(']')
}

/// A name without the `$` that may stand before it.
fn plain_name(word: &str) -> &str
    ensures { result.now ≡ plain_name word.now }
{
    match word.strip_prefix("$") {
        Some(name) => name,
        None => word,
    }
}

/// The number of a register, at most 31.
fn register_number(most: u32, digits: &str) -> Option<Reg>
    requires { most ≤ 31 }
    ensures { result ≡ register_number most digits.now }
{
    match number_of_word(digits) {
        Some(k) if k <= u64::from(most) => Some(Reg::at(k as u32, 0)),
        _ => None,
    }
}

/// The number of a predicate.
fn predicate_number(digits: &str) -> Option<Pred>
    ensures { result ≡ register_number 15 digits.now }
{
    match number_of_word(digits) {
        Some(k) if k <= 15 => Some(Pred::at(k as u32, 0)),
        _ => None,
    }
}

/// Register 31 of a form.
fn zero_register() -> Reg
    ensures { result ≡ 31 }
{
    Reg::at(31, 0)
}

/// `x0` to `x30`, `w0` to `w30`.
fn numbered_register(name: &str) -> Option<Register>
    ensures { result ≡ numbered_register name.now }
{
    if let Some(digits) = name.strip_prefix("x") {
        return match register_number(30, digits) {
            Some(register) => Some(Register::X(register)),
            None => None,
        };
    }
    match name.strip_prefix("w") {
        Some(digits) => match register_number(30, digits) {
            Some(register) => Some(Register::W(register)),
            None => None,
        },
        None => None,
    }
}

/// A scalar register by its name.
fn register_named(name: &str) -> Option<Register>
    ensures { result ≡ register_named name.now }
{
    match name {
        "sp" => Some(Register::Sp),
        "pc" => Some(Register::Pc),
        "fp" => Some(Register::X(Reg::at(29, 0))),
        "lr" => Some(Register::X(Reg::at(30, 0))),
        "xzr" => Some(Register::X(zero_register())),
        "wzr" => Some(Register::W(zero_register())),
        "nzcv" => Some(Register::Nzcv),
        "tpidr" => Some(Register::Tpidr),
        "vl" => Some(Register::Vl),
        _ => numbered_register(name),
    }
}

/// The scalar register that a word names.
pub fn register_of(word: &str) -> Option<Register>
    ensures { result ≡ register_of word.now }
{
    register_named(plain_name(word))
}

/// The size of lanes that a letter names.
pub fn size_of_letter(letter: &str) -> Option<Esize>
    ensures { result ≡ size_of_letter letter.now }
{
    match letter {
        "b" => Some(Esize::B),
        "h" => Some(Esize::H),
        "s" => Some(Esize::S),
        "d" => Some(Esize::D),
        _ => None,
    }
}

/// The number of a Z register by its name.
fn z_number(name: &str) -> Option<Reg>
    ensures { result ≡ z_number name.now }
{
    match name.strip_prefix("z") {
        Some(digits) => register_number(31, digits),
        None => None,
    }
}

/// The number of a predicate by its name.
fn p_number(name: &str) -> Option<Pred>
    ensures { result ≡ p_number name.now }
{
    match name.strip_prefix("p") {
        Some(digits) => predicate_number(digits),
        None => None,
    }
}

/// A predicate by its name.
fn p_named(size: Option<Esize>, name: &str) -> Option<Thing>
    ensures { result ≡ p_named size name.now }
{
    match p_number(name) {
        Some(k) => Some(Thing::P(k, size)),
        None => None,
    }
}

/// A vector register or a predicate by its name.
fn vector_named(size: Option<Esize>, name: &str) -> Option<Thing>
    ensures { result ≡ vector_named size name.now }
{
    if name == "ffr" {
        return Some(Thing::Ffr(size));
    }
    match z_number(name) {
        Some(k) => Some(Thing::Z(k, size)),
        None => p_named(size, name),
    }
}

/// The same with lanes of a size, where there is one.
fn sized(name: &str, size: Option<Esize>) -> Option<Thing>
    ensures { result ≡ sized name.now size }
{
    match size {
        None => None,
        Some(size) => vector_named(Some(size), name),
    }
}

/// A vector register or a predicate that a word names, with the size of its lanes where it has one.
pub fn vector_of(name: &str) -> Option<Thing>
    ensures { result ≡ vector_of name.now }
{
    match cut_at_dot(name) {
        None => vector_named(None, name),
        Some((name, letter)) => sized(name, size_of_letter(letter)),
    }
}

/// The lane of a number.
fn lane_numbered(register: Reg, size: Esize, index: Option<u64>) -> Option<Lane>
    ensures { result ≡ lane_numbered register size index }
{
    match index {
        None => None,
        Some(index) => Some(Lane {
            register,
            size,
            index,
        }),
    }
}

/// The lane of a number among lanes of a size, where there is one.
fn lane_sized(register: Reg, size: Option<Esize>, index: Option<u64>) -> Option<Lane>
    ensures { result ≡ lane_sized register size index }
{
    match size {
        None => None,
        Some(size) => lane_numbered(register, size, index),
    }
}

/// The lane of a number among those of a Z register.
fn lane_among(thing: Option<Thing>, index: Option<u64>) -> Option<Lane>
    ensures { result ≡ lane_among thing index }
{
    match thing {
        None => None,
        Some(thing) => lane_in(thing, index),
    }
}

/// The same of what a word names.
fn lane_in(thing: Thing, index: Option<u64>) -> Option<Lane>
    ensures { result ≡ lane_in thing index }
{
    match thing {
        Thing::Z(register, size) => lane_sized(register, size, index),
        Thing::Scalar(_) | Thing::P(_, _) | Thing::Ffr(_) | Thing::OneLane(_) => None,
    }
}

/// The number before a closing bracket, behind which nothing stands.
fn index_of(rest: &str) -> Option<u64>
    ensures { result ≡ index_by (cut 93 rest.now) }
{
    match cut_at_end(rest) {
        Some((digits, behind)) if behind.is_empty() => number_of_word(digits),
        _ => None,
    }
}

/// The lane that a word names.
pub fn lane_of(word: &str) -> Option<Lane>
    ensures { result ≡ lane_of word.now }
{
    match cut_at_bracket(plain_name(word)) {
        None => None,
        Some((name, rest)) => lane_among(vector_of(name), index_of(rest)),
    }
}

/// What a word names of a machine's registers.
pub fn thing_of(word: &str) -> Option<Thing>
    ensures { result ≡ thing_of word.now }
{
    if let Some(lane) = lane_of(word) {
        return Some(Thing::OneLane(lane));
    }
    match register_of(word) {
        Some(register) => Some(Thing::Scalar(register)),
        None => vector_of(plain_name(word)),
    }
}
