//! Statements read by the patterns of a table.
ghost use Rattle.std.specs.Prelude.{
  ◌≡◌,
  ◌≤◌,
  ◌∷◌,
  if◌then◌else◌,
  [],
  ℕ,
  Bool,
  true,
  None,
  get_or,
  List,
  Ok,
  Err,
  IfOk,
  MatchResult,
  length,
};
ghost use Rattle.asm_tokens.specs.Tokens.{tokens};
ghost use Rattle.text_model.specs.Reading.{Pattern as TablePattern, later_refusal};
ghost use Rattle.text_model.specs.Statement.{is_address, untargeted, lowered, reads_tokens};
ghost use Rattle.text_model.specs.Writing.{flat};
ghost use Rattle.text_code.specs.Tables.{pattern_of, patterns_of};
ghost use Rattle.text_code.specs.Sound.{are_sound};
ghost use Rattle.text_code.specs.Reads.{
  with_name,
  at_spot,
  at_spots,
  are_spots,
  all_sound,
  answer_named,
  reads_named,
  read_of,
  aim_at,
  statement_of,
  IsCut,
};
ghost use Rattle.text_code.specs.Judging.{answer_to};
ghost use Rattle.text_code.specs.Places.{kept_or_zero};

use crate::filling::MOST;
use crate::groups::same_class;
use crate::judging::{answer, has_target};
use crate::operands::{items, last_label};
use crate::patterns::{Pattern, Spot};
use arrayvec::ArrayVec;
use asm_tokens::Token;
use text_model::{Class, Item, Refusal, Slot};

/// What a statement goes to: a label, by where it stands, or an address.
#[derive(Clone, Copy)]
pub enum Aim {
    Label(Token),
    Address(u64),
}

/// What a statement is read as: a word, of which the bits of a target are 0, and the target.
#[derive(Clone, Copy)]
pub struct Found {
    pub word: u32,
    pub target: Option<Aim>,
}

/// A table of patterns.
pub trait Table {
    /// The patterns of each line, and behind them those of other names.
    ghost lines: { Self → List (List TablePattern) };
    /// The words that are in the table.
    ghost in_table: { Self → ℕ → Bool };

    /// The patterns of a line; none behind the last.
    fn line(&self, number: u8) -> &'static [Pattern]
        ensures { patterns_of result.now ≡ get_or (lines self.now) number [] };

    /// Where the patterns of a name stand.
    fn spots(&self, name: &str) -> &'static [Spot]
        ensures patterns { at_spots (lines self.now) result.now ≡ with_name (lowered name.now) (flat (lines self.now)) }
        ensures within { are_spots (lines self.now) result.now ≡ true }
        ensures sound { all_sound (at_spots (lines self.now) result.now) ≡ true };

    /// Whether a word is in the table.
    fn holds(&self, word: u32) -> bool
        ensures { result ≡ in_table self.now word };
}

/// Whether an item is a number from 0 to 2^64 - 1.
fn is_address(item: Item) -> bool
    ensures { result ≡ is_address item }
{
    same_class(item.class, Class::Number)
        && !item.value.is_negative()
        && item.value.unsigned_abs() < 1 << 64
}

/// An item, or 0 in its place where it is the last one and a label or an address.
fn kept_or_zero(label: bool, is_last: bool, item: Item) -> Item
    ensures { result ≡ kept_or_zero label is_last item }
{
    if is_last && (label || is_address(item)) {
        Item {
            class: Class::Number,
            value: 0,
        }
    } else {
        item
    }
}

/// Items with 0 in place of the last one, where it is a label or an address.
fn untargeted(label: bool, items: &[Item]) -> ArrayVec<Item, MOST>
    requires { length items.now ≤ 24 }
    ensures { result.items ≡ untargeted label items.now }
{
    let mut left = items;
    let mut all = ArrayVec::new();
    while let Some((item, rest)) = left.split_first() {
        all.push(kept_or_zero(label, rest.is_empty(), *item));
        left = rest;
    }
    all
}

/// The pattern at a spot.
fn pattern_at<T: Table>(table: &T, spot: Spot) -> &'static Pattern
    requires { are_spots (T.lines table.now) (spot ∷ []) ≡ true }
    ensures { pattern_of result.now ≡ at_spot (T.lines table.now) spot }
{
    &table.line(spot.line)[usize::from(spot.place)]
}

/// The refusal that stands later.
fn later(a: Refusal, b: Refusal) -> Refusal
    ensures { result ≡ later_refusal a b }
{
    match (a, b) {
        (Refusal::UnknownName, _) => b,
        (Refusal::BadOperands, Refusal::OutOfRange) => b,
        _ => a,
    }
}

/// The word that a pattern with this base and these slots reads in items, the second ones where it has a target,
/// whatever the table says of it.
fn answer_by(
    base: u32,
    slots: &[Slot],
    aimed: bool,
    items: &[Item],
    untargeted: &[Item],
) -> Result<u32, Refusal>
    requires sound { are_sound slots.now ≡ true }
    requires few { length slots.now ≤ 24 }
    ensures { result ≡ answer_to (record { name = []; base = base; slots = slots.now })
        (if aimed then untargeted.now else items.now) }
{
    if aimed {
        answer(base, slots, untargeted)
    } else {
        answer(base, slots, items)
    }
}

/// The word that a pattern reads in items, and whether it has a target. The second items are for a pattern that has
/// one.
fn read_by<T: Table>(
    table: &T,
    pattern: &Pattern,
    items: &[Item],
    untargeted: &[Item],
) -> Result<(u32, bool), Refusal>
    requires { all_sound (pattern_of pattern.now ∷ []) ≡ true }
    ensures { read_of result ≡ answer_named (T.in_table table.now) (pattern_of pattern.now)
        (record { items = items.now; untargeted = untargeted.now }) }
{
    let slots = pattern.slots();
    let aimed = has_target(&slots);
    match answer_by(pattern.base, &slots, aimed, items, untargeted) {
        Ok(word) => {
            if table.holds(word) {
                Ok((word, aimed))
            } else {
                Err(Refusal::OutOfRange)
            }
        }
        Err(refusal) => Err(refusal),
    }
}

/// The word that the patterns at some spots read in items: that of the first which reads one, else the refusal that
/// stands last.
fn read_among<T: Table>(
    table: &T,
    spots: &[Spot],
    items: &[Item],
    untargeted: &[Item],
) -> Result<(u32, bool), Refusal>
    requires within { are_spots (T.lines table.now) spots.now ≡ true }
    requires sound { all_sound (at_spots (T.lines table.now) spots.now) ≡ true }
    ensures { read_of result ≡ reads_named (T.in_table table.now) (at_spots (T.lines table.now) spots.now)
        (record { items = items.now; untargeted = untargeted.now }) }
{
    let mut left = spots;
    let mut refusal = Refusal::UnknownName;
    while let Some((spot, more)) = left.split_first() {
        match read_by(table, pattern_at(table, *spot), items, untargeted) {
            Ok(read) => return Ok(read),
            Err(refused) => refusal = later(refusal, refused),
        }
        left = more;
    }
    Err(refusal)
}

/// What a statement goes to whose last token is this label, or whose last item is this.
fn target_at(label: Option<Token>, last: Option<Item>) -> Option<Aim>
    ensures { result ≡ aim_at label last }
{
    let item = last?;
    match label {
        Some(token) => Some(Aim::Label(token)),
        None => Some(Aim::Address((item.value.unsigned_abs() % (1 << 64)) as u64)),
    }
}

/// The same where the pattern has a target, and else nothing.
fn target_of(aimed: bool, label: Option<Token>, last: Option<Item>) -> Option<Aim>
    ensures { result ≡ (if aimed then aim_at label last else None) }
{
    if aimed { target_at(label, last) } else { None }
}

/// What the patterns of a table make of a name and what stands behind it: the word that the first of them reads, else
/// the refusal that stands last.
pub fn read<T: Table>(table: &T, name: &str, rest: &str) -> Result<Found, Refusal>
    ensures read { MatchResult result (λ f. reads_tokens (T.in_table table.now)
        (flat (T.lines table.now)) name.now (tokens rest.now) ≡ Ok (statement_of rest.now f))
        (λ e. reads_tokens (T.in_table table.now) (flat (T.lines table.now)) name.now (tokens rest.now) ≡ Err e) }
    ensures held { IfOk result (λ f. T.in_table table.now f.word ≡ true) }
    ensures label { IfOk result (λ f. IsCut rest.now f.target) }
{
    let spots = table.spots(name);
    if spots.is_empty() {
        return Err(Refusal::UnknownName);
    }
    let Some(items) = items(rest) else {
        return Err(Refusal::BadOperands);
    };
    let label = last_label(rest);
    let untargeted = untargeted(label.is_some(), &items);
    match read_among(table, spots, &items, &untargeted) {
        Ok((word, aimed)) => Ok(Found {
            word,
            target: target_of(aimed, label, items.last().copied()),
        }),
        Err(refusal) => Err(refusal),
    }
}
