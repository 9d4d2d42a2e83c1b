//! Instructions printed.
ghost use Rattle.std.specs.Prelude.{◌≡◌, ◌+◌, ◌<◌, ◌≤◌, ◌^◌, unsigned_abs, true, false, [], ◌∷◌, ◌++◌, length};
ghost use Rattle.asm_tokens.specs.Layout.{spaced};
ghost use Rattle.asm_tokens.specs.Numbers.{minus};
ghost use Rattle.std.specs.Fmt.{decimal};
ghost use Rattle.text_model.specs.Text.{item_tokens, slot_tokens, text, chosen, text_of};
ghost use Rattle.text_code.specs.Reads.{all_lines_sound};
ghost use Rattle.text_code.specs.Sound.{are_sound};
ghost use Rattle.text_code.specs.Tables.{pattern_of, pattern_at};
ghost use Rattle.text_print.specs.Edges.{edge_of, has_gap, laid_behind, last_edge, counted_tokens};
ghost use Rattle.text_print.specs.Lines.{some_lines};
ghost use Rattle.text_print.specs.Room.{is_word, room_of, slots_room, are_small, has_room, all_have_room};

use crate::edges::{Edge, edge_of, has_gap};
use crate::numerals::{decimal, hexadecimal};
use crate::spelling::spelled;
use arrayvec::ArrayString;
use text_code::{Pattern, Table, chosen, printed_item};
use text_model::{Item, Slot, Style};

/// Appends a token, and says what its edge is.
fn put_token(out: &mut ArrayString<96>, last: Edge, token: &str) -> Edge
    requires { length out.old.bytes + (1 + length token.now) ≤ 96 }
    ensures text { out.new.bytes ≡ out.old.bytes ++ spaced (has_gap last (edge_of token.now)) token.now }
    ensures edge { result ≡ edge_of token.now }
    ensures len { length out.new.bytes ≤ length out.old.bytes + (1 + length token.now) }
{
    let next = edge_of(token);
    if has_gap(last, next) {
        out.push_str(" ");
    }
    out.push_str(token);
    next
}

/// Appends the tokens of an item, and says what the edge of the last is.
#[tactic(auto, using(crate::proofs::Laid::one_more, crate::proofs::Laid::then_more))]
fn put_item(out: &mut ArrayString<96>, last: Edge, style: Style, item: Item) -> Edge
    requires room { length out.old.bytes + room_of (item_tokens style item) ≤ 96 }
    requires small { is_word style ≡ false → unsigned_abs item.value < 2 ^ 64 }
    ensures text { out.new.bytes ≡ out.old.bytes ++ laid_behind last (item_tokens style item) }
    ensures edge { result ≡ last_edge last (item_tokens style item) }
    ensures len { length out.new.bytes ≤ length out.old.bytes + room_of (item_tokens style item) }
{
    let size = item.value.unsigned_abs();
    match style {
        Style::Word => put_token(out, last, &spelled(item.class, size)),
        Style::Counted => put_counted(out, last, item.value < 0, size as u64),
        Style::Bare => put_token(out, last, &decimal(size as u64)),
        Style::Hexadecimal(_) => {
            let hash = put_token(out, last, "#");
            put_token(out, hash, &hexadecimal(size as u64))
        }
        Style::Address => put_token(out, last, &hexadecimal(size as u64)),
    }
}

/// Appends `#` and a number of this size in decimal, with its sign if it is negative.
#[tactic(auto, using(crate::proofs::Laid::one_more, crate::proofs::Laid::then_more))]
fn put_counted(out: &mut ArrayString<96>, last: Edge, negative: bool, size: u64) -> Edge
    requires { length out.old.bytes + room_of (counted_tokens negative size) ≤ 96 }
    ensures text { out.new.bytes ≡ out.old.bytes ++ laid_behind last (counted_tokens negative size) }
    ensures edge { result ≡ last_edge last (counted_tokens negative size) }
    ensures len { length out.new.bytes ≤ length out.old.bytes + room_of (counted_tokens negative size) }
{
    let hash = put_token(out, last, "#");
    if negative {
        put_negative(out, hash, size)
    } else {
        put_token(out, hash, &decimal(size))
    }
}

/// Appends `-` and a number in decimal.
#[tactic(auto, using(crate::proofs::Laid::one_more, crate::proofs::Laid::then_more))]
fn put_negative(out: &mut ArrayString<96>, last: Edge, n: u64) -> Edge
    requires { length out.old.bytes + room_of ((minus ∷ []) ∷ decimal n ∷ []) ≤ 96 }
    ensures text { out.new.bytes ≡ out.old.bytes ++ laid_behind last ((minus ∷ []) ∷ decimal n ∷ []) }
    ensures edge { result ≡ edge_of (decimal n) }
    ensures len { length out.new.bytes ≤ length out.old.bytes + room_of ((minus ∷ []) ∷ decimal n ∷ []) }
{
    let minus = put_token(out, last, "-");
    put_token(out, minus, &decimal(n))
}

/// Appends the tokens of slots that show a word at pc.
#[tactic(auto, using(crate::proofs::Laid::slots_more, crate::proofs::Bounds::slot_room, crate::proofs::Bounds::item_small))]
fn put_slots(out: &mut ArrayString<96>, last: Edge, slots: &[Slot], word: u32, pc: u64)
    requires sound { are_sound slots.now ≡ true }
    requires small { are_small slots.now ≡ true }
    requires room { length out.old.bytes + slots_room slots.now ≤ 96 }
    ensures { out.new.bytes ≡ out.old.bytes ++ laid_behind last (slot_tokens slots.now word pc) }
{
    if let Some((slot, more)) = slots.split_first() {
        let next = put_item(out, last, slot.style, printed_item(*slot, word, pc));
        put_slots(out, next, more, word, pc);
    }
}

/// Puts the text that a pattern gives of a word at pc in place of `out`.
fn print(pattern: &Pattern, word: u32, pc: u64, out: &mut ArrayString<96>)
    requires sound { are_sound (pattern_of pattern.now).slots ≡ true }
    requires room { has_room (pattern_of pattern.now) ≡ true }
    ensures { out.new.bytes ≡ text (pattern_of pattern.now) word pc }
{
    let name = pattern.name();
    let slots = pattern.slots();
    out.clear();
    out.push_str(name);
    put_slots(out, edge_of(name), &slots, word, pc);
}

/// The first pattern that shows a word, among those of so many lines of a table from one on.
fn chosen_among<T: Table>(table: &T, first: u8, count: u8, word: u32) -> Option<&'static Pattern>
    requires sound { all_lines_sound (T.lines table.now) ≡ true }
    requires some { first + count < 2 ^ 8 }
    ensures { pattern_at result ≡ chosen (some_lines first count (T.lines table.now)) word }
{
    if count == 0 {
        return None;
    }
    match chosen(table.line(first), word) {
        Some(pattern) => Some(pattern),
        None => chosen_among(table, first + 1, count - 1, word),
    }
}

/// Puts the text of a word at pc in place of `out`: that of the first pattern that shows it, among those of so many
/// lines of a table from one on. It is empty where none does.
pub fn print_word<T: Table>(
    table: &T,
    first: u8,
    count: u8,
    word: u32,
    pc: u64,
    out: &mut ArrayString<96>,
)
    requires sound { all_lines_sound (T.lines table.now) ≡ true }
    requires some { first + count < 2 ^ 8 }
    requires room { all_have_room (some_lines first count (T.lines table.now)) ≡ true }
    ensures { out.new.bytes ≡ text_of (some_lines first count (T.lines table.now)) word pc }
{
    match chosen_among(table, first, count, word) {
        Some(pattern) => print(pattern, word, pc, out),
        None => out.clear(),
    }
}
