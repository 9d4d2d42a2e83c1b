//! The text of instructions as data: patterns of slots, each of which shows a field of the word as an item;
//! and the names of instructions and the slots of their texts, by their numbers.
#![tactic(auto)]

pub mod atomic_names;
pub mod classes;
mod lists;
mod name_list;
pub mod names;
pub mod shared_slots;
mod slot_list;
pub mod slot_numbers;
pub mod slots;

pub use classes::{Class, Group};
pub use lists::{name, slot};
pub use slots::{Bits, Codec, Item, Kind, Need, Parts, Refusal, Shape, Slot, Style};
