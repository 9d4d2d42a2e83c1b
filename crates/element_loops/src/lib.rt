//! Loads and stores of the elements of vector registers, one after the other, by a plan: how many elements there are,
//! which lanes have them, where they are in memory, and which registers they belong to.
#![tactic(auto)]

mod access;
mod border;
mod line;
mod line_store;
mod listing;
mod loading;
mod noting;
pub mod place;
mod plan;
mod predicates;
mod repeated;
mod run;
mod run_store;
pub mod sizes;
mod storing;
mod values;

pub use access::{load, load_each, store, store_each, tests_sp};
pub use border::{joined, put_over};
pub use listing::elements;
pub use plan::{OnLanes, Places, Plan, Target};
pub use run::load_run;
pub use run_store::put_register;
