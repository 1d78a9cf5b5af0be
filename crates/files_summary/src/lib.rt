// Layer 5: a summary beside the states of a run, an entry for each centre.
#![tactic(auto)]

mod changes;
mod entries;
pub mod lists;
mod pieces;
mod used;
pub mod words;

pub use changes::Change;
pub use entries::{Roster, Summary};
