// Layer 1: the words of doubles, told apart by their exponent field, runs of them, and the square root.
#![tactic(auto)]

pub mod refusal;
pub mod root;
pub mod runs;
pub mod words;

pub use refusal::Refusal;
pub use runs::{Sought, are_same, copy_words, first_of, has};
