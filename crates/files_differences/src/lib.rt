// Layer 5: what a comparison says of two figures, two rows and two result files: distances in last places, and the words of each case (document 02, T-07).
#![tactic(auto)]

pub mod distance;
pub mod told;

pub use distance::distance_of;
pub use told::{
    Compared, Figure, Largest, Refused, RowKind, Side, figure_in, figure_words, largest_with,
    row_kind_of, row_kind_word, words_of,
};
