// Layer 3, its rule: the pair of places, what a tried point makes of it, and which end is answered, over any trial points and any proposals (document 01, "The
// search"; document 02, T-01).
#![tactic(auto)]

pub mod pair;

pub use pair::{End, Next, Pair, moved_by, nearer_end, step_by};
