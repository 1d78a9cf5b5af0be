// Layer 4, the way from a start to its end: the arc of a found anomaly, and its results (document 01, "Results and partials", and refusals 7 and 8).
#![tactic(auto)]

pub mod figures;
pub mod results;

pub use figures::{Arc, Factors, Results};
pub use results::{arc_at, ended, figures_of};
