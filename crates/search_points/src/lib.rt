// Layer 3, its points: the figures of a trial point, its time error and radius, and its sort (document 01, "The search").
#![tactic(auto)]

pub mod figures;
pub mod residual;
pub mod trial;

pub use figures::{Initial, Sort, Terms, Trial};
pub use residual::radius;
pub use trial::{Passage, anomaly_at, has_sign, unevaluated_as};
