// Layer 4, whole revolutions: the period of an orbit, and an interval without the revolutions that come off before it is searched (document 02, T-04).
#![tactic(auto)]

pub mod figures;
mod floor;
mod revolutions;

pub use figures::{Interval, Revolution, WholeInterval};
pub use floor::floor_of;
pub use revolutions::{course_of, interval_of};
