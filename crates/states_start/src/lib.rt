// Layer 4, what comes in: the orbit and the whole interval of eight words, the start of an orbit, and the first step of its search (document 01, "Initial
// figures and series", up to H, and refusals 31 to 38, 3 and 4, H apart).
#![tactic(auto)]

pub mod figures;
mod given;
mod initial;

pub use figures::{Begun, Given, Orbit, Start, State, Vector};
pub use given::orbit_of;
pub use initial::{first_step, start_of};
