// Layer 4: the propagator's two calls, from eight words to an answer, without partials and with them (document 01, "Refusals in order of checking").
#![tactic(auto)]

mod answer;
mod call;
pub mod figures;
mod partials;

pub use answer::words_of;
pub use call::{propagate, reach};
pub use figures::{Answer, Reached, Seeking};
pub use partials::propagate_with_partials;
pub use search::Refused;
