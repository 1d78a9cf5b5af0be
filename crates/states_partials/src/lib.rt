// Layer 4, the partials of an arc (document 01, "Results and partials", from U on, with document 02, T-04, and the partials' part of refusals 1 and 8).
#![tactic(auto)]

ghost use Rattle.std.specs.Prelude.{◌≡◌};
ghost use Rattle.states_partials.specs.Partials.{partials_refusal, lent_after};

use bits::{Refusal, Sought};
use states_arcs::Arc;

mod entries;
pub mod matrix;
pub mod u;

use entries::entries;
pub use matrix::{Matrix, matrix_divisors, matrix_of};
pub use u::{u_of, u_refused};

// Writes the words of the 36 partials of an arc to the run, or none of them. Refusal 1 where the run isn't exactly 36 long; 8 where a divisor of theirs is
// zero, or a partial or a figure that U is made of isn't finite. Partials of position by position and of velocity by velocity are numbers, of position
// by velocity in s, of velocity by position in 1/s.
#[tactic(auto, unfolding(crate::specs::Partials::partials_refusal, crate::specs::Partials::lent_after, bits::specs::Runs::copied))]
pub fn write_partials(arc: Arc, run: &mut [u64]) -> Result<(), Refusal>
    ensures refusal { result ≡ partials_refusal arc run.old }
    ensures lent { run.new ≡ lent_after arc run.old }
{
    if run.len() != 36 {
        return Err(Refusal::PartialsLength);
    }
    let divisors = matrix_divisors(arc.start.initial.r0, arc.r);
    if bits::has(&divisors, Sought::Zero) {
        return Err(Refusal::EndNotFinite);
    }
    if u_refused(arc) {
        return Err(Refusal::EndNotFinite);
    }
    let table = entries(arc);
    if bits::has(&table, Sought::NotFinite) {
        return Err(Refusal::EndNotFinite);
    }
    bits::copy_words(&table, run);
    Ok(())
}
