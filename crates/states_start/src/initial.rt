// The start of an orbit, and the first step of its search.
ghost use Rattle.std.specs.Prelude.{◌≡◌};
ghost use Rattle.states_start.specs.Initial.{begun_of, first_step_of};

use super::figures::{Begun, Orbit, Start, State};
use bits::words::{magnitude_of, word_of};
use bits::{Refusal, Sought};
use search_points::Initial;
use series::{Anomaly, Seconds};

// 2^-20.
const FIRST_STEP: f64 = 0.00000095367431640625;

// r0 (km), sigma0 (km^2/s) and alpha (km^2/s^2) of an orbit, beside its mu and its state, and its course; refusal 3, then 4. H
// belongs to the interval: see `first_step`.
#[tactic(auto, unfolding(crate::specs::Initial::begun_of))]
pub fn start_of(orbit: Orbit) -> Result<Begun, Refusal>
    ensures { result ≡ begun_of orbit }
{
    let Orbit { mu, state } = orbit;
    let State { position, velocity } = state;
    let sum = position.dot(position);
    if sum == 0.0 {
        return Err(Refusal::AtCentre);
    }
    let r0 = bits::root::root_of_figure(sum).unwrap_or(0.0);
    let sigma0 = position.dot(velocity);
    let v2 = velocity.dot(velocity);
    let quotient = (2.0 * mu) / r0;
    let alpha = v2 - quotient;
    let words = [sum, sigma0, v2, quotient, alpha].map(word_of);
    if bits::has(&words, Sought::NotFinite) {
        return Err(Refusal::StartNotFinite);
    }
    let initial = Initial {
        mu,
        r0,
        sigma0,
        alpha,
    };
    let start = Start { state, initial };
    let course = states_revolutions::course_of(initial);
    Ok(Begun { start, course })
}

// H (s/km), an anomaly, from which the search goes outward. tau is the interval that is searched.
#[tactic(auto, unfolding(crate::specs::Initial::first_step_of))]
pub fn first_step(initial: Initial, tau: Seconds) -> Anomaly
    ensures { result ≡ first_step_of initial tau }
{
    Anomaly((magnitude_of(tau.0) / initial.r0) * FIRST_STEP)
}
