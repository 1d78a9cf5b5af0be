// The call without partials, and what the two calls share: refusals in order of checking, and the answer.
ghost use Rattle.std.specs.Prelude.{◌≡◌};
ghost use Rattle.states.specs.Call.{
  finder_of,
  reached_over_by,
  reached_from_by,
  reached_orbit_by,
  reached_words_by,
  propagate_of,
};
ghost use Rattle.states_revolutions.specs.Revolutions.{interval_of};

use super::figures::{Answer, Reached, Seeking};
use bits::Refusal;
use search::{Found, Refused};
use search_points::Initial;
use series::{Anomaly, Seconds};
use states_arcs::Results;
use states_revolutions::{Interval, WholeInterval};
use states_start::{Begun, Given, Start};

// A refusal, with the points used so far.
pub fn refused_with(refusal: Refusal, points: u64) -> Refused
    ensures { result ≡ record { refusal = refusal; points = points } }
{
    Refused { refusal, points }
}

// An answer that is not refused.
pub fn answered_with(points: u64, results: Results) -> Answer
    ensures { result ≡ record { points = points; results = results } }
{
    Answer { points, results }
}

// The anomaly of an interval, or that it was not found. A given one is taken as it is, without a point.
fn find(initial: Initial, tau: Seconds, h: Anomaly, seeking: Seeking) -> Result<Found, Refused>
    ensures { result ≡ finder_of seeking initial tau h }
{
    match seeking {
        Seeking::Search => search::search(initial, tau, h),
        Seeking::Given(psi) => Ok(Found { psi, points: 0 }),
    }
}

// From a start over an interval whose revolutions are off: refusal 4 by H, then refusals 5 and 6, or the arc of the anomaly.
#[tactic(auto, unfolding(crate::specs::Call::reached_over_by, crate::specs::Call::reached_found))]
fn reach_over(start: Start, interval: Interval, seeking: Seeking) -> Result<Reached, Refused>
    ensures { result ≡ reached_over_by (finder_of seeking) start interval }
{
    let initial = start.initial;
    let tau = interval.searched;
    let h = states_start::first_step(initial, tau);
    if !bits::words::is_finite(h.0) {
        return Err(refused_with(Refusal::StartNotFinite, 0));
    }
    let Found { psi, points } = find(initial, tau, h, seeking)?;
    let arc = states_arcs::arc_at(start, interval, psi);
    Ok(Reached { arc, points })
}

// From a start over a whole interval: its revolutions come off first. One batch of requests of one orbit can share its start and its course.
#[tactic(auto, unfolding(crate::specs::Call::reached_from_by))]
fn reach_from(begun: Begun, whole: WholeInterval, seeking: Seeking) -> Result<Reached, Refused>
    ensures { result ≡ reached_from_by interval_of (finder_of seeking) begun.start begun.course whole }
{
    let interval = states_revolutions::interval_of(begun.course, whole);
    reach_over(begun.start, interval, seeking)
}

// From an orbit over a whole interval: refusals 3 and 4 by the orbit, then the interval.
#[tactic(auto, unfolding(crate::specs::Call::reached_orbit_by))]
fn reach_orbit(given: Given, seeking: Seeking) -> Result<Reached, Refused>
    ensures { result ≡ reached_orbit_by interval_of (finder_of seeking) given.orbit given.whole }
{
    let begun = states_start::start_of(given.orbit).map_err(|refusal| refused_with(refusal, 0))?;
    reach_from(begun, given.whole, seeking)
}

// From the eight words: refusals 31 to 38, then the orbit.
#[tactic(auto, unfolding(crate::specs::Call::reached_words_by))]
pub fn reach(words: [u64; 8], seeking: Seeking) -> Result<Reached, Refused>
    ensures { result ≡ reached_words_by interval_of (finder_of seeking) words }
{
    let given = states_start::orbit_of(words).map_err(|refusal| refused_with(refusal, 0))?;
    reach_orbit(given, seeking)
}

// Position, velocity and accelerations of eight words; refusals 7 and 8 after those of the way to the arc.
#[tactic(auto, unfolding(crate::specs::Call::propagate_by, crate::specs::Call::ended_answer))]
pub fn propagate(words: [u64; 8]) -> Result<Answer, Refused>
    ensures { result ≡ propagate_of words }
{
    // No `?`: it copies the arc by a call of memcpy, and the library calls no function of libc but memset.
    match reach(words, Seeking::Search) {
        Ok(Reached { arc, points }) => {
            let results = states_arcs::ended(arc).map_err(|refusal| refused_with(refusal, points))?;
            Ok(answered_with(points, results))
        }
        Err(refused) => Err(refused),
    }
}
