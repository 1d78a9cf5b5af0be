// The period of an orbit, and what comes off its intervals.
ghost use Rattle.std.specs.Prelude.{◌≡◌};
ghost use Rattle.states_revolutions.specs.Revolutions.{revolution_of, is_closed, is_usable, course_of, as_it_is, without_n, without_revolutions, interval_of};

use super::figures::{Interval, Revolution, WholeInterval};
use super::floor::floor_of;
use search_points::Initial;
use series::{Anomaly, Seconds};

// The double nearest to pi.
const PI: f64 = 3.141592653589793;

// P and Q, where alpha is below zero.
#[tactic(auto, unfolding(crate::specs::Revolutions::revolution_of))]
fn revolution_of(initial: Initial) -> Revolution
    ensures { result ≡ revolution_of initial }
{
    let root = bits::root::root_of_figure(-initial.alpha).unwrap_or(0.0);
    Revolution {
        period: Seconds(((2.0 * PI) * initial.mu) / ((-initial.alpha) * root)),
        anomaly: Anomaly((2.0 * PI) / root),
    }
}

// Whether an orbit closes: alpha below zero, and mu above.
#[tactic(auto, unfolding(crate::specs::Revolutions::is_closed))]
fn closes(initial: Initial) -> bool
    ensures { result ≡ is_closed initial }
{
    initial.alpha < 0.0 && initial.mu > 0.0
}

// Whether P is finite and above zero.
#[tactic(auto, unfolding(crate::specs::Revolutions::is_usable))]
fn is_usable(revolution: Revolution) -> bool
    ensures { result ≡ is_usable revolution }
{
    bits::words::is_finite(revolution.period.0) && revolution.period.0 > 0.0
}

// The course of an orbit: its revolution, where it closes and the period can be used. Else no revolution comes off an interval. It belongs to the state, not to
// an interval: many can share it.
#[tactic(auto, unfolding(crate::specs::Revolutions::course_of))]
pub fn course_of(initial: Initial) -> Option<Revolution>
    ensures { result ≡ course_of initial }
{
    closes(initial)
        .then(|| revolution_of(initial))
        .filter(|revolution| is_usable(*revolution))
}

// An interval that nothing comes off: all of it is searched.
#[tactic(auto, unfolding(crate::specs::Revolutions::as_it_is))]
fn as_it_is(whole: WholeInterval) -> Interval
    ensures { result ≡ as_it_is whole }
{
    Interval {
        whole,
        searched: Seconds(whole.0),
        off: None,
    }
}

// An interval without n revolutions.
#[tactic(auto, unfolding(crate::specs::Revolutions::without_n))]
fn without_n(n: f64, revolution: Revolution, whole: WholeInterval) -> Interval
    ensures { result ≡ without_n n revolution whole }
{
    if n == 0.0 {
        return as_it_is(whole);
    }
    Interval {
        whole,
        searched: Seconds(whole.0 - n * revolution.period.0),
        off: Some(Anomaly(n * revolution.anomaly.0)),
    }
}

// An interval without its revolutions: as many as leave the least to search, if they are within ±2^40.
#[tactic(auto, unfolding(crate::specs::Revolutions::without_revolutions))]
fn without_revolutions(revolution: Revolution, whole: WholeInterval) -> Interval
    ensures { result ≡ without_revolutions revolution whole }
{
    match floor_of(whole.0 / revolution.period.0 + 0.5) {
        Some(n) => without_n(n, revolution, whole),
        None => as_it_is(whole),
    }
}

// The interval as it is searched on a course, beside the whole of it.
#[tactic(auto, unfolding(crate::specs::Revolutions::interval_of))]
pub fn interval_of(course: Option<Revolution>, whole: WholeInterval) -> Interval
    ensures { result ≡ interval_of course whole }
{
    match course {
        Some(revolution) => without_revolutions(revolution, whole),
        None => as_it_is(whole),
    }
}
