// The arc of a found anomaly, and its results.
ghost use Rattle.std.specs.Prelude.{◌≡◌};
ghost use Rattle.bits.specs.Words.{words_of};
ghost use Rattle.states_arcs.specs.Results.{factors_of, end_state_of, arc_of, acceleration_of, results_of, end_divisors, figures_of, ended_of};

use super::figures::{Arc, Factors, Results};
use bits::words::word_of;
use bits::{Refusal, Sought};
use search_points::{Initial, radius};
use series::{Anomaly, Seconds, Sums};
use states_revolutions::Interval;
use states_start::{Start, State, Vector};

// f, g, f' and g' at the anomaly whose sums are s and whose radius is r. tau is the interval that was searched.
#[tactic(auto, unfolding(crate::specs::Results::factors_of))]
fn factors_at(initial: Initial, tau: Seconds, s: Sums, r: f64) -> Factors
    ensures { result ≡ factors_of initial tau s r }
{
    Factors {
        f: 1.0 - (initial.mu * s.s2) / initial.r0,
        g: tau.0 - initial.mu * s.s3,
        fprime: -((initial.mu * s.s1) / (r * initial.r0)),
        gprime: 1.0 - (initial.mu * s.s2) / r,
    }
}

// The state to which the factors take a start.
#[tactic(auto, unfolding(crate::specs::Results::end_state_of))]
fn end_state(k: Factors, start: State) -> State
    ensures { result ≡ end_state_of k start }
{
    State {
        position: k.f * start.position + k.g * start.velocity,
        velocity: k.fprime * start.position + k.gprime * start.velocity,
    }
}

// The arc from a start over an interval, at the anomaly psi that was found. Its figures may be anything: `ended` tests them.
#[tactic(auto, unfolding(crate::specs::Results::arc_of))]
pub fn arc_at(start: Start, interval: Interval, psi: Anomaly) -> Arc
    ensures { result ≡ arc_of start interval psi }
{
    let initial = start.initial;
    let c = series::coefficients(initial.alpha, psi);
    let s = series::sums(psi, c);
    let terms = search_points::Terms {
        c0: c.c0,
        s1: s.s1,
        s2: s.s2,
    };
    let r = radius(initial, terms);
    let factors = factors_at(initial, interval.searched, s, r);
    let end = end_state(factors, start.state);
    Arc {
        start,
        interval,
        psi,
        c,
        s,
        r,
        factors,
        end,
    }
}

// The acceleration at a position, with the radius of its own time.
#[tactic(auto, unfolding(crate::specs::Results::acceleration_of))]
fn acceleration_at(mu: f64, r: f64, position: Vector) -> Vector
    ensures { result ≡ acceleration_of mu r position }
{
    (-mu * position) / ((r * r) * r)
}

// The thirteen figures of an arc.
#[tactic(auto, unfolding(crate::specs::Results::results_of))]
fn results_of(arc: Arc) -> Results
    ensures { result ≡ results_of arc }
{
    let initial = arc.start.initial;
    let end = arc.end;
    let end_acceleration = acceleration_at(initial.mu, arc.r, end.position);
    let start_acceleration = acceleration_at(initial.mu, initial.r0, arc.start.state.position);
    let psi = arc.psi;
    Results {
        end,
        end_acceleration,
        start_acceleration,
        psi,
    }
}

// The words of the divisors of f, f', g' and of the two accelerations.
fn end_divisors(r0: f64, r: f64) -> [u64; 5]
    ensures { result ≡ words_of (end_divisors r0 r) }
{
    [r0, r * r0, r, (r * r) * r, (r0 * r0) * r0].map(word_of)
}

// The words of the thirteen figures, in a row. Each by its own call: with `map`, as for the five divisors above, the proof didn't close for thirteen.
#[tactic(auto, unfolding(crate::specs::Results::figures_of))]
pub fn figures_of(results: Results) -> [u64; 13]
    ensures { result ≡ words_of (figures_of results) }
{
    [
        word_of(results.end.position.x),
        word_of(results.end.position.y),
        word_of(results.end.position.z),
        word_of(results.end.velocity.x),
        word_of(results.end.velocity.y),
        word_of(results.end.velocity.z),
        word_of(results.end_acceleration.x),
        word_of(results.end_acceleration.y),
        word_of(results.end_acceleration.z),
        word_of(results.start_acceleration.x),
        word_of(results.start_acceleration.y),
        word_of(results.start_acceleration.z),
        word_of(results.psi.0),
    ]
}

// The results of an arc: refusal 7, then refusal 8 without the partials' own part, then the thirteen figures.
#[tactic(auto, unfolding(crate::specs::Results::ended_of))]
pub fn ended(arc: Arc) -> Result<Results, Refusal>
    ensures { result ≡ ended_of arc }
{
    if !(arc.r > 0.0) {
        return Err(Refusal::RadiusNotPositive);
    }
    let divisors = end_divisors(arc.start.initial.r0, arc.r);
    if bits::has(&divisors, Sought::Zero) {
        return Err(Refusal::EndNotFinite);
    }
    let results = results_of(arc);
    let figures = figures_of(results);
    if bits::has(&figures, Sought::NotFinite) {
        return Err(Refusal::EndNotFinite);
    }
    Ok(results)
}
