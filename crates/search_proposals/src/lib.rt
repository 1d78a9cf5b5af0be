// Layer 3: the three proposals for an inner point. Each gives a place, where it fits. Two of them ask for the interval alone, and take no more.
#![tactic(auto)]

ghost use Rattle.std.specs.Prelude.{◌≡◌};
ghost use Rattle.search_proposals.specs.Proposals.{inside_of, offered_at, last_tried, by_radius, by_interval, by_ends, proposed};

use bits::words::{SIGN, is_finite};
use search_points::{Passage, anomaly_at, has_sign, radius};
use search_rule::{End, Pair};
use series::Seconds;

// The place, where it lies strictly between the two ends.
fn inside(pair: Pair, place: u64) -> Option<u64>
    ensures { result ≡ inside_of pair place }
{
    if pair.short.place < place && place < pair.past.place {
        return Some(place);
    }
    None
}

// The place of x, where x is finite, has the sign of tau and lies strictly between the two ends.
#[tactic(auto, using(bits::proofs::Doubles::finite_no_nan), unfolding(crate::specs::Proposals::offered_at))]
fn offered(tau: Seconds, pair: Pair, x: f64) -> Option<u64>
    ensures { result ≡ offered_at tau pair x }
{
    if is_finite(x) {
        let word = f64::to_bits(x);
        if has_sign(tau, word) {
            return inside(pair, word % SIGN);
        }
    }
    None
}

// The end that was tried last.
fn last_tried(pair: Pair) -> End
    ensures { result ≡ last_tried pair }
{
    if pair.last_is_past {
        pair.past
    } else {
        pair.short
    }
}

// From the last tried point, by the radius there.
#[tactic(auto, unfolding(crate::specs::Proposals::by_radius))]
fn by_radius(passage: Passage, pair: Pair) -> Option<u64>
    ensures { result ≡ by_radius passage.initial passage.tau pair }
{
    let r = radius(passage.initial, pair.terms);
    if r == 0.0 {
        return None;
    }
    let last = last_tried(pair);
    let psi = anomaly_at(passage.tau, last.place);
    offered(passage.tau, pair, psi.0 - last.error / r)
}

// From the last tried point, by its share of the interval.
#[tactic(auto, unfolding(crate::specs::Proposals::by_interval))]
fn by_interval(tau: Seconds, pair: Pair) -> Option<u64>
    ensures { result ≡ by_interval tau pair }
{
    if tau.0 == 0.0 {
        return None;
    }
    let last = last_tried(pair);
    let psi = anomaly_at(tau, last.place);
    offered(tau, pair, psi.0 * (1.0 - last.error / tau.0))
}

// On the chord between the two ends.
#[tactic(auto, unfolding(crate::specs::Proposals::by_ends))]
fn by_ends(tau: Seconds, pair: Pair) -> Option<u64>
    ensures { result ≡ by_ends tau pair }
{
    let rise = pair.past.error - pair.short.error;
    if rise == 0.0 {
        return None;
    }
    let a = anomaly_at(tau, pair.short.place);
    let b = anomaly_at(tau, pair.past.place);
    offered(tau, pair, a.0 - (pair.short.error / rise) * (b.0 - a.0))
}

// The first of the three that fits.
#[tactic(auto, unfolding(crate::specs::Proposals::proposed))]
pub fn proposal(passage: Passage, pair: Pair) -> Option<u64>
    ensures { result ≡ proposed passage.initial passage.tau pair }
{
    by_radius(passage, pair)
        .or_else(|| by_interval(passage.tau, pair))
        .or_else(|| by_ends(passage.tau, pair))
}
