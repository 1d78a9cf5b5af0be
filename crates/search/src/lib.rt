// Layer 3: the anomaly search (document 01, "The search"; document 02, T-01), by its rule (`search_rule`) at its points
// (`search_points`) and its proposals (`search_proposals`).
#![tactic(auto)]

ghost use Rattle.std.specs.Prelude.{◌≡◌, ◌<◌, ◌^◌};
ghost use Rattle.search_rule.specs.Rule.{counted};
ghost use Rattle.search.specs.Search.{outward_at, inward_at, finding_of, search_of};

use bits::Refusal;
use bits::words::FIELD;
use search_points::{Initial, Passage, anomaly_at};
use search_rule::{End, Next, Pair, nearer_end, step_by};
use series::{Anomaly, Seconds};
use std::ops::ControlFlow::{Break, Continue};

pub mod figures;
mod rounds;

pub use figures::{Found, Refused};

// The anomaly of the interval tau, with the trial points used, searched outward from the place of |h|, H of document 01.
pub fn search(initial: Initial, tau: Seconds, h: Anomaly) -> Result<Found, Refused>
    ensures { result ≡ search_of initial tau h }
{
    if tau.0 == 0.0 {
        return Ok(Found {
            psi: Anomaly(0.0),
            points: 0,
        });
    }
    let passage = Passage { initial, tau };
    let next = outward(passage, h.place());
    match next {
        Next::Between(pair, points) => finding_of(tau, inward(passage, pair, points)),
        _ => finding_of(tau, next),
    }
}

// Outward: the 41 places from the first on, a doubling apart, tried in order until one isn't short. Place 0 is short, with −τ for its error.
// No `?` after a step: what it breaks with is the answer itself, and 41 short points are an end like the others.
fn outward(passage: Passage, first: u64) -> Next
    requires { first < 2 ^ 63 }
    ensures { result ≡ counted 0 (outward_at passage.initial passage.tau first) }
{
    let mut short = End {
        place: 0,
        error: -passage.tau.0,
    };
    for k in 0..41 {
        let place = first + k * FIELD;
        let step = step_by(short, place, passage.try_at(place), k + 1);
        match step {
            Continue(end) => {
                short = end;
            }
            Break(next) => {
                return next;
            }
        }
    }
    Next::AllShort(41)
}

// Inward: at most 63 rounds, while the two places differ by more than 1.
fn inward(passage: Passage, start: Pair, used: u64) -> Next
    requires { used < 100 }
    ensures { result ≡ counted used (inward_at passage.initial passage.tau start) }
{
    let mut pair = start;
    let mut points = used;
    for _ in 0..63u64 {
        if !pair.is_wide() {
            return Next::Between(pair, points);
        }
        let next = rounds::round(passage, pair, points);
        match next {
            Next::Between(closer, used) => {
                pair = closer;
                points = used;
            }
            _ => {
                return next;
            }
        }
    }
    Next::Between(pair, points)
}

// The found anomaly is the exact point, or the nearer end of the pair.
fn finding_of(tau: Seconds, next: Next) -> Result<Found, Refused>
    ensures { result ≡ finding_of tau next }
{
    match next {
        Next::Between(pair, points) => {
            let end = nearer_end(pair.short, pair.past);
            Ok(Found {
                psi: anomaly_at(tau, end.place),
                points,
            })
        }
        Next::Exact(place, points) => Ok(Found {
            psi: anomaly_at(tau, place),
            points,
        }),
        Next::Unreadable(points) => Err(Refused {
            refusal: Refusal::Unreadable,
            points,
        }),
        Next::AllShort(points) => Err(Refused {
            refusal: Refusal::AllShort,
            points,
        }),
    }
}
