// One trial point: a place, its anomaly, and its sort.
ghost use Rattle.std.specs.Prelude.{◌≡◌, ◌^◌};
ghost use Rattle.std.specs.Float.Ieee.{lt};
ghost use Rattle.bits.specs.Choice.{pick};
ghost use Rattle.bits.specs.Arithmetic.{n0};
ghost use Rattle.search_points.specs.Residual.{time_error_of};
ghost use Rattle.search_points.specs.Trial.{anomaly_at, has_sign, sort_of, unevaluated, trial_of, evaluated_at, trial_at};

use super::figures::{Initial, Sort, Terms, Trial};
use bits::words::{INFINITY, SIGN, is_finite};
use series::{Anomaly, Seconds, Sums, first_sums};

// What the sign of tau adds to a word.
fn sign_of(tau: Seconds) -> u64
    ensures { result ≡ pick (lt tau.0 n0) (2 ^ 63) 0 }
{
    if tau.0 < 0.0 { SIGN } else { 0 }
}

// Whether a word has its sign bit set exactly where tau is below zero.
pub fn has_sign(tau: Seconds, word: u64) -> bool
    ensures { result ≡ has_sign tau word }
{
    if tau.0 < 0.0 {
        return SIGN <= word;
    }
    word < SIGN
}

// The anomaly at a place: it has the sign of tau.
pub fn anomaly_at(tau: Seconds, place: u64) -> Anomaly
    ensures { result ≡ anomaly_at tau place }
{
    if INFINITY <= place {
        return Anomaly(0.0 / 0.0);
    }
    Anomaly(f64::from_bits(place + sign_of(tau)))
}

// The sort of a readable place's point by its time error. Nearly every point is short or past, so that is tested first; the error of the others has no sign.
// Each sign of tau has its own two tests: told by one flag for both signs, a call takes more than 1 in 100 instructions more.
fn sort_of(tau: Seconds, error: f64) -> Sort
    ensures { result ≡ sort_of tau error }
{
    if tau.0 < 0.0 {
        if error > 0.0 {
            return Sort::Short(error);
        }
        if error < 0.0 {
            return Sort::Past(error);
        }
    } else {
        if error < 0.0 {
            return Sort::Short(error);
        }
        if error > 0.0 {
            return Sort::Past(error);
        }
    }
    if error == 0.0 {
        return Sort::Exact;
    }
    Sort::Unreadable
}

// A point that is sorted without an evaluation. Nothing asks for the radius there.
pub fn unevaluated_as(sort: Sort) -> Trial
    ensures { result ≡ unevaluated sort }
{
    Trial {
        sort,
        terms: Terms {
            c0: 0.0,
            s1: 0.0,
            s2: 0.0,
        },
    }
}

// What a search is over: the initial figures of a state, and the interval that is searched.
#[derive(Clone, Copy, Debug, PartialEq)]
pub struct Passage {
    pub initial: Initial,
    pub tau: Seconds,
}

impl Passage {
    // R, the time error (s) of the anomaly whose sums are s.
    #[tactic(auto, unfolding(crate::specs::Residual::time_error_of))]
    pub fn time_error(self, s: Sums) -> f64
        ensures { result ≡ time_error_of self.initial self.tau s }
    {
        let initial = self.initial;
        ((initial.r0 * s.s1 + initial.sigma0 * s.s2) + initial.mu * s.s3) - self.tau.0
    }

    // The point whose c0 and sums are given.
    pub fn point_of(self, c0: f64, s: Sums) -> Trial
        ensures { result ≡ trial_of self.initial self.tau c0 s }
    {
        Trial {
            sort: sort_of(self.tau, self.time_error(s)),
            terms: Terms {
                c0,
                s1: s.s1,
                s2: s.s2,
            },
        }
    }

    // The point of an anomaly, evaluated where L is finite; L is not finite where psi is not.
    #[inline(always)]
    #[tactic(auto, unfolding(crate::specs::Trial::evaluated_at))]
    fn evaluated(self, psi: Anomaly) -> Trial
        ensures { result ≡ evaluated_at self.initial self.tau psi }
    {
        let alpha = self.initial.alpha;
        if is_finite(alpha * (psi.0 * psi.0)) {
            let first = first_sums(alpha, psi);
            return self.point_of(first.c0, first.sums);
        }
        unevaluated_as(Sort::Unreadable)
    }

    // The trial point at a place. Place 0 is short, with −τ for its error. It is compiled into its callers' loops: a propagation takes a third more where each
    // point is a call of its own.
    #[inline(always)]
    #[tactic(auto, unfolding(crate::specs::Trial::trial_at))]
    pub fn try_at(self, place: u64) -> Trial
        ensures { result ≡ trial_at self.initial self.tau place }
    {
        if place == 0 {
            return unevaluated_as(Sort::Short(-self.tau.0));
        }
        if INFINITY <= place {
            return unevaluated_as(Sort::Unreadable);
        }
        self.evaluated(anomaly_at(self.tau, place))
    }
}
