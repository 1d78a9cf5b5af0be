// A11 to A33, of which the partials are made (document 01, "Results and partials").
ghost use Rattle.std.specs.Prelude.{◌≡◌};
ghost use Rattle.bits.specs.Words.{words_of};
ghost use Rattle.states_partials.specs.Matrix.{matrix_of, matrix_divisors};

use bits::words::word_of;
use search_points::Initial;
use series::Sums;
use states_arcs::{Arc, Factors};

// A11 to A33 of document 01: A11 in 1/(km^2 s), A12 and A21 in 1/km^2, A13, A22 and A31 in s/km^2, A23 and A32 in s^2/km^2, A33 in s^3/km^2.
#[derive(Clone, Copy, Debug, PartialEq)]
pub struct Matrix {
    pub a11: f64,
    pub a12: f64,
    pub a13: f64,
    pub a21: f64,
    pub a22: f64,
    pub a23: f64,
    pub a31: f64,
    pub a32: f64,
    pub a33: f64,
}

// A11 to A33, from U.
#[tactic(auto, unfolding(crate::specs::Matrix::matrix_of))]
pub fn matrix_of(arc: Arc, u: f64) -> Matrix
    ensures { result ≡ matrix_of arc u }
{
    let Initial { mu, r0, .. } = arc.start.initial;
    let Factors {
        f,
        g,
        fprime,
        gprime,
    } = arc.factors;
    let Sums { s1, s2, .. } = arc.s;
    let c0 = arc.c.c0;
    let r = arc.r;
    let r_cubed = (r * r) * r;
    let r0_cubed = (r0 * r0) * r0;
    Matrix {
        a11: ((c0 / (r * r0) + 1.0 / (r0 * r0)) + 1.0 / (r * r)) * fprime
            - ((mu * mu) * u) / (r_cubed * r0_cubed),
        a12: (fprime * s1 + (gprime - 1.0) / r) / r,
        a13: ((gprime - 1.0) * s1) / r - (mu * u) / r_cubed,
        a21: -((fprime * s1 + (f - 1.0) / r0) / r0),
        a22: -(fprime * s2),
        a23: -((gprime - 1.0) * s2),
        a31: ((f - 1.0) * s1) / r0 - (mu * u) / r0_cubed,
        a32: (f - 1.0) * s2,
        a33: g * s2 - u,
    }
}

// The words of the divisors of A11 to A33.
pub fn matrix_divisors(r0: f64, r: f64) -> [u64; 8]
    ensures { result ≡ words_of (matrix_divisors r0 r) }
{
    let r_cubed = (r * r) * r;
    let r0_cubed = (r0 * r0) * r0;
    [
        r * r0,
        r0 * r0,
        r * r,
        r_cubed * r0_cubed,
        r,
        r_cubed,
        r0,
        r0_cubed,
    ]
    .map(word_of)
}
