// Layer 2: the coefficients and sums of an anomaly (document 01, "Initial figures and series").
// alpha is in km^2/s^2 and psi in s/km, so L and c0 to c5 are plain numbers.
#![tactic(auto)]

ghost use Rattle.std.specs.Prelude.{◌≡◌, fold, reverse};
ghost use Rattle.bits.specs.Arithmetic.{n1, ◌⊕◌, ◌⊗◌, ◌⊘◌};
ghost use Rattle.series.specs.Series.{
  first_l,
  beyond_one,
  reduced,
  c4_of,
  c5_of,
  at_reduced,
  doublings,
  quotients_of,
  coefficients_from,
  coefficients_of,
  sums_of,
};

pub mod figures;

pub use figures::{Anomaly, Coefficients, FirstSums, Seconds, Sums};

// L after its divisions by 4, and how many there were.
#[derive(Clone, Copy)]
struct Reduced {
    l: f64,
    m: u64,
}

// The two coefficients that the doublings change.
#[derive(Clone, Copy)]
struct FirstTwo {
    c0: f64,
    c1: f64,
}

// c0 to c5 of the anomaly psi, bit for bit as document 01 rounds them. Where alpha·(psi·psi) is not finite they mean nothing: a caller tests it.
// It and `restored` are compiled into their callers: a trial point takes 15 instructions more where they are calls of their own.
#[inline(always)]
pub fn coefficients(alpha: f64, psi: Anomaly) -> Coefficients
    ensures { result ≡ coefficients_of alpha psi }
{
    let l = first_l(alpha, psi);
    let reduced = reduce(l);
    restored(l, reduced)
}

// c0 and the sums of the anomaly psi: all that a trial point needs. Compiled into it: a propagation takes a third more where this is a call of its own.
#[inline(always)]
pub fn first_sums(alpha: f64, psi: Anomaly) -> FirstSums
    ensures { result ≡ record { c0 = (coefficients_of alpha psi).c0; sums = sums_of psi (coefficients_of alpha psi) } }
{
    let c = coefficients(alpha, psi);
    FirstSums {
        c0: c.c0,
        sums: sums(psi, c),
    }
}

// s1, s2 and s3 of the anomaly psi whose coefficients are c.
pub fn sums(psi: Anomaly, c: Coefficients) -> Sums
    ensures { result ≡ sums_of psi c }
{
    let square = psi.0 * psi.0;
    Sums {
        s1: psi.0 * c.c1,
        s2: square * c.c2,
        s3: (square * psi.0) * c.c3,
    }
}

// L, before its divisions.
fn first_l(alpha: f64, psi: Anomaly) -> f64
    ensures { result ≡ first_l alpha psi }
{
    alpha * (psi.0 * psi.0)
}

// Whether |l| > 1; false for a NaN.
fn beyond_one(l: f64) -> bool
    ensures { result ≡ beyond_one l }
{
    // Not `l.abs() > 1.0`: it takes 1 to 4 instructions more a division.
    l > 1.0 || l < -1.0
}

// L divided by 4 while |L| > 1, at most 512 times. No finite L needs more (the law `enough`); an infinite one stops there.
fn reduce(mut l: f64) -> Reduced
    ensures { result ≡ reduced l }
{
    for m in 0..512 {
        if !beyond_one(l) {
            return Reduced { l, m };
        }
        l /= 4.0;
    }
    Reduced { l, m: 512 }
}

// The divisors of c4 and those of c5, in document 01's order.
const DIVISORS_OF_C4: [f64; 8] = [30.0, 56.0, 90.0, 132.0, 182.0, 240.0, 306.0, 380.0];

const DIVISORS_OF_C5: [f64; 8] = [42.0, 72.0, 110.0, 156.0, 210.0, 272.0, 342.0, 420.0];

// p of a reduced L: from 1, by each divisor from the last to the first.
fn nested(l: f64, divisors: [f64; 8]) -> f64
    ensures { result ≡ fold (λ p d. n1 ⊕ (l ⊗ p) ⊘ d) n1 (reverse divisors) }
{
    divisors.iter().rev().fold(1.0, |p, d| 1.0 + (l * p) / *d)
}

// c4 at a reduced L.
fn c4_of(l: f64) -> f64
    ensures { result ≡ c4_of l }
{
    nested(l, DIVISORS_OF_C4) / 24.0
}

// c5 at a reduced L.
fn c5_of(l: f64) -> f64
    ensures { result ≡ c5_of l }
{
    nested(l, DIVISORS_OF_C5) / 120.0
}

// All six at a reduced L.
fn at_reduced(l: f64) -> Coefficients
    ensures { result ≡ at_reduced l }
{
    let c4 = c4_of(l);
    let c5 = c5_of(l);
    let c3 = 1.0 / 6.0 + l * c5;
    let c2 = 0.5 + l * c4;
    let c1 = 1.0 + l * c3;
    let c0 = 1.0 + l * c2;
    Coefficients {
        c0,
        c1,
        c2,
        c3,
        c4,
        c5,
    }
}

// All six of the first L, from L after its divisions.
#[inline(always)]
fn restored(l: f64, reduced: Reduced) -> Coefficients
    ensures { result ≡ coefficients_from l reduced }
{
    let six = at_reduced(reduced.l);
    if reduced.m == 0 {
        return six;
    }
    quotients(l, double(reduced.m, six.c0, six.c1))
}

// c0 and c1 after m doublings. c1 goes first: it takes the old c0.
fn double(m: u64, mut c0: f64, mut c1: f64) -> FirstTwo
    ensures { result ≡ doublings m c0 c1 }
{
    for _ in 0..m {
        c1 = c0 * c1;
        c0 = 2.0 * (c0 * c0) - 1.0;
    }
    FirstTwo { c0, c1 }
}

// All six of the first L, from its doubled c0 and c1.
fn quotients(l: f64, two: FirstTwo) -> Coefficients
    ensures { result ≡ quotients_of l two }
{
    let c2 = (two.c0 - 1.0) / l;
    let c3 = (two.c1 - 1.0) / l;
    let c4 = (c2 - 0.5) / l;
    let c5 = (c3 - 1.0 / 6.0) / l;
    Coefficients {
        c0: two.c0,
        c1: two.c1,
        c2,
        c3,
        c4,
        c5,
    }
}
