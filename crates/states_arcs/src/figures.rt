// The quantities of an arc. Lengths are in km, times in s.
use series::{Anomaly, Coefficients, Sums};
use states_revolutions::Interval;
use states_start::{Start, State, Vector};

// f (a number), g (s), f' (1/s) and g' (a number): they take a start to its end.
#[derive(Clone, Copy, Debug, PartialEq)]
pub struct Factors {
    pub f: f64,
    pub g: f64,
    pub fprime: f64,
    pub gprime: f64,
}

// The way from a start to its end: the start, the interval, whole and as it was searched, the found anomaly with its series and its radius r (km), the factors,
// and the state at the end. The results and the partials are made of it.
#[derive(Clone, Copy, Debug, PartialEq)]
pub struct Arc {
    pub start: Start,
    pub interval: Interval,
    pub psi: Anomaly,
    pub c: Coefficients,
    pub s: Sums,
    pub r: f64,
    pub factors: Factors,
    pub end: State,
}

// The figures of an answer: thirteen doubles.
#[derive(Clone, Copy, Debug, PartialEq)]
pub struct Results {
    pub end: State,
    pub end_acceleration: Vector,
    pub start_acceleration: Vector,
    pub psi: Anomaly,
}
