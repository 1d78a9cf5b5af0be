// What a trial point is made of.
// The figures of a state that every trial point uses: mu (km^3/s^2), r0 (km), sigma0 (km^2/s) and alpha (km^2/s^2). They do not depend on the interval.
#[derive(Clone, Copy, Debug, PartialEq)]
pub struct Initial {
    pub mu: f64,
    pub r0: f64,
    pub sigma0: f64,
    pub alpha: f64,
}

// What the radius at an anomaly is made of: its c0 (a plain number), s1 (s/km) and s2 (s^2/km^2).
#[derive(Clone, Copy, Debug, PartialEq)]
pub struct Terms {
    pub c0: f64,
    pub s1: f64,
    pub s2: f64,
}

// A trial point's sort. Short and past points carry their time error R (s).
#[derive(Clone, Copy, Debug, PartialEq)]
pub enum Sort {
    Short(f64),
    Past(f64),
    Exact,
    Unreadable,
}

// What one trial point gives: its sort, and what the radius there is made of. The sort does not carry that: document 01 names what its cases carry.
#[derive(Clone, Copy, Debug, PartialEq)]
pub struct Trial {
    pub sort: Sort,
    pub terms: Terms,
}
