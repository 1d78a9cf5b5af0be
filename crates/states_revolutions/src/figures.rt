// An interval, whole and without its whole revolutions (document 02, T-04). Times are in s, anomalies in s/km.
use series::{Anomaly, Seconds};

// The whole interval that a request asks for, revolutions included. The part of it that is searched is of type `Seconds`: neither stands for the other.
#[derive(Clone, Copy, Debug, PartialEq)]
pub struct WholeInterval(pub f64);

// One revolution of a closed orbit: P, the time that it takes, and Q, the anomaly that goes by meanwhile.
#[derive(Clone, Copy, Debug, PartialEq)]
pub struct Revolution {
    pub period: Seconds,
    pub anomaly: Anomaly,
}

// An interval: the whole of it, the part that is searched, and what came off: the anomaly n·Q of n whole revolutions, or nothing.
#[derive(Clone, Copy, Debug, PartialEq)]
pub struct Interval {
    pub whole: WholeInterval,
    pub searched: Seconds,
    pub off: Option<Anomaly>,
}
