// What the search answers.
use bits::Refusal;
use series::Anomaly;

// The anomaly that is found, with the trial points used.
#[derive(Clone, Copy, Debug, PartialEq)]
pub struct Found {
    pub psi: Anomaly,
    pub points: u64,
}

// A refusal, with the trial points used so far: all outward points are short, or the last point is unreadable.
#[derive(Clone, Copy, Debug, PartialEq, Eq)]
pub struct Refused {
    pub refusal: Refusal,
    pub points: u64,
}
