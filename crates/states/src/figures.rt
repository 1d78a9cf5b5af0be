// Where an anomaly comes from, what it reaches, and the answer.
use series::Anomaly;
use states_arcs::{Arc, Results};

// Where the anomaly of an interval comes from: it is searched for, or given. An enum, and no trait or closure that `reach` takes: made for each of two types,
// the way to an arc costs 1 in 20 of a propagation more, with `#[inline]` on what it calls too. And no Option: its None would not say that there is a search.
#[derive(Clone, Copy, Debug, PartialEq)]
pub enum Seeking {
    Search,
    Given(Anomaly),
}

// What is reached: the arc of the anomaly, with the trial points used.
#[derive(Clone, Copy, Debug, PartialEq)]
pub struct Reached {
    pub arc: Arc,
    pub points: u64,
}

// An answer: the trial points used, and the thirteen figures.
#[derive(Clone, Copy, Debug, PartialEq)]
pub struct Answer {
    pub points: u64,
    pub results: Results,
}
