// The two ends between which the anomaly lies, what a tried point makes of them, and which of them is answered. Nothing here evaluates a point.
ghost use Rattle.std.specs.Prelude.{◌≡◌};
ghost use Rattle.search_rule.specs.Rule.{is_wide, moved, outward_step, next_of, step_of};
ghost use Rattle.search_rule.specs.Nearer.{nearer_end};

use bits::words::magnitude_of;
use search_points::{Sort, Terms, Trial};
use std::ops::ControlFlow::{self, Break, Continue};

// A tried place with its time error (s).
#[derive(Clone, Copy, Debug, PartialEq)]
pub struct End {
    pub place: u64,
    pub error: f64,
}

// A short end and a past end; which of them was tried last, and what the radius there is made of.
#[derive(Clone, Copy, Debug, PartialEq)]
pub struct Pair {
    pub short: End,
    pub past: End,
    pub last_is_past: bool,
    pub terms: Terms,
}

// Where the search stands, with the points used so far. It is no Result: all four are ends of a history, and the definition `next_of` counts each alike.
#[derive(Clone, Copy, Debug, PartialEq)]
pub enum Next {
    Between(Pair, u64),
    Exact(u64, u64),
    Unreadable(u64),
    AllShort(u64),
}

impl Pair {
    // Whether the two places differ by more than 1.
    pub fn is_wide(self) -> bool
        ensures { result ≡ is_wide self }
    {
        if self.short.place < self.past.place {
            return 1 < self.past.place - self.short.place;
        }
        false
    }
}

// What a tried point gives after a short end: a short point is the next short end, any other ends what is tried; `points` counts it.
pub fn step_by(short: End, place: u64, t: Trial, points: u64) -> ControlFlow<Next, End>
    ensures { result ≡ step_of points (outward_step short place t) }
{
    match t.sort {
        Sort::Short(error) => Continue(End { place, error }),
        Sort::Past(error) => Break(Next::Between(
            Pair {
                short,
                past: End { place, error },
                last_is_past: true,
                terms: t.terms,
            },
            points,
        )),
        Sort::Exact => Break(Next::Exact(place, points)),
        Sort::Unreadable => Break(Next::Unreadable(points)),
    }
}

// A tried point replaces the end of its own sort; `points` counts it.
pub fn moved_by(pair: Pair, place: u64, t: Trial, points: u64) -> Next
    ensures { result ≡ next_of points (moved pair place t) }
{
    match step_by(pair.short, place, t, points) {
        Continue(short) => Next::Between(
            Pair {
                short,
                past: pair.past,
                last_is_past: false,
                terms: t.terms,
            },
            points,
        ),
        Break(next) => next,
    }
}

// The end whose time error has the smaller magnitude, and the short one on a tie.
#[tactic(auto, unfolding(crate::specs::Nearer::nearer_end))]
pub fn nearer_end(short: End, past: End) -> End
    ensures { result ≡ nearer_end short past }
{
    if magnitude_of(past.error) < magnitude_of(short.error) {
        return past;
    }
    short
}
