// Layer 3: whether a proposed anomaly is one that a search may answer, told by at most two trial points and without a search (document 02, T-06).
#![tactic(auto)]

ghost use Rattle.std.specs.Prelude.{◌≡◌, ◌^◌, ◌<◌};
ghost use Rattle.search_points.specs.Trial.{trial_at};
ghost use Rattle.search_check.specs.Passing.{picks, short_passes, past_passes, passes};
ghost use Rattle.search_check.specs.Right.{is_right_beyond_zero, is_right};

use bits::words::SIGN;
use search_points::{Initial, Passage, Sort, has_sign};
use search_rule::{End, nearer_end};
use series::Seconds;

// Whether the nearer of two ends stands at this place.
#[tactic(auto, unfolding(crate::specs::Passing::picks))]
fn is_picked(short: End, past: End, place: u64) -> bool
    ensures { result ≡ picks short past place }
{
    nearer_end(short, past).place == place
}

// Whether a short end passes: its neighbour one place out has to be past, and the short end the nearer of the two.
#[tactic(auto, unfolding(crate::specs::Passing::short_passes))]
fn short_passes(passage: Passage, short: End) -> bool
    requires { short.place < 2 ^ 63 }
    ensures { result ≡ short_passes (trial_at passage.initial passage.tau) short }
{
    let place = short.place + 1;
    match passage.try_at(place).sort {
        Sort::Past(error) => is_picked(short, End { place, error }, short.place),
        Sort::Short(_) | Sort::Exact | Sort::Unreadable => false,
    }
}

// Whether a past end passes: its neighbour one place in has to be short, and the past end the nearer of the two.
// It is no instance of the one above: the sort that is asked for, the side and the order of the two ends are all others, so little would be shared.
#[tactic(auto, unfolding(crate::specs::Passing::past_passes))]
fn past_passes(passage: Passage, past: End) -> bool
    requires { 0 < past.place }
    ensures { result ≡ past_passes (trial_at passage.initial passage.tau) past }
{
    let place = past.place - 1;
    match passage.try_at(place).sort {
        Sort::Short(error) => is_picked(End { place, error }, past, past.place),
        Sort::Past(_) | Sort::Exact | Sort::Unreadable => false,
    }
}

// Whether a place is an anomaly's: exact, or the nearer end of an adjacent short and past pair.
fn is_anomaly(passage: Passage, place: u64) -> bool
    ensures { result ≡ passes (trial_at passage.initial passage.tau) place }
{
    match passage.try_at(place).sort {
        Sort::Exact => true,
        Sort::Short(error) => short_passes(passage, End { place, error }),
        Sort::Past(error) => past_passes(passage, End { place, error }),
        Sort::Unreadable => false,
    }
}

// Whether a word has the sign of tau and its place is an anomaly's, for a tau that is not zero.
#[tactic(auto, unfolding(crate::specs::Right::has_sign_of, crate::specs::Right::is_right_beyond_zero))]
fn is_right_beyond_zero(passage: Passage, word: u64) -> bool
    ensures { result ≡ is_right_beyond_zero passage.initial passage.tau word }
{
    has_sign(passage.tau, word) && is_anomaly(passage, word % SIGN)
}

// Whether the anomaly of a word is right for tau, the interval that is searched: +0 where tau is zero, else one that a search may answer.
#[tactic(auto, unfolding(crate::specs::Right::is_right))]
pub fn is_right(initial: Initial, tau: Seconds, word: u64) -> bool
    ensures { result ≡ is_right initial tau word }
{
    if tau.0 == 0.0 {
        return word == 0;
    }
    is_right_beyond_zero(Passage { initial, tau }, word)
}
