// One round inward: the proposed place, where one fits, and then the halving place. A pair that comes out of it is at most half as wide. A pair and the points
// so far stay two values, as `Next` has them.
ghost use Rattle.std.specs.Prelude.{◌≡◌, ◌<◌};
ghost use Rattle.search_points.specs.Trial.{trial_at};
ghost use Rattle.search_rule.specs.Rule.{attempt, tried_first, halving, counted};
ghost use Rattle.search_proposals.specs.Proposals.{proposed};
ghost use Rattle.search.specs.Search.{round_at};

use search_points::Passage;
use search_proposals::proposal;
use search_rule::{Next, Pair, moved_by};

// One more point is tried, and the pair moved by it. It is compiled into both of its callers: a propagation takes a third more where each point is a call.
#[inline(always)]
#[tactic(auto, unfolding(search_rule::specs::Rule::counted))]
fn tried(passage: Passage, pair: Pair, place: u64, points: u64) -> Next
    requires { points < 2000 }
    ensures { result ≡ counted points (attempt (trial_at passage.initial passage.tau) pair place) }
{
    moved_by(pair, place, passage.try_at(place), points + 1)
}

// The proposed place is tried, where one fits.
#[tactic(auto, unfolding(search_rule::specs::Rule::counted))]
fn proposed(passage: Passage, pair: Pair, points: u64) -> Next
    requires { points < 2000 }
    ensures { let place = proposed passage.initial passage.tau pair in result ≡ counted points (tried_first (trial_at passage.initial passage.tau) pair place) }
{
    match proposal(passage, pair) {
        Some(place) => tried(passage, pair, place, points),
        None => Next::Between(pair, points),
    }
}

// The halving place is tried, where the two places differ by more than 1.
#[tactic(auto, unfolding(search_rule::specs::Rule::counted, search_rule::specs::Rule::halving))]
fn halved(passage: Passage, pair: Pair, points: u64) -> Next
    requires { points < 2000 }
    ensures { result ≡ counted points (halving (trial_at passage.initial passage.tau) pair) }
{
    if !pair.is_wide() {
        return Next::Between(pair, points);
    }
    let half = (pair.past.place - pair.short.place) / 2;
    tried(passage, pair, pair.short.place + half, points)
}

// The two, one after the other.
pub fn round(passage: Passage, pair: Pair, points: u64) -> Next
    requires { points < 1000 }
    ensures { result ≡ counted points (round_at passage.initial passage.tau pair) }
{
    let first = proposed(passage, pair, points);
    match first {
        Next::Between(closer, used) => halved(passage, closer, used),
        _ => first,
    }
}
