// Layer 4: whether a row of another station is accepted: its eight input words, its anomaly and its nine end figures, held to the
// rules without a search (document 02, T-06).
#![tactic(auto)]

ghost use Rattle.std.specs.Prelude.{◌≡◌};
ghost use Rattle.states_check.specs.Row.{ends_with, accepts_at, accepts};

use bits::Refusal;
use bits::words::double_of;
use search_check::is_right;
use series::Anomaly;
use states::{Seeking, reach};
use states_arcs::{Arc, Results, ended, figures_of};

// Whether an arc ends with these nine words, and not with refusal 7 or 8.
fn ends_with(end: Result<Results, Refusal>, nine: [u64; 9]) -> bool
    ensures { result ≡ ends_with end nine }
{
    end.is_ok_and(|results| bits::are_same(&figures_of(results)[..9], &nine))
}

// Whether the anomaly of an arc is right for the interval that is searched, and the arc ends with these nine words.
#[tactic(auto, unfolding(crate::specs::Row::accepts_at))]
fn accepts_at(arc: Arc, anomaly: u64, nine: [u64; 9]) -> bool
    ensures { result ≡ accepts_at arc anomaly nine }
{
    is_right(arc.start.initial, arc.interval.searched, anomaly) && ends_with(ended(arc), nine)
}

// Whether a row is accepted: `given` are its eight input words, `nine` its position, velocity and end acceleration. Its steps are the call's, without a search.
#[tactic(auto, unfolding(crate::specs::Row::accepts))]
pub fn accepts(given: [u64; 8], anomaly: u64, nine: [u64; 9]) -> bool
    ensures { result ≡ accepts given anomaly nine }
{
    let seeking = Seeking::Given(Anomaly(double_of(anomaly)));
    let Ok(reached) = reach(given, seeking) else {
        return false;
    };
    accepts_at(reached.arc, anomaly, nine)
}
