// U, of which A11 to A33 are made: at the found anomaly, or, where whole revolutions came off, at the whole one (document 01,
// "Results and partials"; document 02, T-04).
ghost use Rattle.std.specs.Prelude.{◌≡◌};
ghost use Rattle.bits.specs.Words.{words_of};
ghost use Rattle.states_partials.specs.U.{whole_anomaly_of, whole_sums_of, sums_at_whole, u_at_found, u_at_whole, u_figures, u_of, u_refused};

use bits::Sought;
use bits::words::word_of;
use series::Anomaly;
use states_arcs::Arc;

// The whole anomaly (s/km), revolutions included. The one that was found is of type `Anomaly`: neither stands for the other.
#[derive(Clone, Copy, Debug, PartialEq)]
pub struct WholeAnomaly(pub f64);

// The whole anomaly, and s3, s4 and s5 there, in s/km and its third, fourth and fifth powers.
#[derive(Clone, Copy, Debug, PartialEq)]
pub struct WholeSums {
    pub psi: WholeAnomaly,
    pub s3: f64,
    pub s4: f64,
    pub s5: f64,
}

// The whole anomaly of an arc: the found one and n·Q.
#[tactic(auto, unfolding(crate::specs::U::whole_anomaly_of))]
fn whole_anomaly(arc: Arc, off: Anomaly) -> WholeAnomaly
    ensures { result ≡ whole_anomaly_of arc off }
{
    if arc.interval.searched.0 == 0.0 {
        return WholeAnomaly(off.0);
    }
    WholeAnomaly(arc.psi.0 + off.0)
}

// s3, s4 and s5 at the whole anomaly. s1 and s2 are those of the found one: revolutions do not change them.
#[tactic(auto, unfolding(crate::specs::U::whole_sums_of))]
fn whole_sums(arc: Arc, psi: WholeAnomaly) -> WholeSums
    ensures { result ≡ whole_sums_of arc psi }
{
    let alpha = arc.start.initial.alpha;
    let square = psi.0 * psi.0;
    let s3 = (arc.s.s1 - psi.0) / alpha;
    let s4 = (arc.s.s2 - square / 2.0) / alpha;
    let s5 = (s3 - (square * psi.0) / 6.0) / alpha;
    WholeSums { psi, s3, s4, s5 }
}

// The sums at the whole anomaly, where revolutions came off.
#[tactic(auto, unfolding(crate::specs::U::sums_at_whole))]
fn sums_at_whole(arc: Arc) -> Option<WholeSums>
    ensures { result ≡ sums_at_whole arc }
{
    let off = arc.interval.off?;
    Some(whole_sums(arc, whole_anomaly(arc, off)))
}

// U where no revolution came off.
#[tactic(auto, unfolding(crate::specs::U::u_at_found))]
fn u_at_found(arc: Arc) -> f64
    ensures { result ≡ u_at_found arc }
{
    let psi = arc.psi.0;
    arc.s.s2 * arc.interval.whole.0
        + (arc.start.initial.mu * (arc.c.c4 - 3.0 * arc.c.c5)) * ((((psi * psi) * psi) * psi) * psi)
}

// U at the whole anomaly.
#[tactic(auto, unfolding(crate::specs::U::u_at_whole))]
fn u_at_whole(arc: Arc, w: WholeSums) -> f64
    ensures { result ≡ u_at_whole arc w }
{
    arc.s.s2 * arc.interval.whole.0 + arc.start.initial.mu * (w.psi.0 * w.s4 - 3.0 * w.s5)
}

// The words of the whole anomaly, of s3, s4, s5 and of U.
fn u_figures(arc: Arc, w: WholeSums) -> [u64; 5]
    ensures { result ≡ words_of (u_figures arc w) }
{
    [w.psi.0, w.s3, w.s4, w.s5, u_at_whole(arc, w)].map(word_of)
}

// U (s^3/km^2). It takes the whole interval, whatever came off.
#[tactic(auto, unfolding(crate::specs::U::u_of))]
pub fn u_of(arc: Arc) -> f64
    ensures { result ≡ u_of arc }
{
    match sums_at_whole(arc) {
        Some(sums) => u_at_whole(arc, sums),
        None => u_at_found(arc),
    }
}

// Whether what U is made of at the whole anomaly gives refusal 8.
#[tactic(auto, unfolding(crate::specs::U::u_refused))]
pub fn u_refused(arc: Arc) -> bool
    ensures { result ≡ u_refused arc }
{
    sums_at_whole(arc).is_some_and(|sums| bits::has(&u_figures(arc, sums), Sought::NotFinite))
}
