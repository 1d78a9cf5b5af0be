// The radius at an anomaly.
ghost use Rattle.std.specs.Prelude.{◌≡◌};
ghost use Rattle.search_points.specs.Residual.{radius_of};

use super::figures::{Initial, Terms};

// r, the radius (km) at the anomaly whose c0, s1 and s2 are t.
#[tactic(auto, unfolding(crate::specs::Residual::radius_of))]
pub fn radius(initial: Initial, t: Terms) -> f64
    ensures { result ≡ radius_of initial t }
{
    (initial.r0 * t.c0 + initial.sigma0 * t.s1) + initial.mu * t.s2
}
