// What comes in, and what is known of it before the search. Lengths are in km, times in s.
use search_points::Initial;
use states_revolutions::{Revolution, WholeInterval};
use std::ops::{Add, Div, Mul};

// A position (km), a velocity (km/s) or an acceleration (km/s^2).
#[derive(Clone, Copy, Debug, PartialEq)]
pub struct Vector {
    pub x: f64,
    pub y: f64,
    pub z: f64,
}

impl Vector {
    ghost use Rattle.std.specs.Prelude.{◌≡◌};
    ghost use Rattle.states_start.specs.Vectors.{dot};

    // The sum of the products of like components, from the left.
    #[tactic(auto, unfolding(crate::specs::Vectors::dot))]
    pub(crate) fn dot(self, other: Vector) -> f64
        ensures { result ≡ dot self other }
    {
        self.x * other.x + self.y * other.y + self.z * other.z
    }
}

impl Mul<Vector> for f64 {
    ghost use Rattle.std.specs.Prelude.{◌≡◌};
    ghost use Rattle.states_start.specs.Vectors.{times};

    type Output = Vector;

    ghost mul_gives = { λ k v product. product ≡ times k v };

    fn mul(self, v: Vector) -> Vector {
        Vector {
            x: self * v.x,
            y: self * v.y,
            z: self * v.z,
        }
    }
}

impl Add for Vector {
    ghost use Rattle.std.specs.Prelude.{◌≡◌};
    ghost use Rattle.states_start.specs.Vectors.{plus};

    type Output = Vector;

    ghost add_gives = { λ v w sum. sum ≡ plus v w };

    fn add(self, w: Vector) -> Vector {
        Vector {
            x: self.x + w.x,
            y: self.y + w.y,
            z: self.z + w.z,
        }
    }
}

impl Div<f64> for Vector {
    ghost use Rattle.std.specs.Prelude.{◌≡◌};
    ghost use Rattle.states_start.specs.Vectors.{over};

    type Output = Vector;

    ghost div_gives = { λ v k quotient. quotient ≡ over v k };

    fn div(self, k: f64) -> Vector {
        Vector {
            x: self.x / k,
            y: self.y / k,
            z: self.z / k,
        }
    }
}

// Where a body is and how it moves.
#[derive(Clone, Copy, Debug, PartialEq)]
pub struct State {
    pub position: Vector,
    pub velocity: Vector,
}

// Seven of the eight doubles that come in: mu (km^3/s^2) and the state at the start. The interval stands beside it.
#[derive(Clone, Copy, Debug, PartialEq)]
pub struct Orbit {
    pub mu: f64,
    pub state: State,
}

// What eight words hold: an orbit and the whole interval.
#[derive(Clone, Copy, Debug, PartialEq)]
pub struct Given {
    pub orbit: Orbit,
    pub whole: WholeInterval,
}

// What every interval of one orbit begins with: its state, and its initial figures, mu among them.
#[derive(Clone, Copy, Debug, PartialEq)]
pub struct Start {
    pub state: State,
    pub initial: Initial,
}

// The start of an orbit, and its course: the revolution that can come off its intervals, if there is one.
#[derive(Clone, Copy, Debug, PartialEq)]
pub struct Begun {
    pub start: Start,
    pub course: Option<Revolution>,
}
