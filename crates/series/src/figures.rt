// The quantities of this layer. They stand apart from the functions because Rattle tells `coefficients` and `Coefficients` apart only by their modules.
ghost use Rattle.std.specs.Prelude.{◌≡◌};
ghost use Rattle.bits.specs.Words.{place_of};

use bits::words::place_of;

// A time in seconds (s).
#[derive(Clone, Copy, Debug, PartialEq)]
pub struct Seconds(pub f64);

// An anomaly, psi of document 01, in seconds per kilometre (s/km).
#[derive(Clone, Copy, Debug, PartialEq)]
pub struct Anomaly(pub f64);

impl Anomaly {
    // Its place: the bits of |psi| read as a whole number. An interval has none.
    pub fn place(self) -> u64
        ensures { result ≡ place_of self.0 }
    {
        place_of(self.0)
    }
}

// c0 to c5 of an anomaly, plain numbers.
#[derive(Clone, Copy, Debug, PartialEq)]
pub struct Coefficients {
    pub c0: f64,
    pub c1: f64,
    pub c2: f64,
    pub c3: f64,
    pub c4: f64,
    pub c5: f64,
}

// s1, s2 and s3 of an anomaly, in s/km and its second and third powers.
#[derive(Clone, Copy, Debug, PartialEq)]
pub struct Sums {
    pub s1: f64,
    pub s2: f64,
    pub s3: f64,
}

// c0 and the sums of an anomaly: what a trial point needs.
#[derive(Clone, Copy, Debug, PartialEq)]
pub struct FirstSums {
    pub c0: f64,
    pub sums: Sums,
}
