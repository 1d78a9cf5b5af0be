// The eight words that come in: mu, x, y, z, vx, vy, vz, tau.
ghost use Rattle.std.specs.Prelude.{◌≡◌, ◌+◌, ◌<◌};
ghost use Rattle.states_start.specs.Given.{vector_at, figure_refusal, read_of};

use super::figures::{Given, Orbit, State, Vector};
use bits::words::double_of;
use bits::{Refusal, Sought};
use states_revolutions::WholeInterval;

// The vector of one of the eight words and the next two.
fn vector_at(words: [u64; 8], k: usize) -> Vector
    requires { k + 2 < 8 }
    ensures { result ≡ vector_at words k }
{
    Vector {
        x: double_of(words[k]),
        y: double_of(words[k + 1]),
        z: double_of(words[k + 2]),
    }
}

// The refusals of the eight figures, in their order: 31 of mu, 32 to 34 of x, y and z, 35 to 37 of vx, vy and vz, 38 of tau.
const FIGURES: [Refusal; 8] = [
    Refusal::MuNotFinite,
    Refusal::XNotFinite,
    Refusal::YNotFinite,
    Refusal::ZNotFinite,
    Refusal::VxNotFinite,
    Refusal::VyNotFinite,
    Refusal::VzNotFinite,
    Refusal::TauNotFinite,
];

// The refusal of a figure that is not finite, by its number among the eight, from 0.
fn figure_refusal(figure: usize) -> Refusal
    requires { figure < 8 }
    ensures { result ≡ figure_refusal figure }
{
    FIGURES[figure]
}

// The orbit and the whole interval of eight words, if all are finite; else the refusal of the first that is not.
#[tactic(auto, using(bits::proofs::RunLaws::has_one, bits::proofs::RunLaws::has_none), unfolding(crate::specs::Given::read_of))]
pub fn orbit_of(words: [u64; 8]) -> Result<Given, Refusal>
    ensures { result ≡ read_of words }
{
    let first = bits::first_of(&words, Sought::NotFinite);
    if first < 8 {
        return Err(figure_refusal(first));
    }
    let position = vector_at(words, 1);
    let velocity = vector_at(words, 4);
    let state = State { position, velocity };
    let mu = double_of(words[0]);
    let orbit = Orbit { mu, state };
    let whole = WholeInterval(double_of(words[7]));
    Ok(Given { orbit, whole })
}
