// The 36 partials, row by row.
ghost use Rattle.std.specs.Prelude.{◌≡◌, ◌%◌};
ghost use Rattle.bits.specs.Words.{words_of};
ghost use Rattle.states_partials.specs.Entries.{bracket, component_of, unit_of, entry_of, entries_of};

use super::matrix::{Matrix, matrix_of};
use super::u::u_of;
use bits::words::word_of;
use states_arcs::Arc;
use states_start::Vector;

// The components of an entry: p and w of the result's position and velocity, q and u of the start's.
#[derive(Clone, Copy, Debug, PartialEq)]
struct Components {
    p: f64,
    w: f64,
    q: f64,
    u: f64,
}

// The four products of a partial, with a to d from A11 to A33.
fn products(at: Components, a: f64, b: f64, c: f64, d: f64) -> f64
    ensures { result ≡ bracket a b c d at.p at.w at.q at.u }
{
    (a * at.p * at.q + b * at.p * at.u) + (c * at.w * at.q + d * at.w * at.u)
}

// Component 0, 1 or 2 of a vector. Rows, columns and components are numbers, as document 01 counts them, and the definition `entry_of` too.
#[tactic(auto, unfolding(crate::specs::Entries::component_of))]
fn component(v: Vector, i: usize) -> f64
    ensures { result ≡ component_of v i }
{
    match i {
        0 => v.x,
        1 => v.y,
        _ => v.z,
    }
}

// I: 1 for like components, else +0.
#[tactic(auto, unfolding(crate::specs::Entries::unit_of))]
fn unit_of(i: usize, j: usize) -> f64
    ensures { result ≡ unit_of i j }
{
    if i == j { 1.0 } else { 0.0 }
}

// The partial in a row and a column, 0 to 5 each: of p, or of w, by q, or by u. Those of the velocity take the products away. p and w are the row's.
#[tactic(auto, unfolding(crate::specs::Entries::entry_of, crate::specs::Entries::partial_of, crate::specs::Entries::plus_of, crate::specs::Entries::minus_of))]
fn entry(arc: Arc, a: Matrix, row: usize, column: usize, p: f64, w: f64) -> f64
    requires { (p ≡ component_of arc.end.position (row % 3)) × (w ≡ component_of arc.end.velocity (row % 3)) }
    ensures { result ≡ entry_of arc a row column }
{
    let from = arc.start.state;
    let q = component(from.position, column % 3);
    let u = component(from.velocity, column % 3);
    let at = Components { p, w, q, u };
    let k = arc.factors;
    let unit = unit_of(row % 3, column % 3);
    match (row < 3, column < 3) {
        (true, true) => k.f * unit + products(at, a.a21, a.a22, a.a31, a.a32),
        (true, false) => k.g * unit + products(at, a.a22, a.a23, a.a32, a.a33),
        (false, true) => k.fprime * unit - products(at, a.a11, a.a12, a.a21, a.a22),
        (false, false) => k.gprime * unit - products(at, a.a12, a.a13, a.a22, a.a23),
    }
}

// The words of the 36 partials, row by row. The columns have their own loop, so that the compiler can write out a row's six
// entries: the formula of each is then known.
pub fn entries(arc: Arc) -> [u64; 36]
    ensures { result ≡ words_of (entries_of arc) }
{
    let a = matrix_of(arc, u_of(arc));
    let mut table = [0; 36];
    for row in 0..6 {
        let p = component(arc.end.position, row % 3);
        let w = component(arc.end.velocity, row % 3);
        for column in 0..6 {
            table[6 * row + column] = word_of(entry(arc, a, row, column, p, w));
        }
    }
    table
}
