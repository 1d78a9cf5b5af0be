// The floor of a double, where it is within ±2^40.
ghost use Rattle.std.specs.Prelude.{◌≡◌, true, false};
ghost use Rattle.std.specs.Float.Ieee.{lt};
ghost use Rattle.bits.specs.Arithmetic.{n0};
ghost use Rattle.states_revolutions.specs.Floor.{floor_of};

// 2^40, and the next whole number: the floor of x is within ±2^40 where -LIMIT <= x < BEYOND.
const LIMIT: f64 = 1099511627776.0;

const BEYOND: f64 = 1099511627777.0;

// The floor of a double that is not below zero, or of a NaN: its digits before the point.
fn floor_from_zero(x: f64) -> Option<f64>
    requires { lt x n0 ≡ false }
    ensures { result ≡ floor_of x }
{
    if x < BEYOND {
        let whole = std::num::truncating_f64_to_u64(x);
        return Some(whole as f64);
    }
    None
}

// The floor of a double below zero: its magnitude, rounded up, with a minus.
fn floor_below_zero(x: f64) -> Option<f64>
    requires { lt x n0 ≡ true }
    ensures { result ≡ floor_of x }
{
    let size = -x;
    if size <= LIMIT {
        let whole = std::num::truncating_f64_to_u64(size);
        if (whole as f64) < size {
            return Some(-((whole + 1) as f64));
        }
        return Some(-(whole as f64));
    }
    None
}

// The greatest whole number that is not above x, as a double, where it is within ±2^40.
pub fn floor_of(x: f64) -> Option<f64>
    ensures { result ≡ floor_of x }
{
    if x < 0.0 {
        return floor_below_zero(x);
    }
    floor_from_zero(x)
}
