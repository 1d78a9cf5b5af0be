// The square root: the double nearest to the exact root, digit by digit over whole numbers.
ghost use Rattle.std.specs.Prelude.{◌≡◌, ℕ, ◌+◌, ◌-◌, ◌*◌, ◌^◌, ◌≤◌, ◌<◌};
ghost use Rattle.bits.specs.Refusal.{number_in};
ghost use Rattle.bits.specs.Words.{units};
ghost use Rattle.bits.specs.Root.{NearestRoot, RootAnswer, word_in, root_refusal, root_of, figure_in};

use super::refusal::Refusal;
use super::words::{FIELD, SIGN};

// A number above zero as `digits` times a power of two, with 53 digits. It is counted in units of 2^-1126.
#[derive(Clone, Copy)]
struct Scaled {
    digits: u64,
    power: u64,
    ghost has_53_digits: { (2 ^ 52 ≤ «digits») × («digits» < 2 ^ 53) },
    ghost in_range: { power ≤ 2097 },
}

// What is known of the root of m * 2^54 by its first digits: `twice` is twice the root so far, q, and what q^2 leaves of m * 2^54 is `left` times the next
// digit's weight.
#[derive(Clone, Copy)]
struct Known {
    left: u64,
    twice: u64,
}

// A step: to add `digit`, a weight, to q takes (2 q + digit) * digit, which is `take` in the unit of `left`. Where that much is left, the digit is 1.
fn next_digit(known: Known, digit: u64) -> Known
    requires { (known.left < 2 ^ 63) × (known.twice + 2 * digit < 2 ^ 64) }
    ensures set { known.twice + digit ≤ known.left →
        (result.left ≡ (known.left - (known.twice + digit)) * 2) × (result.twice ≡ known.twice + digit + digit) }
    ensures clear { known.left < known.twice + digit → (result.left ≡ known.left * 2) × (result.twice ≡ known.twice) }
{
    let take = known.twice + digit;
    if take <= known.left {
        return Known {
            left: (known.left - take) * 2,
            twice: take + digit,
        };
    }
    Known {
        left: known.left * 2,
        twice: known.twice,
    }
}

// The root of m * 2^54 rounded down, one binary digit per step. The first digit that can be 1 has weight 2^53; since 2^52 <= m, it is 1, and needs no step. 53
// steps find the digits after it: one, and then, for speed, 13 turns of four, of weights 8 * `digit` to `digit`.
fn root_digits(m: u64) -> u64
    requires { (2 ^ 52 ≤ m) × (m < 2 ^ 54) }
    ensures { (result * result ≤ m * 2 ^ 54) × (m * 2 ^ 54 < (result + 1) * (result + 1)) }
{
    let first = Known {
        left: (m - FIELD) * 4,
        twice: FIELD * 4,
    };
    let mut known = next_digit(first, FIELD);
    let mut digit = FIELD / 16;
    // Not a `for`: it counts its turns besides, and a root takes 3 in 100 more instructions.
    while 0 < digit {
        known = next_digit(known, 8 * digit);
        known = next_digit(known, 4 * digit);
        known = next_digit(known, 2 * digit);
        known = next_digit(known, digit);
        digit /= 16;
    }
    known.twice / 2
}

// A subnormal's digits moved up by their leading zeros less 11, to 53 digits, so that the root's first digit has the same weight for every number; and the
// power of two that makes up for it: together they are digits * 2^52.
fn normalised(digits: u64) -> Scaled
    requires { (0 < digits) × (digits < 2 ^ 52) }
    ensures { result.«digits» * 2 ^ result.power ≡ digits * 2 ^ 52 }
{
    let up = digits.leading_zeros() as u64 - 11;
    Scaled {
        digits: digits << up,
        power: 52 - up,
    }
}

// The word of the root of a double that is m * 2^e. The 54 digits of the root of m, or of 2 m where e is odd, are halved and rounded up where the last is 1;
// the first of the 53 that are left counts as 1 in the exponent field.
fn packed_root(number: Scaled) -> u64
    ensures { (b : ℕ) → units b * 2 ^ 52 ≡ number.«digits» * 2 ^ number.power → NearestRoot b result }
{
    let Scaled {
        digits: m,
        power: e,
    } = number;
    let q = root_digits(m * (1 + e % 2));
    (e / 2 + 485) * FIELD + (q + 1) / 2
}

// The root of the double of a word, as a word. Compiled into its callers: as a call of its own its Result comes back through memory, at 12 instructions a root.
#[inline(always)]
pub fn root_of(word: u64) -> Result<u64, Refusal>
    ensures { RootAnswer word (number_in result) (word_in result) }
{
    let field = word % SIGN / FIELD;
    let digits = word % FIELD;
    match field {
        0 => {
            if digits == 0 {
                return Ok(0);
            }
            if SIGN <= word {
                return Err(Refusal::NoRoot);
            }
            Ok(packed_root(normalised(digits)))
        }
        1..=2046 => {
            if SIGN <= word {
                return Err(Refusal::NoRoot);
            }
            Ok(packed_root(Scaled {
                digits: digits + FIELD,
                power: field + 51,
            }))
        }
        2047.. => Err(Refusal::NoRoot),
    }
}

// The root of a double as a number.
pub fn root_of_figure(x: f64) -> Result<f64, Refusal>
    ensures refusal { number_in result ≡ root_refusal x }
    ensures figure { figure_in result ≡ root_of x }
{
    if x.is_nan() {
        return Err(Refusal::NoRoot);
    }
    let root = root_of(x.to_bits())?;
    Ok(f64::from_bits(root))
}
