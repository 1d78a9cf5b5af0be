// The distance of two doubles in last places.
ghost use Rattle.std.specs.Prelude.{◌≡◌};
ghost use Rattle.files_differences.specs.Distance.{distance_of};

use bits::words::SIGN;

// How far two words are apart on the line of doubles: 1 for neighbours, and 0 for the two zeros. Without its sign bit a word is its number of steps from zero:
// on one side of zero the smaller is taken from the larger, and on two sides they are added.
pub fn distance_of(v: u64, w: u64) -> u64
    ensures { result ≡ distance_of v w }
{
    let one = v % SIGN;
    let other = w % SIGN;
    if v / SIGN == w / SIGN {
        one.abs_diff(other)
    } else {
        one + other
    }
}
