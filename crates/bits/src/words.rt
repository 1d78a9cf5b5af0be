// A double crosses every border of this project as its 64-bit word: a sign bit, 11 bits of exponent field, 52 digits. Some functions here are a call of the
// library each, and stand for their promises: in terms of the definitions, for doubles of any bits, and with one answer.
ghost use Rattle.std.specs.Prelude.{◌≡◌};
ghost use Rattle.std.specs.Float.{binary64};
ghost use Rattle.std.specs.Float.Ieee.{of_bits, to_bits};
ghost use Rattle.bits.specs.Arithmetic.{is_finite, magnitude};
ghost use Rattle.bits.specs.Words.{kind_of, place_of};
ghost use Rattle.bits.specs.Line.{is_nan_word, line_of, word_on};

use std::num::{f64_from_bits_with_nan, f64_to_bits_with_nan};

// The weight of a word's sign bit.
pub const SIGN: u64 = 0x8000_0000_0000_0000;
// The weight of the exponent field's lowest bit: one more than the largest number that the 52 digits hold.
pub const FIELD: u64 = 0x0010_0000_0000_0000;
// The word of plus infinity: with the sign bit taken off, only the words of NaNs are above it.
pub const INFINITY: u64 = 0x7ff0_0000_0000_0000;

// What the exponent field says of a double.
#[derive(Clone, Copy, Debug, PartialEq, Eq)]
pub enum Kind {
    ZeroOrSubnormal,
    Normal,
    NotFinite,
}

// What the double of a word is, by its exponent field.
pub fn kind_of(word: u64) -> Kind
    ensures { result ≡ kind_of word }
{
    let field = word % SIGN / FIELD;
    match field {
        0 => Kind::ZeroOrSubnormal,
        1..=2046 => Kind::Normal,
        2047.. => Kind::NotFinite,
    }
}

// Whether the double of a word is finite, by its exponent field: no double is made of it.
pub fn is_finite_word(word: u64) -> bool
    ensures { result ≡ is_finite (of_bits binary64 word) }
{
    kind_of(word) != Kind::NotFinite
}

// The double of any word; every NaN is one value.
pub fn double_of(word: u64) -> f64
    ensures { result ≡ of_bits binary64 word }
{
    f64_from_bits_with_nan(word)
}

// Whether a double is neither a NaN nor an infinity.
pub fn is_finite(x: f64) -> bool
    ensures { result ≡ is_finite x }
{
    x.is_finite()
}

// The word of a double. Every NaN is one value, and gets one NaN's word.
pub fn word_of(x: f64) -> u64
    ensures { result ≡ to_bits binary64 x }
{
    f64_to_bits_with_nan(x)
}

// The place of |x|: its bits as a whole number. The place of a NaN is no number's.
pub fn place_of(x: f64) -> u64
    ensures { result ≡ place_of x }
{
    word_of(x) % SIGN
}

// |x|: the sign bit cleared.
pub fn magnitude_of(x: f64) -> f64
    ensures { result ≡ magnitude x }
{
    x.abs()
}

// Whether a word is a NaN's. No double is made of it.
pub fn is_nan_word(word: u64) -> bool
    ensures { result ≡ is_nan_word word }
{
    word % SIGN > INFINITY
}

// The place of a word on the line of doubles: both zeros have the one in the middle.
pub fn line_of(word: u64) -> u64
    ensures { result ≡ line_of word }
{
    if word < SIGN {
        SIGN + word
    } else {
        SIGN - (word - SIGN)
    }
}

// The word at a place on the line of doubles: +0 in the middle. The remainder serves place 0 alone, which no word has.
pub fn word_on(place: u64) -> u64
    ensures { result ≡ word_on place }
{
    if place < SIGN {
        SIGN + (SIGN - place) % SIGN
    } else {
        place - SIGN
    }
}
