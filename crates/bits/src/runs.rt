// Runs of words: what is sought in one, one copied into another, and two compared.
ghost use Rattle.std.specs.Prelude.{◌≡◌};
ghost use Rattle.bits.specs.Runs.{is_sought, first_of, has, copied, same_words};

use super::words::{SIGN, is_finite_word};

// What a run is looked through for: a zero, of either sign, or a double that is not finite. Not a closure: definitions and laws of runs name it, as
// `none_sought` does.
#[derive(Clone, Copy, Debug, PartialEq, Eq)]
pub enum Sought {
    Zero,
    NotFinite,
}

// Whether the double of a word is sought. No double is made of it.
fn is_sought(word: u64, sought: Sought) -> bool
    ensures { result ≡ is_sought sought word }
{
    match sought {
        Sought::Zero => word % SIGN == 0,
        Sought::NotFinite => !is_finite_word(word),
    }
}

// The number, from 0, of the first word that is sought; the length of a run that has none, and no Option: the laws `before_first` and `is_first` say it so.
pub fn first_of(words: &[u64], sought: Sought) -> usize
    ensures { result ≡ first_of sought words.now }
{
    words
        .iter()
        .position(|word| is_sought(*word, sought))
        .unwrap_or(words.len())
}

// Whether a run has a word that is sought.
#[tactic(auto, unfolding(crate::specs::Runs::has))]
pub fn has(words: &[u64], sought: Sought) -> bool
    ensures { result ≡ has sought words.now }
{
    first_of(words, sought) < words.len()
}

// Copies the words into a run of the same length; a run of another length keeps its own.
#[inline(always)]
pub fn copy_words(words: &[u64], run: &mut [u64])
    ensures { run.new ≡ copied words.now run.old }
{
    if run.len() == words.len() {
        run.copy_from_slice(words);
    }
}

// Whether two runs have the same words and the same length.
pub fn are_same(one: &[u64], other: &[u64]) -> bool
    ensures { result ≡ same_words one.now other.now }
{
    one == other
}
