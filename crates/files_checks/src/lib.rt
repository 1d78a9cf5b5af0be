// Layer 5: what a check of a file finds; the check of a count, of the words behind it and of the file's end.
#![tactic(auto)]

ghost use Rattle.std.specs.Prelude.{◌≡◌, ◌+◌, ◌*◌, ◌^◌, ◌<◌, ◌≤◌, length};
ghost use Rattle.files_checks.specs.Checks.{need, count_check, edition_check, filled_check, words_there, rest_check};

use bits::Refusal;
use files_words::{is_whole, word_at};

// What is wrong with a file, and at which byte. A check is Ok where it finds nothing wrong.
#[derive(Clone, Copy, Debug, PartialEq, Eq)]
pub struct Fault {
    pub refusal: Refusal,
    pub place: usize,
}

// Nothing wrong where a test holds, else this fault.
pub fn need(holds: bool, refusal: Refusal, place: usize) -> Result<(), Fault>
    ensures { result ≡ need holds refusal place }
{
    if holds {
        return Ok(());
    }
    Err(Fault { refusal, place })
}

// A file's first word is whole, and it is a known edition.
#[tactic(auto, unfolding(crate::specs::Checks::edition_check))]
pub fn check_edition(file: &[u8], known: bool) -> Result<(), Fault>
    ensures { result ≡ edition_check file.now known }
{
    need(is_whole(file, 0), Refusal::WordMissing, 0)?;
    need(known, Refusal::UnknownEdition, 0)
}

// A count, within its limit.
#[tactic(auto, unfolding(crate::specs::Checks::count_check))]
pub fn check_count(file: &[u8], place: usize, limit: u16) -> Result<(), Fault>
    ensures { result ≡ count_check file.now place limit }
{
    need(is_whole(file, place), Refusal::WordMissing, place)?;
    let count = word_at(file, place);
    need(count <= limit as u64, Refusal::TooMany, place)
}

// How many of so many words are there from a place on.
pub fn words_there(file: &[u8], place: usize, words: usize) -> usize
    ensures { result ≡ words_there file.now place words }
{
    let whole = file.len().saturating_sub(place) / 8;
    whole.min(words)
}

// So many words from a place on, of which nothing is asked, and nothing behind them: the file's length tells.
fn check_rest(file: &[u8], place: usize, words: usize) -> Result<(), Fault>
    requires { (place ≤ length file.now) × (words ≤ 2 ^ 32) }
    ensures { result ≡ rest_check file.now place words }
{
    let there = words_there(file, place, words);
    if there < words {
        return Err(Fault {
            refusal: Refusal::WordMissing,
            place: place + 8 * there,
        });
    }
    let end = place + 8 * words;
    need(file.len() <= end, Refusal::BytesLeft, end)
}

// A count within its limit, that many records of `width` words, of which nothing is asked, and nothing behind them.
#[tactic(auto, using(crate::proofs::CountedLaws::filled_is))]
pub fn check_filled(file: &[u8], place: usize, limit: u16, width: u16) -> Result<(), Fault>
    ensures { result ≡ filled_check file.now place limit width }
{
    check_count(file, place, limit)?;
    let words = word_at(file, place) as usize * width as usize;
    check_rest(file, place + 8, words)
}
