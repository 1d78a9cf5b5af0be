// The words of what the calls below answer.
ghost use Rattle.std.specs.Prelude.{◌≡◌};
ghost use Rattle.bits.specs.Refusal.{number_in as refusal_in};
ghost use Rattle.kelubashi.specs.Face.{fault_number, reading_words, sized_words, change_words};

use bits::Refusal;
use files_checks::Fault;
use files_formats::{Section, Shape};
use files_summary::Change;

// The number of a refusal, or 0 where there is none.
pub fn number_in<T: Drop>(answer: Result<T, Refusal>) -> u64
    ensures { result ≡ refusal_in answer }
{
    answer.err().map_or(0, u64::from)
}

// The same where a refusal has a place.
pub fn fault_number<T: Drop>(answer: Result<T, Fault>) -> u64
    ensures { result ≡ fault_number answer }
{
    number_in(answer.map_err(|fault| fault.refusal))
}

// The eight words of what the reader answers: number, place, then the place and the count of centres, states and requests.
#[tactic(auto, unfolding(crate::specs::Face::reading_words))]
pub fn reading_words(reading: Result<Shape, Fault>) -> [u64; 8]
    ensures { result ≡ reading_words reading }
{
    match reading {
        Ok(shape) => [
            0,
            0,
            shape.place(Section::Centres) as u64,
            shape.centres as u64,
            shape.place(Section::States) as u64,
            shape.states as u64,
            shape.place(Section::Requests) as u64,
            shape.requests as u64,
        ],
        Err(fault) => [fault.refusal.into(), fault.place as u64, 0, 0, 0, 0, 0, 0],
    }
}

// The two words of what writes to a room or a run: a number with its place, or 0 with the size of what is written.
pub fn sized_words(sized: Result<usize, Fault>) -> [u64; 2]
    ensures { result ≡ sized_words sized }
{
    match sized {
        Ok(size) => [0, size as u64],
        Err(fault) => [fault.refusal.into(), fault.place as u64],
    }
}

// The two words of a change of the states: a number with the states that were in use, or 0 with those in use afterwards.
pub fn change_words(change: Result<Change, Refusal>, count: u64) -> [u64; 2]
    ensures { result ≡ change_words count change }
{
    match change {
        Ok(change) => [0, change.count],
        Err(refusal) => [refusal.into(), count],
    }
}
