// The entry of a centre, worked out from the states in use.
ghost use Rattle.std.specs.Prelude.{◌≡◌, ◌+◌, ◌^◌, ◌<◌};
ghost use Rattle.files_records.specs.Records.{records_of};
ghost use Rattle.files_summary.specs.Entries.{state_width, with_epoch, with_state, shown, centre_entry};

use crate::used::InUse;
use bits::words::{is_nan_word, line_of, word_on};
use files_formats::{Column, Edition, Section, column_at, width};

// The states in use of a run: their edition, how many they are, and how many centres there are.
#[derive(Clone, Copy, Debug, PartialEq, Eq)]
pub struct Roster {
    pub edition: Edition,
    pub count: u64,
    pub centres: u64,
}

// A centre's states at a glance: how many have an epoch that is a number, how many a NaN, and the words of the earliest and the latest epoch.
#[derive(Clone, Copy, Debug, PartialEq, Eq)]
pub struct Summary {
    pub states: u64,
    pub nans: u64,
    pub earliest: u64,
    pub latest: u64,
}

// What is gathered on the way: the two counts, and the earliest and the latest moment.
#[derive(Clone, Copy, Debug, PartialEq, Eq)]
pub struct Tally {
    pub states: u64,
    pub nans: u64,
    pub first: u64,
    pub last: u64,
}

// A tally with one epoch more.
fn with_epoch(tally: Tally, epoch: u64) -> Tally
    requires { (tally.states + 1 < 2 ^ 64) × (tally.nans + 1 < 2 ^ 64) }
    ensures { result ≡ with_epoch tally epoch }
{
    if is_nan_word(epoch) {
        return Tally {
            nans: tally.nans + 1,
            ..tally
        };
    }
    let place = line_of(epoch);
    Tally {
        states: tally.states + 1,
        first: tally.first.min(place),
        last: tally.last.max(place),
        ..tally
    }
}

// A tally with one state more, which counts where its centre's number is this centre's.
fn with_state(tally: Tally, centre: u64, its: u64, epoch: u64) -> Tally
    requires { (tally.states + 1 < 2 ^ 64) × (tally.nans + 1 < 2 ^ 64) }
    ensures { result ≡ with_state tally centre its epoch }
{
    if its != centre {
        return tally;
    }
    with_epoch(tally, epoch)
}

// The entry of what was gathered.
fn shown(tally: Tally) -> Summary
    ensures { result ≡ shown tally }
{
    if tally.states == 0 {
        return Summary {
            states: 0,
            nans: tally.nans,
            earliest: 0,
            latest: 0,
        };
    }
    Summary {
        states: tally.states,
        nans: tally.nans,
        earliest: word_on(tally.first),
        latest: word_on(tally.last),
    }
}

// The entry of a centre, worked out from the states in use.
pub fn entry_of(used: InUse<'_>, centre: u64) -> Summary
    ensures { result
        ≡ centre_entry used.entry.edition centre (records_of (state_width used.entry.edition) used.entry.states.now used.entry.count) }
{
    let wide = width(used.edition, Section::States);
    let its = column_at(used.edition, Column::Centre);
    let epoch = column_at(used.edition, Column::Epoch);
    let mut tally = Tally {
        states: 0,
        nans: 0,
        first: u64::MAX,
        last: 0,
    };
    for k in 0..used.count {
        let at = k * wide;
        tally = with_state(
            tally,
            centre,
            used.states[at + its],
            used.states[at + epoch],
        );
    }
    shown(tally)
}
