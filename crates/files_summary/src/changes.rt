// A state appended to a run, or withdrawn from it, and the entry of its centre brought up to date, in a list of either kind. What is known of a list stays
// apart as plain numbers, `each` and `long`, and as `listed`: the definitions take it so, and so it is one way for both kinds.
ghost use Rattle.std.specs.Prelude.{◌≡◌, suc, ◌*◌, ◌≤◌, length};
ghost use Rattle.files_summary.specs.Entries.{state_width, centre_of};
ghost use Rattle.files_summary.specs.Changes.{refuse, one_each, lent_refusal, append_refusal, withdraw_refusal, state_at, changed};
ghost use Rattle.files_summary.specs.Changes.{append, withdraw, change_beside, run_beside, settled_by};

use crate::entries::{Roster, Summary, entry_of};
use crate::pieces::Piece;
use crate::used::InUse;
use bits::Refusal;
use files_formats::{Column, Edition, Section, column_at, limit, width};
use files_records::{move_down, put_record};

// A change that is made: the states in use afterwards, and the number and the entry of the centre that changed.
#[derive(Clone, Copy, Debug, PartialEq, Eq)]
pub struct Change {
    pub count: u64,
    pub at: usize,
    pub entry: Summary,
}

// A refusal where a test fails.
fn refuse(holds: bool, refusal: Refusal) -> Result<(), Refusal>
    ensures { result ≡ refuse holds refusal }
{
    if holds { Ok(()) } else { Err(refusal) }
}

// Whether a list of so many words, or structs, has one entry for each centre; an entry is so many of them.
pub fn one_each(each: usize, long: usize, centres: u64) -> bool
    ensures { result ≡ one_each each long centres }
{
    centres.checked_mul(each as u64) == Some(long as u64)
}

// 27, then 41: by the words of the run, the count of states, and whether the list has one entry for each centre.
pub fn lent_refusal(words: usize, roster: Roster, listed: bool) -> Result<(), Refusal>
    ensures { result ≡ lent_refusal words roster listed }
{
    let most = limit(Section::States);
    let whole = words == most as usize * width(roster.edition, Section::States);
    refuse(whole, Refusal::NotWholeRecords)?;
    refuse(roster.count <= most as u64, Refusal::NotWholeRecords)?;
    refuse(listed, Refusal::NotOneEach)
}

// 27, 41, 24, 42: of a state to append.
#[tactic(auto, unfolding(crate::specs::Changes::append_refusal))]
fn append_refusal(state: &[u64], words: usize, roster: Roster, listed: bool) -> Result<(), Refusal>
    ensures { result ≡ append_refusal state.now words roster listed }
{
    let one_record = state.len() == width(roster.edition, Section::States);
    refuse(one_record, Refusal::NotWholeRecords)?;
    lent_refusal(words, roster, listed)?;
    let centre = state[column_at(roster.edition, Column::Centre)];
    refuse(centre < roster.centres, Refusal::NoSuchRecord)?;
    let has_room = roster.count < limit(Section::States) as u64;
    refuse(has_room, Refusal::StatesInUse)
}

// The number of a state's centre.
fn centre_at(states: &[u64], edition: Edition, which: usize) -> u64
    requires { suc which * state_width edition ≤ length states.now }
    ensures { result ≡ centre_of edition (state_at edition states.now which) }
{
    states[which * width(edition, Section::States) + column_at(edition, Column::Centre)]
}

// 27, 41, then 42 where the state to withdraw is not there, and 24 where its centre is not.
#[tactic(auto, unfolding(crate::specs::Changes::withdraw_refusal))]
fn withdraw_refusal(which: u64, states: &[u64], roster: Roster, listed: bool) -> Result<(), Refusal>
    ensures { result ≡ withdraw_refusal which states.now roster listed }
{
    lent_refusal(states.len(), roster, listed)?;
    refuse(which < roster.count, Refusal::StatesInUse)?;
    let centre = centre_at(states, roster.edition, which as usize);
    refuse(centre < roster.centres, Refusal::NoSuchRecord)
}

// A change that is made, by the states that are in use afterwards.
fn changed(used: InUse<'_>, centre: u64) -> Change
    ensures { result ≡ changed used.entry.edition used.entry.states.now used.entry.count centre }
{
    Change {
        count: used.count as u64,
        at: centre as usize,
        entry: entry_of(used, centre),
    }
}

// A state appended, beside a list of so many words, or structs, and so many of them to an entry.
fn append_state(
    state: &[u64],
    states: &mut [u64],
    roster: Roster,
    each: usize,
    long: usize,
) -> Result<Change, Refusal>
    ensures change { result ≡ change_beside each long (append state.now) states.old roster }
    ensures states { states.new ≡ run_beside each long (append state.now) states.old roster }
{
    let listed = one_each(each, long, roster.centres);
    append_refusal(state, states.len(), roster, listed)?;
    let edition = roster.edition;
    let wide = width(edition, Section::States);
    put_record(states, wide, roster.count as usize, state);
    let centre = state[column_at(edition, Column::Centre)];
    let count = roster.count as usize + 1;
    Ok(changed(
        InUse {
            states,
            edition,
            count,
        },
        centre,
    ))
}

// A state withdrawn, beside such a list.
fn withdraw_state(
    which: u64,
    states: &mut [u64],
    roster: Roster,
    each: usize,
    long: usize,
) -> Result<Change, Refusal>
    ensures change { result ≡ change_beside each long (withdraw which) states.old roster }
    ensures states { states.new ≡ run_beside each long (withdraw which) states.old roster }
{
    let listed = one_each(each, long, roster.centres);
    withdraw_refusal(which, states, roster, listed)?;
    let edition = roster.edition;
    let wide = width(edition, Section::States);
    let centre = centre_at(states, edition, which as usize);
    move_down(states, wide, roster.count as usize, which as usize);
    let count = roster.count as usize - 1;
    Ok(changed(
        InUse {
            states,
            edition,
            count,
        },
        centre,
    ))
}

// A state appended, and its centre's entry brought up to date.
pub fn append<P: Piece>(
    list: &mut [P],
    state: &[u64],
    states: &mut [u64],
    roster: Roster,
) -> Result<Change, Refusal>
    ensures change { result ≡ change_beside P.EACH (length list.old) (append state.now) states.old roster }
    ensures states { states.new ≡ run_beside P.EACH (length list.old) (append state.now) states.old roster }
    ensures list { list.new
        ≡ settled_by P.store list.old (change_beside P.EACH (length list.old) (append state.now) states.old roster) }
{
    let change = append_state(state, states, roster, P::EACH, list.len())?;
    P::put(list, change.at, change.entry);
    Ok(change)
}

// A state withdrawn, and its centre's entry brought up to date.
pub fn withdraw<P: Piece>(
    list: &mut [P],
    which: u64,
    states: &mut [u64],
    roster: Roster,
) -> Result<Change, Refusal>
    ensures change { result ≡ change_beside P.EACH (length list.old) (withdraw which) states.old roster }
    ensures states { states.new ≡ run_beside P.EACH (length list.old) (withdraw which) states.old roster }
    ensures list { list.new
        ≡ settled_by P.store list.old (change_beside P.EACH (length list.old) (withdraw which) states.old roster) }
{
    let change = withdraw_state(which, states, roster, P::EACH, list.len())?;
    P::put(list, change.at, change.entry);
    Ok(change)
}
