// A list of entries as words, so many of them each, kept beside a run of states: what crosses into C. A change is the generic one of `changes`, as in `lists`.
ghost use Rattle.std.specs.Prelude.{◌≡◌, ◌*◌, length};
ghost use Rattle.files_records.specs.Records.{records_of};
ghost use Rattle.files_formats.specs.Rows.{entry_width};
ghost use Rattle.files_summary.specs.Entries.{state_width};
ghost use Rattle.files_summary.specs.Changes.{append, withdraw, change_beside, run_beside, settled_by, put_entry};
ghost use Rattle.files_summary.specs.Changes.{entries_of, as_words, summary_refusal, summary_list};

use crate::changes;
use crate::changes::{Change, lent_refusal, one_each};
use crate::entries::{Roster, entry_of};
use crate::pieces::Piece;
use crate::used::InUse;
use bits::Refusal;
use files_formats::rows::ENTRY_WIDTH;

// The entries of so many centres put one after another.
fn put_entries(list: &mut [u64], used: InUse<'_>, centres: usize)
    requires { length list.old ≡ centres * entry_width }
    ensures { list.new
        ≡ as_words (entries_of used.entry.edition (records_of (state_width used.entry.edition) used.entry.states.now used.entry.count) centres) }
{
    for centre in 0..centres {
        u64::put(list, centre, entry_of(used, centre as u64));
    }
}

// The whole list, worked out afresh.
pub fn summary(list: &mut [u64], states: &[u64], roster: Roster) -> Result<(), Refusal>
    ensures refusal { result ≡ summary_refusal states.now roster list.old }
    ensures list { list.new ≡ summary_list states.now roster list.old }
{
    let listed = one_each(ENTRY_WIDTH, list.len(), roster.centres);
    lent_refusal(states.len(), roster, listed)?;
    let used = InUse {
        states,
        edition: roster.edition,
        count: roster.count as usize,
    };
    put_entries(list, used, roster.centres as usize);
    Ok(())
}

// A state appended, and its centre's entry brought up to date.
pub fn append(
    list: &mut [u64],
    state: &[u64],
    states: &mut [u64],
    roster: Roster,
) -> Result<Change, Refusal>
    ensures change { result ≡ change_beside entry_width (length list.old) (append state.now) states.old roster }
    ensures states { states.new
        ≡ run_beside entry_width (length list.old) (append state.now) states.old roster }
    ensures list { list.new
        ≡ settled_by put_entry list.old
        (change_beside entry_width (length list.old) (append state.now) states.old roster) }
{
    changes::append(list, state, states, roster)
}

// A state withdrawn, and its centre's entry brought up to date.
pub fn withdraw(
    list: &mut [u64],
    which: u64,
    states: &mut [u64],
    roster: Roster,
) -> Result<Change, Refusal>
    ensures change { result ≡ change_beside entry_width (length list.old) (withdraw which) states.old roster }
    ensures states { states.new ≡ run_beside entry_width (length list.old) (withdraw which) states.old roster }
    ensures list { list.new
        ≡ settled_by put_entry list.old (change_beside entry_width (length list.old) (withdraw which) states.old roster) }
{
    changes::withdraw(list, which, states, roster)
}
