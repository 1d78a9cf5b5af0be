// A list of entries kept beside a run of states, in the form that document 01 names: a slice of summary structs, updated at one entry.
// The update is the generic one of `changes`; it has a name here, and one in `words`, since each has a law and wrong programs of its own (docs/STATEMENTS.md).
ghost use Rattle.std.specs.Prelude.{◌≡◌, length, set};
ghost use Rattle.files_summary.specs.Changes.{append, withdraw, change_beside, run_beside, settled_by};

use crate::changes;
use crate::changes::Change;
use crate::entries::{Roster, Summary};
use bits::Refusal;

// A state appended, and its centre's entry brought up to date.
pub fn append(
    list: &mut [Summary],
    state: &[u64],
    states: &mut [u64],
    roster: Roster,
) -> Result<Change, Refusal>
    ensures change { result ≡ change_beside 1 (length list.old) (append state.now) states.old roster }
    ensures states { states.new ≡ run_beside 1 (length list.old) (append state.now) states.old roster }
    ensures list { list.new
        ≡ settled_by set list.old (change_beside 1 (length list.old) (append state.now) states.old roster) }
{
    changes::append(list, state, states, roster)
}

// A state withdrawn, and its centre's entry brought up to date.
pub fn withdraw(
    list: &mut [Summary],
    which: u64,
    states: &mut [u64],
    roster: Roster,
) -> Result<Change, Refusal>
    ensures change { result ≡ change_beside 1 (length list.old) (withdraw which) states.old roster }
    ensures states { states.new ≡ run_beside 1 (length list.old) (withdraw which) states.old roster }
    ensures list { list.new
        ≡ settled_by set list.old (change_beside 1 (length list.old) (withdraw which) states.old roster) }
{
    changes::withdraw(list, which, states, roster)
}
