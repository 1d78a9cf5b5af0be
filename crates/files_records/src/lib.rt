// Layer 5: records of any width in a run of words.
#![tactic(auto)]

ghost use Rattle.std.specs.Prelude.{◌≡◌, suc, ◌*◌, ◌<◌, ◌≤◌, length};
ghost use Rattle.files_records.specs.Records.{has_record, put_at, record_put, moved_down, withdrawn};

// Whether a run of so many words has record i of w words.
fn has_record(words: usize, w: usize, i: usize) -> bool
    ensures { result ≡ has_record w words i }
{
    w == 0 || i < words / w
}

// A record put at i, where the run has record i.
fn put_at(run: &mut [u64], w: usize, i: usize, words: &[u64])
    requires { (length words.now ≡ w) × (suc i * w ≤ length run.old) }
    ensures { run.new ≡ put_at w run.old i words.now }
{
    let at = i * w;
    bits::copy_words(words, &mut run[at..at + w]);
}

// A record of w words put at i; behind i records it is appended. Where the run has no record i, or the words are not w, nothing is put.
#[tactic(auto, unfolding(crate::specs::Records::record_put))]
pub fn put_record(run: &mut [u64], w: usize, i: usize, words: &[u64])
    ensures { run.new ≡ record_put w run.old i words.now }
{
    if words.len() == w && has_record(run.len(), w, i) {
        put_at(run, w, i, words);
    }
}

// The followers of a record moved down one record, where the run has as many records.
fn move_followers(run: &mut [u64], w: usize, count: usize, which: usize)
    requires { (which < count) × (count * w ≤ length run.old) }
    ensures { run.new ≡ moved_down w run.old count which }
{
    let at = which * w;
    run.copy_within(at + w..count * w, at);
}

// One of so many records withdrawn: its followers move down one record, and no other word changes. Where it is not there, or the run has not so many,
// nothing is withdrawn.
#[tactic(auto, unfolding(crate::specs::Records::withdrawn))]
pub fn move_down(run: &mut [u64], w: usize, count: usize, which: usize)
    ensures { run.new ≡ withdrawn w run.old count which }
{
    if which < count && has_record(run.len(), w, count - 1) {
        move_followers(run, w, count, which);
    }
}
