// What a list of entries is made of: a struct to an entry, or so many words.
ghost use Rattle.std.specs.Prelude.{◌≡◌, ℕ, suc, ◌*◌, ◌≤◌, List, length, set};
ghost use Rattle.files_formats.specs.Rows.{entry_width};
ghost use Rattle.files_summary.specs.declared.entries.Summary.{Summary};
ghost use Rattle.files_summary.specs.Changes.{put_entry};

use crate::entries::Summary;
use files_formats::rows::ENTRY_WIDTH;
use files_records::put_record;

// A piece of a list: so many are an entry, and the list after an entry is put in its place.
pub trait Piece {
    ghost EACH: { ℕ };

    ghost store: { List Self → ℕ → Summary → List Self };

    const EACH: usize;

    fn put(list: &mut [Self], at: usize, entry: Summary)
        requires { suc at * EACH ≤ length list.old }
        ensures { list.new ≡ store list.old at entry };
}

impl Piece for Summary {
    ghost EACH = { 1 };

    ghost store = { set };

    const EACH: usize = 1;

    fn put(list: &mut [Summary], at: usize, entry: Summary) {
        list[at] = entry;
    }
}

impl Piece for u64 {
    ghost EACH = { entry_width };

    ghost store = { put_entry };

    const EACH: usize = ENTRY_WIDTH;

    fn put(list: &mut [u64], at: usize, entry: Summary) {
        put_record(
            list,
            ENTRY_WIDTH,
            at,
            &[entry.states, entry.nans, entry.earliest, entry.latest],
        );
    }
}
