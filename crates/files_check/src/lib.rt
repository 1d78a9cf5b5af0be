// Layer 5: a file of another station's rows, and a verdict for each (document 02, T-06).
#![tactic(auto)]

ghost use Rattle.std.specs.Prelude.{◌≡◌, ◌+◌, ◌*◌, ◌≤◌, ◌<◌, length};
ghost use Rattle.files_formats.specs.Rows.{checked_width, checked_place};
ghost use Rattle.files_check.specs.RowsFile.{
  rows_check,
  row_at,
  fields_at,
  verdict_of,
  verdict_at,
  judged_of,
  with_verdicts,
  verdicts_after,
};

use bits::Refusal;
use files_checks::{Fault, check_filled, need};
use files_formats::rows::{
    CHECKED_ANOMALY, CHECKED_COUNT_PLACE, CHECKED_FIGURE, CHECKED_FIGURES, CHECKED_WIDTH,
    GIVEN_WORDS, MOST_CHECKED,
};
use files_words::word_at;

// The count, that many whole rows, and nothing behind them.
#[tactic(auto, unfolding(crate::specs::RowsFile::rows_check))]
fn check_rows(file: &[u8]) -> Result<(), Fault>
    ensures { result ≡ rows_check file.now }
{
    check_filled(
        file,
        CHECKED_COUNT_PLACE,
        MOST_CHECKED,
        CHECKED_WIDTH as u16,
    )
}

// Row k of a file that has it. Three contracts say that it has: for each a struct with that fact would name one file and one number.
fn row_at(file: &[u8], k: usize) -> &[u8]
    requires { checked_place k + 8 * checked_width ≤ length file.now }
    ensures { result.now ≡ row_at file.now k }
{
    let at = CHECKED_COUNT_PLACE + 8 + 8 * (k * CHECKED_WIDTH);
    &file[at..at + 8 * CHECKED_WIDTH]
}

// The words of a row from a column on, as many as the run has.
fn read_fields(row: &[u8], column: usize, words: &mut [u64])
    requires { (column < checked_width) × (length words.old ≤ checked_width) }
    ensures { words.new ≡ fields_at row.now (8 * column) (length words.old) }
{
    for j in 0..words.len() {
        words[j] = word_at(row, 8 * column + 8 * j);
    }
}

// The verdict on a row: 1 accepted, 0 not.
#[tactic(auto, unfolding(crate::specs::RowsFile::verdict_of))]
fn verdict_of(given: [u64; 8], anomaly: u64, nine: [u64; 9]) -> u64
    ensures { result ≡ verdict_of given anomaly nine }
{
    u64::from(states_check::accepts(given, anomaly, nine))
}

// The verdict on row k.
fn verdict_at(file: &[u8], k: usize) -> u64
    requires { checked_place k + 8 * checked_width ≤ length file.now }
    ensures { result ≡ verdict_at file.now k }
{
    let row = row_at(file, k);
    let mut given = [0; GIVEN_WORDS];
    read_fields(row, 0, &mut given);
    let mut nine = [0; CHECKED_FIGURES];
    read_fields(row, CHECKED_FIGURE, &mut nine);
    verdict_of(given, word_at(row, 8 * CHECKED_ANOMALY), nine)
}

// The verdicts on so many rows, one after another, to the front of a run.
fn put_verdicts(file: &[u8], rows: usize, verdicts: &mut [u64])
    requires { (checked_place rows ≤ length file.now) × (rows ≤ length verdicts.old) }
    ensures { verdicts.new ≡ with_verdicts file.now rows verdicts.old }
{
    for k in 0..rows {
        verdicts[k] = verdict_at(file, k);
    }
}

// A verdict for each row of a file, to a lent run, and how many rows there are; a refused file, or a run too short, changes nothing there.
pub fn judge(file: &[u8], verdicts: &mut [u64]) -> Result<usize, Fault>
    ensures judged { result ≡ judged_of file.now (length verdicts.old) }
    ensures verdicts { verdicts.new ≡ verdicts_after file.now verdicts.old }
{
    check_rows(file)?;
    let rows = word_at(file, CHECKED_COUNT_PLACE) as usize;
    need(rows <= verdicts.len(), Refusal::RoomTooShort, rows)?;
    put_verdicts(file, rows, verdicts);
    Ok(rows)
}
