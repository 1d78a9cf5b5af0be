// Layer 5: two result files compared, figure by figure, in last places (document 02, T-07).
#![tactic(auto)]

ghost use Rattle.std.specs.Prelude.{◌≡◌, ◌+◌, ◌*◌, ◌≤◌, length};
ghost use Rattle.files_words.specs.Bytes.{put};
ghost use Rattle.files_formats.specs.Rows.{result_width, result_place, result_figures, told_width};
ghost use Rattle.files_compare.specs.Compare.{
  results_check,
  unless_fault,
  row_told,
  row_at,
  rows_told,
  largest_in_row,
  largest_of,
  comparison_of,
  run_after,
};

use bits::Refusal;
use files_checks::{Fault, check_edition, check_filled, need};
use files_differences::{
    Compared, Largest, Refused, Side, figure_in, figure_words, largest_with, row_kind_of,
    row_kind_word,
};
use files_formats::rows::{
    MOST_RESULTS, RESULT_COUNT_PLACE, RESULT_EDITION, RESULT_FIGURE, RESULT_FIGURES,
    RESULT_REFUSAL, RESULT_WIDTH, TOLD_WIDTH,
};
use files_words::word_at;

// A result file: its edition, a count of rows, that many rows, and nothing behind them.
#[tactic(auto, unfolding(crate::specs::Compare::results_check))]
fn check_results(file: &[u8]) -> Result<(), Fault>
    ensures { result ≡ results_check file.now }
{
    check_edition(file, word_at(file, 0) == RESULT_EDITION)?;
    check_filled(file, RESULT_COUNT_PLACE, MOST_RESULTS, RESULT_WIDTH as u16)
}

// What is wrong with one of the two files.
fn check_side(file: &[u8], side: Side) -> Result<(), Refused>
    ensures { result ≡ unless_fault (Some side) (results_check file.now) (Ok tt) }
{
    check_results(file).map_err(|fault| Refused {
        fault,
        side: Some(side),
    })
}

// Row k of a file that has it.
fn row_at(file: &[u8], k: usize) -> &[u8]
    requires { result_place k + 8 * result_width ≤ length file.now }
    ensures { result.now ≡ row_at file.now k }
{
    let at = RESULT_COUNT_PLACE + 8 + 8 * (k * RESULT_WIDTH);
    &file[at..at + 8 * RESULT_WIDTH]
}

// Rows k, told to as many words as are told of a row; and the first largest distance with theirs.
fn tell_row(
    l: &[u8],
    r: &[u8],
    k: usize,
    told: &mut [u64],
    known: Option<Largest>,
) -> Option<Largest>
    requires { length told.old ≡ told_width }
    ensures told { told.new ≡ row_told l.now r.now }
    ensures largest { result ≡ largest_in_row l.now r.now known k result_figures }
{
    let kind = row_kind_of(
        word_at(l, 8 * RESULT_REFUSAL),
        word_at(r, 8 * RESULT_REFUSAL),
    );
    told[0] = row_kind_word(kind);
    let mut largest = known;
    for j in 0..RESULT_FIGURES {
        let word = RESULT_FIGURE + j;
        let figure = figure_in(kind, word_at(l, 8 * word), word_at(r, 8 * word));
        let [its_kind, distance] = figure_words(figure);
        told[1 + 2 * j] = its_kind;
        told[2 + 2 * j] = distance;
        largest = largest_with(largest, k, word, figure);
    }
    largest
}

// So many rows, told to a run one after another; and the first largest distance of all. Written into its caller: as a call of its own it takes 88 bytes more
// of the stack.
#[inline(always)]
fn compare_rows(left: &[u8], right: &[u8], count: usize, run: &mut [u64]) -> Option<Largest>
    requires { (count * told_width ≤ length run.old) × (result_place count ≤ length left.now) × (result_place count ≤ length right.now) }
    ensures run { run.new ≡ put run.old 0 (rows_told left.now right.now count) }
    ensures largest { result ≡ largest_of left.now right.now count }
{
    let mut largest = None;
    for k in 0..count {
        let at = k * TOLD_WIDTH;
        let told = &mut run[at..at + TOLD_WIDTH];
        largest = tell_row(row_at(left, k), row_at(right, k), k, told, largest);
    }
    largest
}

// Two result files compared, row by row to a lent run, which a refusal leaves as it was: 51 where their row counts differ, 26 where the run is too short for
// their words.
pub fn compare(left: &[u8], right: &[u8], run: &mut [u64]) -> Result<Compared, Refused>
    ensures comparison { result ≡ comparison_of left.now right.now (length run.old) }
    ensures run { run.new ≡ run_after left.now right.now run.old }
{
    check_side(left, Side::Left)?;
    check_side(right, Side::Right)?;
    let count = word_at(left, RESULT_COUNT_PLACE) as usize;
    let same = count as u64 == word_at(right, RESULT_COUNT_PLACE);
    need(same, Refusal::CountsDiffer, 0)?;
    let words = count * TOLD_WIDTH;
    need(words <= run.len(), Refusal::RoomTooShort, words)?;
    let largest = compare_rows(left, right, count, run);
    Ok(Compared { count, largest })
}
