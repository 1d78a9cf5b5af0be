// Formats beside the element file: result files, files of rows to check, and the records of the lists that calls are lent.
use crate::elements::MOST_REQUESTS;

// A result file: its edition, the place of its count, the words of a row and the most rows.
// Result files have this edition alone, so it is no enum.
pub const RESULT_EDITION: u64 = 1;

pub const RESULT_COUNT_PLACE: usize = 8;

pub const RESULT_WIDTH: usize = 11;

pub const MOST_RESULTS: u16 = MOST_REQUESTS;
// The columns of a row: the refusal or 0, the points, and nine figures: position, velocity, acceleration at the end.
pub const RESULT_REFUSAL: usize = 0;

pub const RESULT_FIGURE: usize = 2;

pub const RESULT_FIGURES: usize = 9;
// The words that a refused element file gives.
pub const REFUSED_WORDS: usize = 3;

// A file of rows to check: the place of its count, the words of a row and the most rows.
pub const CHECKED_COUNT_PLACE: usize = 0;

pub const CHECKED_WIDTH: usize = 18;

pub const MOST_CHECKED: u16 = 400;
// The columns of a row: eight input words, the anomaly, and nine end figures.
pub const GIVEN_WORDS: usize = 8;

pub const CHECKED_ANOMALY: usize = 8;

pub const CHECKED_FIGURE: usize = 9;

pub const CHECKED_FIGURES: usize = 9;

// What is told of a row that is compared: its kind, then a kind and a distance for each figure.
pub const TOLD_WIDTH: usize = 1 + 2 * RESULT_FIGURES;

// An entry of the summary: two counts, the earliest and the latest epoch.
pub const ENTRY_WIDTH: usize = 4;
