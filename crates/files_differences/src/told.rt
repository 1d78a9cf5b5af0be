// What a comparison says of two rows, of a figure, of the largest distance, and of two files; and the words of each case.
ghost use Rattle.std.specs.Prelude.{◌≡◌};
ghost use Rattle.files_differences.specs.Told.{
  row_kind_of,
  row_kind_word,
  figure_of,
  figure_in,
  figure_words,
  first_larger,
  largest_with,
  compared_words,
  side_word,
  of_both,
  comparison_words,
};

use crate::distance::distance_of;
use bits::words::is_finite_word;
use files_checks::Fault;
use files_formats::rows::RESULT_WIDTH;

// What two rows are: answered on both sides, refused on one alone, or on both, with the same number or different ones.
#[derive(Clone, Copy, Debug, PartialEq, Eq)]
pub enum RowKind {
    Answered = 0,
    LeftRefused = 1,
    RightRefused = 2,
    RefusedAlike = 3,
    RefusedUnlike = 4,
}

// What a comparison says of a figure: how many last places it moved; where a side is not finite, whether the bits are the same; nothing where a row is refused.
#[derive(Clone, Copy, Debug, PartialEq, Eq)]
pub enum Figure {
    Distance(u64),
    EqualBits,
    UnequalBits,
    Untold,
}

// A largest distance, and where it is.
#[derive(Clone, Copy, Debug, PartialEq, Eq)]
pub struct Largest {
    pub row: usize,
    pub word: usize,
    pub distance: u64,
}

// One of the two files.
#[derive(Clone, Copy, Debug, PartialEq, Eq)]
pub enum Side {
    Left,
    Right,
}

// What is said of two files: the count of rows, and the first largest distance, if any figure has a distance.
#[derive(Clone, Copy, Debug, PartialEq, Eq)]
pub struct Compared {
    pub count: usize,
    pub largest: Option<Largest>,
}

// Why two files are not compared: what is wrong, and with which of the two, if with one of them.
#[derive(Clone, Copy, Debug, PartialEq, Eq)]
pub struct Refused {
    pub fault: Fault,
    pub side: Option<Side>,
}

// What is wrong with both together.
impl From<Fault> for Refused {
    ghost from_gives = { λ fault refused. refused ≡ of_both fault };

    fn from(fault: Fault) -> Refused {
        Refused { fault, side: None }
    }
}

// What two rows are, by the first word of each.
#[tactic(auto, unfolding(crate::specs::Told::row_kind_of))]
pub fn row_kind_of(left: u64, right: u64) -> RowKind
    ensures { result ≡ row_kind_of left right }
{
    match (left, right) {
        (0, 0) => RowKind::Answered,
        (0, _) => RowKind::RightRefused,
        (_, 0) => RowKind::LeftRefused,
        _ if left == right => RowKind::RefusedAlike,
        _ => RowKind::RefusedUnlike,
    }
}

// The word of a row's kind: a function, since docs/STATEMENTS.md names it with its law and its wrong programs.
pub fn row_kind_word(kind: RowKind) -> u64
    ensures { result ≡ row_kind_word kind }
{
    kind as u64
}

// What is said of a figure in rows that are answered, by its two words.
#[tactic(auto, unfolding(crate::specs::Told::figure_of))]
fn figure_of(left: u64, right: u64) -> Figure
    ensures { result ≡ figure_of left right }
{
    if is_finite_word(left) && is_finite_word(right) {
        Figure::Distance(distance_of(left, right))
    } else if left == right {
        Figure::EqualBits
    } else {
        Figure::UnequalBits
    }
}

// What is said of a figure in any two rows.
pub fn figure_in(kind: RowKind, left: u64, right: u64) -> Figure
    ensures { result ≡ figure_in kind left right }
{
    match kind {
        RowKind::Answered => figure_of(left, right),
        _ => Figure::Untold,
    }
}

// A figure's kind and its distance.
pub fn figure_words(figure: Figure) -> [u64; 2]
    ensures { result ≡ figure_words figure }
{
    match figure {
        Figure::Distance(distance) => [0, distance],
        Figure::EqualBits => [1, 0],
        Figure::UnequalBits => [2, 0],
        Figure::Untold => [3, 0],
    }
}

// The first largest of a distance and those before it.
fn first_larger(known: Option<Largest>, next: Largest) -> Option<Largest>
    ensures { result ≡ first_larger known next.row next.word next.distance }
{
    match known {
        Some(largest) if next.distance <= largest.distance => known,
        _ => Some(next),
    }
}

// The first largest distance with one figure more, behind the others.
pub fn largest_with(
    known: Option<Largest>,
    row: usize,
    word: usize,
    figure: Figure,
) -> Option<Largest>
    ensures { result ≡ largest_with known row word figure }
{
    match figure {
        Figure::Distance(distance) => first_larger(
            known,
            Largest {
                row,
                word,
                distance,
            },
        ),
        _ => known,
    }
}

// The seven words of files that are compared: no refusal, the count of rows, and the first largest distance, if there is one.
fn compared_words(count: usize, largest: Option<Largest>) -> [u64; 7]
    ensures { result ≡ compared_words count largest }
{
    let none = Largest {
        row: count,
        word: RESULT_WIDTH,
        distance: 0,
    };
    let told = largest.unwrap_or(none);
    [
        0,
        0,
        0,
        count as u64,
        told.row as u64,
        told.word as u64,
        told.distance,
    ]
}

// The word of a side, 1 where it is the right one.
fn side_word(side: Option<Side>) -> u64
    ensures { result ≡ side_word side }
{
    u64::from(side == Some(Side::Right))
}

// The seven words of an answer: refusal, side, place, the count of rows, then row, word and distance of the first largest distance.
#[tactic(auto, unfolding(crate::specs::Told::comparison_words))]
pub fn words_of(comparison: Result<Compared, Refused>) -> [u64; 7]
    ensures { result ≡ comparison_words comparison }
{
    match comparison {
        Ok(compared) => compared_words(compared.count, compared.largest),
        Err(refused) => [
            u64::from(refused.fault.refusal),
            side_word(refused.side),
            refused.fault.place as u64,
            0,
            0,
            0,
            0,
        ],
    }
}
