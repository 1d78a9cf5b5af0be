// The first fault among the words of a section, by its table. A column of which nothing is asked is not looked at.
ghost use Rattle.std.specs.Prelude.{◌≡◌, ℕ, ◌<◌, ◌≤◌, length, map};
ghost use Rattle.files_words.specs.Bytes.{number_of};
ghost use Rattle.files_formats.specs.Kinds.{kind_fault, table_fault, FirstOfColumn, FirstOf};
ghost use Rattle.files_formats.specs.Elements.{kinds_of, widest};
ghost use Rattle.files_formats.specs.Shapes.{below_of};

use crate::elements::{Section, kind_at, width};
use crate::kinds::{Kind, asks, fault};
use crate::shapes::Shape;
use bits::Refusal;

// A word as it stands in a section: eight bytes in a file, or a word in a run.
pub trait Word {
    ghost number: { Self → ℕ };

    fn number(&self) -> u64
        ensures { result ≡ number self.now };
}

impl Word for [u8; 8] {
    ghost number = { number_of };

    fn number(&self) -> u64 {
        u64::from_le_bytes(*self)
    }
}

impl Word for u64 {
    ghost number = { λ word. word };

    fn number(&self) -> u64 {
        *self
    }
}

// A word that has a fault: which it is, and why it is refused.
#[derive(Clone, Copy)]
pub struct Found {
    pub at: usize,
    pub refusal: Refusal,
}

// The first word of a column, below a bound, that has a fault. The kind and the width are handed in and not looked up: this is the reader's inner loop.
fn first_of_column<W: Word>(
    words: &[W],
    kind: Kind,
    below: usize,
    w: usize,
    column: usize,
    bound: usize,
) -> Option<Found>
    requires { (0 < w) × (w ≤ widest) × (column < w) × (bound ≤ length words.now) }
    ensures { FirstOfColumn (kind_fault kind below w (map W.number words.now)) w column bound result }
{
    if !asks(kind) {
        return None;
    }
    for k in (column..bound).step_by(w) {
        if let Some(refusal) = fault(kind, below, words[k].number()) {
            return Some(Found { at: k, refusal });
        }
    }
    None
}

// The first word that has a fault, found column by column.
pub fn first_fault<W: Word>(words: &[W], shape: Shape, section: Section) -> Option<Found>
    ensures { FirstOf (table_fault (kinds_of shape.edition section) (below_of shape section) (map W.number words.now)) (length words.now) result }
{
    let edition = shape.edition;
    let below = shape.below(section) as usize;
    let w = width(edition, section);
    let mut found = None;
    for column in 0..w {
        let kind = kind_at(edition, section, column);
        let until = found.map_or(words.len(), |first: Found| first.at);
        found = first_of_column(words, kind, below, w, column, until).or(found);
    }
    found
}
