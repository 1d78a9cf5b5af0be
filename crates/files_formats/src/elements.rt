// The element file as tables: editions, sections, the kinds of their columns, and columns by name.
ghost use Rattle.std.specs.Prelude.{◌≡◌, ◌<◌, ◌≤◌, length};
ghost use Rattle.files_formats.specs.Kinds.{kind_at};
ghost use Rattle.files_formats.specs.Elements.{edition_word, edition_from, limit_of, kinds_of, width_of, widest, column_of};

use crate::kinds::Kind;
use bits::Refusal;

// The editions of the element file, each with the word that its files begin with.
#[derive(Clone, Copy, Debug, PartialEq, Eq)]
pub enum Edition {
    One = 1,
}

// Which section, in the order of the file.
#[derive(Clone, Copy, Debug, PartialEq, Eq)]
pub enum Section {
    Centres,
    States,
    Requests,
}

// A column by its name; the position and the velocity are three columns each, from this one on.
#[derive(Clone, Copy, Debug, PartialEq, Eq)]
pub enum Column {
    Mu,
    Centre,
    Epoch,
    Position,
    Velocity,
    State,
    Time,
}

// The most records that a section may have.
pub const MOST_CENTRES: u16 = 16;

pub const MOST_STATES: u16 = 500;

pub const MOST_REQUESTS: u16 = 1500;

// The bytes of the longest file: every section at its limit (`longest_file` of `files_reader`, by which no accepted file is longer).
pub const LONGEST_FILE: usize = 56_160;

// The kinds, as the tables write them.
const F: Kind = Kind::Figure;

const N: Kind = Kind::Number;

// Edition 1: mu; centre number, epoch, x y z vx vy vz; state number, time.
const CENTRES_1: [Kind; 1] = [F];

const STATES_1: [Kind; 8] = [N, F, F, F, F, F, F, F];

const REQUESTS_1: [Kind; 2] = [N, F];

impl From<Edition> for u64 {
    ghost from_gives = { λ edition word. word ≡ edition_word edition };

    fn from(edition: Edition) -> u64 {
        edition as u64
    }
}

impl TryFrom<u64> for Edition {
    type Error = Refusal;

    ghost try_from_gives = { λ word answer. answer ≡ edition_from word };

    fn try_from(word: u64) -> Result<Edition, Refusal> {
        match word {
            1 => Ok(Edition::One),
            _ => Err(Refusal::UnknownEdition),
        }
    }
}

// The most records that a section may have.
pub fn limit(section: Section) -> u16
    ensures { result ≡ limit_of section }
{
    match section {
        Section::Centres => MOST_CENTRES,
        Section::States => MOST_STATES,
        Section::Requests => MOST_REQUESTS,
    }
}

// The kinds of the columns of a record, in their order.
fn kinds(edition: Edition, section: Section) -> &'static [Kind]
    ensures { (result.now ≡ kinds_of edition section) × (0 < length result.now) × (length result.now ≤ widest) }
{
    match (edition, section) {
        (Edition::One, Section::Centres) => &CENTRES_1,
        (Edition::One, Section::States) => &STATES_1,
        (Edition::One, Section::Requests) => &REQUESTS_1,
    }
}

// The width of a record: its words.
pub fn width(edition: Edition, section: Section) -> usize
    ensures { (result ≡ width_of edition section) × (0 < result) × (result ≤ widest) }
{
    kinds(edition, section).len()
}

// The kind of a column.
pub fn kind_at(edition: Edition, section: Section, column: usize) -> Kind
    requires { column < width_of edition section }
    ensures { result ≡ kind_at (kinds_of edition section) column }
{
    kinds(edition, section)[column]
}

// The number of a column in its record.
pub fn column_at(edition: Edition, column: Column) -> usize
    ensures { (result ≡ column_of edition column) × (result < widest) }
{
    match (edition, column) {
        (Edition::One, Column::Mu) => 0,
        (Edition::One, Column::Centre) => 0,
        (Edition::One, Column::Epoch) => 1,
        (Edition::One, Column::Position) => 2,
        (Edition::One, Column::Velocity) => 5,
        (Edition::One, Column::State) => 0,
        (Edition::One, Column::Time) => 1,
    }
}
